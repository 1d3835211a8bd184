//! `uvt-find`: a search through all orders of what may come from outside of a script's loop.
#![tactic(auto)]

mod running;

use crate::running::run;
use std::process::ExitCode;
use uv_engine::{Reader, Writer};
use uv_loop::ArenaLoop;

fn main(rt: HostRuntime) -> ExitCode {
    let mut reader = Reader::new(rt.stdin());
    let mut writer = Writer::new(rt.stdout());
    let mut errors = rt.stderr();
    let status = run::<ArenaLoop, _, _, _>(rt.alloc(), &mut reader, &mut writer, &mut errors);
    ExitCode::from(status)
}
