//! The text of a line.

use std::test::Fail;
use uv_ids::{Code, Seen, Var};
use uv_script::Script;
use uv_text::seen_text;

#[test]
fn the_text_of_a_line(rt: HostRuntime) -> Result<(), Fail> {
    let script = Script::parse(rt.alloc(), b"var t")?;
    let text = seen_text(rt.alloc(), &script, Seen::Send(Var(0), Code::Ekind))?;
    assert!(rt; text.as_slice() == b"out send t = EKIND\n".as_slice());
    Ok(())
}
