//! A script that no commands follow.
ghost use Rattle.std.specs.Prelude.{◌^◌, ◌<◌, length, IfErr};
ghost use Rattle.uv_engine.specs.Alone.{ReadsAlone, ParsesAlone};
ghost use Rattle.uv_engine.specs.Devices.{ReaderCounts, IsTooLong, OnAnswer, TakesWithin};
ghost use Rattle.uv_engine.specs.Input.{StopsNear};
ghost use Rattle.uv_engine.specs.Start.{IsStartFault};

use crate::input::Input;
use crate::script::{Front, FrontEnd, read_front, without_begin};
use crate::source::{LIMIT, Source};
use crate::version::Version;
use std::alloc::Global;
use uv_ids::Fault;
use uv_script::Script;

/// Reads a script up to the line `begin`, or up to the end where there is no such line. What follows that line isn't looked at,
/// though some of it may have been read.
///
/// `Script` names the first line outside the grammar. `Read` comes where the reader fails, and else only where the input is
/// longer than 2^30 bytes.
pub fn read_alone<R: Source>(alloc: Global, reader: &mut R) -> Result<Script, Fault>
    ensures script { R.Tells → ReadsAlone (R.remaining reader.old) result }
    // However long a line is, no more of it was read than its first 257 bytes, and 4,096 bytes behind them.
    ensures stops { IfErr result (λ fault. R.Tells → StopsNear fault (R.remaining reader.old) (R.remaining reader.new)) }
    ensures within { OnAnswer result (R.Tells → TakesWithin (2 ^ 30) (R.remaining reader.old) (R.remaining reader.new)) }
    ensures err { IfErr result IsStartFault }
    ensures reader { ReaderCounts result (IsTooLong R.Tells (2 ^ 30) (R.remaining reader.old) (R.given reader.old)
        (R.given reader.new)) (R.failures reader.old) (R.failures reader.new) }
{
    let mut input = Input::new(alloc, LIMIT);
    let front = read_front(alloc, &mut input, reader)?;
    parse_alone(alloc, &front)
}

/// The script of a front, with or without the line `begin` behind it.
fn parse_alone(alloc: Global, front: &Front) -> Result<Script, Fault>
    ensures { ParsesAlone front.now.text.items front.now.end result }
{
    match front.end {
        FrontEnd::Begin => Script::parse(alloc, front.text.as_slice()),
        FrontEnd::Input => Script::parse(alloc, front.text.as_slice()),
        FrontEnd::Long => Err(without_begin(alloc, Version::V3, front.text.as_slice())),
    }
}
