//! An inquiry that is read.
ghost use Rattle.std.specs.Prelude.{◌≡◌, ◌^◌, IfOk, IfErr, OnOk};
ghost use Rattle.uv_engine.specs.Devices.{ReaderCounts, IsTooLong, OnAnswer, TakesWithin};
ghost use Rattle.uv_engine.specs.Start.{IsStartFault};
ghost use Rattle.uv_engine.specs.Taking.{IsReadFault};
ghost use Rattle.uv_inquiry.specs.Grammar.{ReadsInquiry};

use crate::inquiry::Inquiry;
use std::alloc::Global;
use uv_engine::{LIMIT, Source};
use uv_ids::Fault;

/// Reads a whole input, and what it asks.
///
/// `Script` names the first line outside the grammar. `Read` comes where the reader fails, and else only where the input is longer
/// than 2^30 bytes; the whole input is read before its lines are.
pub fn read_inquiry<R: Source>(alloc: Global, reader: &mut R) -> Result<Inquiry, Fault>
    ensures inquiry { R.Tells → ReadsInquiry (R.remaining reader.old) result }
    ensures within { OnAnswer result (R.Tells → TakesWithin (2 ^ 30) (R.remaining reader.old) (R.remaining reader.new)) }
    ensures err { IfErr result IsStartFault }
    ensures reader { ReaderCounts result (IsTooLong R.Tells (2 ^ 30) (R.remaining reader.old) (R.given reader.old)
        (R.given reader.new)) (R.failures reader.old) (R.failures reader.new) }
{
    let input = read_all(alloc, reader)?;
    Inquiry::parse(alloc, input.as_slice())
}

/// Reads all that a reader gives. `Read` where it fails, or gives more bytes than may be read.
fn read_all<R: Source>(alloc: Global, reader: &mut R) -> Result<Vec<u8>, Fault>
    ensures bytes { IfOk result (λ input. R.Tells → input.items ≡ R.remaining reader.old) }
    ensures within { OnOk result (R.Tells → TakesWithin (2 ^ 30) (R.remaining reader.old) (R.remaining reader.new)) }
    ensures err { IfErr result IsReadFault }
    ensures reader { ReaderCounts result (IsTooLong R.Tells (2 ^ 30) (R.remaining reader.old) (R.given reader.old)
        (R.given reader.new)) (R.failures reader.old) (R.failures reader.new) }
{
    let mut input = Vec::new(alloc);
    let mut budget = LIMIT as usize;
    'reads: loop {
        let mut room = [0; 4096];
        match reader.read(&mut room) {
            Err(_) => return Err(Fault::Read),
            Ok(0) => return Ok(input),
            Ok(n) => {
                if n > budget {
                    return Err(Fault::Read);
                }
                input.extend_from_slice(&room[..n])?;
                budget -= n;
            }
        }
    }
}
