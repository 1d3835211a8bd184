//! Where text goes.
ghost use Rattle.std.specs.Prelude.{◌≡◌, ◌<◌, ◌≤◌, ◌++◌, ℕ, List, [], IfOk, IfErr, OnOk, OnErr, length, take, drop};
ghost use Rattle.uv_ids.specs.declared.fault.Fault.TheVariants.{Write};
ghost use Rattle.uv_engine.specs.Devices.{Counted, WriteCount, WriterCounts};
ghost use Rattle.uv_script.specs.Writes.{Writes};
ghost use Rattle.uv_engine.specs.Gather.{Gathers};

use uv_ids::Fault;

/// A write or a flush failed.
#[derive(Clone, Copy)]
pub struct WriteFailed;

/// A writer, as the bytes that were written to it and the number of its failures.
pub trait Sink {
    /// Whether the writer tells its bytes, as one over memory does. Of one that doesn't, as a terminal, a contract says
    /// nothing of the bytes.
    ghost Tells: { Type 0 };

    ghost written: { Self → List ℕ };

    ghost failures: { Self → ℕ };

    /// Takes some of the bytes, and says how many. To take none of some is a failure.
    fn write(&mut self, bytes: &[u8]) -> Result<usize, WriteFailed>
        ensures within { IfOk result (λ n. n ≤ length bytes.now) }
        ensures written { IfOk result (λ n. Tells → written self.new ≡ written self.old ++ take n bytes.now) }
        ensures kept { OnErr result (Tells → written self.new ≡ written self.old) }
        ensures count { WriteCount result bytes.now (failures self.old) (failures self.new) };

    /// Passes on what the writer itself holds back.
    fn flush(&mut self) -> Result<(), WriteFailed>
        ensures written { Tells → written self.new ≡ written self.old }
        ensures count { OnErr result (Counted (failures self.old) (failures self.new)) }
        ensures same { OnOk result (failures self.new ≡ failures self.old) };
}

/// Writes a whole text, or a beginning of it.
pub fn write_text<W: Sink>(writer: &mut W, text: &[u8]) -> Result<(), Fault>
    ensures text { W.Tells → Writes result (W.written writer.old) text.now (W.written writer.new) }
    ensures err { IfErr result (λ fault. fault ≡ Write) }
    ensures writer { WriterCounts result (W.failures writer.old) (W.failures writer.new) }
{
    let mut at = 0;
    while at < text.len() {
        match writer.write(&text[at..]) {
            Err(_) => return Err(Fault::Write),
            Ok(0) => return Err(Fault::Write),
            Ok(n) => at += n,
        }
    }
    Ok(())
}

/// Writes the text that was gathered, and passes it on.
pub fn write_out<W: Sink>(writer: &mut W, text: &mut Vec<u8>) -> Result<(), Fault>
    ensures text { W.Tells → Gathers result (W.written writer.old) text.old.items [] (W.written writer.new) text.new.items }
    ensures empty { OnOk result (text.new.items ≡ []) }
    ensures err { IfErr result (λ fault. fault ≡ Write) }
    ensures writer { WriterCounts result (W.failures writer.old) (W.failures writer.new) }
{
    if text.is_empty() {
        return Ok(());
    }
    write_text(writer, text.as_slice())?;
    if writer.flush().is_err() {
        return Err(Fault::Write);
    }
    text.clear();
    Ok(())
}
