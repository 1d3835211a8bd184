//! Standard readers and writers, as a conversation's.
//!
//! They tell their bytes wherever std knows those: over memory it does, at a terminal or a file it doesn't.
ghost use Rattle.std.specs.Prelude.{◌≡◌};
ghost use Rattle.uv_engine.specs.Devices.{Counted, AreKnown, known};

use crate::sink::{Sink, WriteFailed};
use crate::source::{ReadFailed, Source};
use std::io::{Read, Write};

/// Counts a failure.
fn count(failures: &mut u64)
    ensures { Counted failures.old failures.new }
{
    *failures = failures.saturating_add(1);
}

/// A standard reader, how many bytes it gave, and how often it failed.
#[derive(Drop)]
pub struct Reader<R> {
    reader: R,
    given: u64,
    failures: u64,
}

impl<R: Read> Reader<R> {
    /// The reader, of which nothing was read yet.
    pub fn new(reader: R) -> Reader<R>
        ensures reader { result.reader ≡ reader }
        ensures given { result.given ≡ 0 }
        ensures failures { result.failures ≡ 0 }
    {
        Reader {
            reader,
            given: 0,
            failures: 0,
        }
    }
}

impl<R: Read> Source for Reader<R> {
    ghost Tells = { AreKnown R.remaining };

    ghost remaining = { λ reader. known (R.remaining reader.reader) };

    ghost given = { λ reader. reader.given };

    ghost failures = { λ reader. reader.failures };

    fn read(&mut self, room: &mut [u8]) -> Result<usize, ReadFailed> {
        match self.reader.read(room) {
            Ok(n) => {
                self.given = self.given.saturating_add(n as u64);
                Ok(n)
            }
            Err(_) => {
                count(&mut self.failures);
                Err(ReadFailed)
            }
        }
    }
}

/// A standard writer, and how often it failed.
#[derive(Drop)]
pub struct Writer<W> {
    writer: W,
    failures: u64,
}

impl<W: Write> Writer<W> {
    /// The writer, to which nothing was written yet.
    pub fn new(writer: W) -> Writer<W>
        ensures writer { result.writer ≡ writer }
        ensures failures { result.failures ≡ 0 }
    {
        Writer {
            writer,
            failures: 0,
        }
    }
}

impl<W: Write> Sink for Writer<W> {
    ghost Tells = { AreKnown W.contents };

    ghost written = { λ writer. known (W.contents writer.writer) };

    ghost failures = { λ writer. writer.failures };

    fn write(&mut self, bytes: &[u8]) -> Result<usize, WriteFailed> {
        match self.writer.write(bytes) {
            Ok(n) => {
                if n == 0 && !bytes.is_empty() {
                    count(&mut self.failures);
                }
                Ok(n)
            }
            Err(_) => {
                count(&mut self.failures);
                Err(WriteFailed)
            }
        }
    }

    fn flush(&mut self) -> Result<(), WriteFailed> {
        match self.writer.flush() {
            Ok(()) => Ok(()),
            Err(_) => {
                count(&mut self.failures);
                Err(WriteFailed)
            }
        }
    }
}

/// A standard reader over a slice tells its bytes, and so does a standard writer over a vector. So what a clause asks of devices that tell, some
/// devices meet. It does nothing, and is called for its clauses.
pub fn memory_tells()
    ensures reader { ⟦<Reader<&'static [u8]> as Source>⟧.Tells }
    ensures writer { ⟦<Writer<Vec<u8>> as Sink>⟧.Tells }
{}
