//! Who grants memory and who asks for it take turns, a line each.

use std::io;
use std::io::{Print, Read};

/// The other side's lines.
#[derive(Drop)]
pub struct Turns<I> {
    input: I,
}

impl<I: Read> Turns<I> {
    pub fn new(input: I) -> Turns<I> {
        Turns { input }
    }

    /// Says what is wanted, and waits until it is done: for the end of a line.
    pub fn wait<R: Print>(&mut self, rt: &R, wanted: &str) -> io::Result<()> {
        self.asks(rt, wanted).map(|_| ())
    }

    /// Asks whether something is wanted: any answer but an empty line says so.
    pub fn asks<R: Print>(&mut self, rt: &R, question: &str) -> io::Result<bool> {
        println!(rt; "{question}")?;
        let mut byte = [0];
        for read in 0..100 {
            if self.input.read(&mut byte)? == 0 || byte[0] == b'\n' {
                return Ok(read > 0);
            }
        }
        Ok(true)
    }
}
