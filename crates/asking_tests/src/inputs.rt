//! Whole inputs, their first bad lines, and readers that fail.

use std::alloc::Global;
use std::io;
use std::io::Read;
use std::test::Fail;
use uv_engine::Reader;
use uv_ids::Fault;
use uv_inquiry::{Inquiry, may_never_end, read_inquiry};

/// How an input is read.
#[derive(Clone, Copy, PartialEq, Eq)]
enum Became {
    Read,
    /// This line of it is bad.
    Bad(usize),
    /// The reader failed.
    Broken,
}

/// What became of it; or want of memory.
fn outcome(answer: Result<Inquiry, Fault>) -> Result<Became, Fault> {
    match answer {
        Ok(_) => Ok(Became::Read),
        Err(Fault::Script { line }) => Ok(Became::Bad(line)),
        Err(Fault::Read) => Ok(Became::Broken),
        Err(fault) => Err(fault),
    }
}

const INPUTS: [(&[u8], Became); 20] = [
    (b"var a\nbegin\nfind never a\n", Became::Read),
    (b"order 1.44\nbegin\n# nothing\n\nfind stuck", Became::Read),
    (b"", Became::Bad(1)),
    (b"var a\n", Became::Bad(2)),
    (b"var a\nvar a\nbegin\nfind stuck\n", Became::Bad(2)),
    (b"begin", Became::Bad(2)),
    (b"var a\nbegin\nmost a 1\n\n", Became::Bad(5)),
    (
        b"var a\nbegin\nfind never a\n\n# twice\nfind never a\nfind",
        Became::Bad(6),
    ),
    (
        b"begin\nmost clock 5\nmost clock 6\nfind stuck\n",
        Became::Bad(3),
    ),
    (b"var a\nbegin\nfull\nfind never a\n", Became::Read),
    (b"begin\nfull\nfind stuck\nfull\n", Became::Bad(4)),
    (
        b"var a\nbegin\nmay send a 1\nmay cancel a 1\nmay send a 2\nfind stuck\n",
        Became::Bad(5),
    ),
    (
        b"var a\nbegin\nmay send a 1\nmay io a 1\nmay io a 2\nfind stuck\n",
        Became::Bad(5),
    ),
    (
        b"begin\nmay wait\nmay tick 1 1\nmay tick 2 1\nmay tick 1 2\nfind stuck\n",
        Became::Bad(5),
    ),
    (b"begin\nbegin\nfind stuck\n", Became::Bad(2)),
    (
        b"var a\nvar b\nbegin\ntakes a 1\ntakes a @1 1\ntakes b 1\ntakes a 2\nfind stuck\n",
        Became::Bad(7),
    ),
    (
        b"var a\nvar b\nbegin\nmay send a 1\nmay send a 1 during b\nmay send a 2 during b\nfind stuck\n",
        Became::Bad(6),
    ),
    (
        b"var a\nbegin\nmay differ 1\nrecorded 0 0 send a\nrecorded 0 0 send a\nfind stuck\nmay tick 5 1\n",
        Became::Bad(7),
    ),
    (
        b"var a\nbegin\nrecorded 0 0 send a\nmay differ 1\nfind stuck\n",
        Became::Bad(3),
    ),
    (
        b"begin\nmay tick 5 1\nmay differ 1\nfind stuck\n",
        Became::Bad(3),
    ),
];

#[test]
fn an_input_is_read_or_has_a_first_bad_line(rt: HostRuntime) -> Result<(), Fail> {
    for (input, wanted) in INPUTS {
        assert!(rt; outcome(Inquiry::parse(rt.alloc(), input))? == wanted);
    }
    Ok(())
}

/// A reader that gives three bytes at a time, and fails at the read after so many.
#[derive(Drop)]
struct Threes<'a> {
    rest: &'a [u8],
    reads_left: u32,
}

impl Read for Threes<'_> {
    fn read(&mut self, room: &mut [u8]) -> io::Result<usize> {
        if self.reads_left == 0 {
            return Err(io::ErrorKind::Other.into());
        }
        self.reads_left -= 1;
        let n = self.rest.len().min(3).min(room.len());
        room[..n].copy_from_slice(&self.rest[..n]);
        self.rest = &self.rest[n..];
        Ok(n)
    }
}

fn read_in_threes(alloc: Global, input: &[u8], reads: u32) -> Result<Became, Fault> {
    let mut reader = Reader::new(Threes {
        rest: input,
        reads_left: reads,
    });
    outcome(read_inquiry(alloc, &mut reader))
}

/// The input has 24 bytes: eight reads give them, and the ninth says that they are all.
#[test]
fn a_reader_may_fail_at_each_read(rt: HostRuntime) -> Result<(), Fail> {
    let input = b"var a\nbegin\nfind never a";
    for reads in 0..9 {
        assert!(rt; read_in_threes(rt.alloc(), input, reads)? == Became::Broken);
    }
    assert!(rt; read_in_threes(rt.alloc(), input, 9)? == Became::Read);
    Ok(())
}

const REPEATING: [(&[u8], bool); 9] = [
    (b"var t\nmain start t 1 0\nbegin\nfind stuck\n", false),
    (b"var t\non t start t 1 1\nbegin\nfind stuck\n", true),
    (b"var t\nclosed t repeat t 7\nbegin\nfind stuck\n", true),
    (
        b"var t\nvar i\nafter t init i idle\nmain start i\nbegin\nfind stuck\n",
        true,
    ),
    (
        b"var t\nvar i\nmain init i prepare\nmain start i\nbegin\nfind stuck\n",
        false,
    ),
    (
        b"var t\nmain start t 1 1\nbegin\nmost clock 9\nfind stuck\n",
        false,
    ),
    (
        b"var t\nmain start t 1 1\nbegin\nmay differ 1\nfind stuck\n",
        false,
    ),
    (
        b"var i\nmain init i idle\nmain start i\nbegin\nmay differ 1\nfind stuck\n",
        true,
    ),
    (
        b"var t\nmain start t 1 1\nbegin\nmost t 9\nfind stuck\n",
        false,
    ),
];

#[test]
fn a_script_that_repeats_without_a_bound_may_have_no_end(rt: HostRuntime) -> Result<(), Fail> {
    for (input, repeats) in REPEATING {
        let inquiry = Inquiry::parse(rt.alloc(), input)?;
        assert!(rt; may_never_end(&inquiry) == repeats);
    }
    Ok(())
}
