//! Each call once, at a number and at a record with an enum inside.
ghost use Rattle.std.specs.Prelude.{◌≡◌};

use std::test::Fail;
use uv_raw::{Pieces, RawRow};

#[derive(Clone, Copy, PartialEq, Eq)]
enum Content {
    Empty,
    Handle { var: u32, due: u64, repeat: u64 },
    Request { text: [u8; 24], rounds: u16 },
}

#[derive(Clone, Copy, PartialEq, Eq)]
struct Record {
    generation: u32,
    list: Option<u8>,
    before: Option<u32>,
    after: Option<u32>,
    content: Content,
}

fn make_record(generation: u32, content: Content) -> Record
    ensures { (result.generation ≡ generation) × (result.content ≡ content) }
{
    Record {
        generation,
        list: None,
        before: Some(3),
        after: None,
        content,
    }
}

#[test]
fn keeps_numbers(rt: HostRuntime) -> Result<(), Fail> {
    let mut block = RawRow::new(rt.alloc(), 2)?;
    assert!(rt; block.capacity() == 2);
    block.push(7u64);
    block.push(8);
    assert!(rt; block.len() == 2);
    assert!(rt; block.set(0, 9) == 7);
    assert!(rt; block.get(0) == 9);
    assert!(rt; block.pop() == 8);
    block.push(10);
    assert!(rt; block.get(1) == 10);
    Ok(())
}

#[test]
fn keeps_records(rt: HostRuntime) -> Result<(), Fail> {
    let handle = make_record(
        1,
        Content::Handle {
            var: 2,
            due: 3,
            repeat: 4,
        },
    );
    let request = make_record(
        2,
        Content::Request {
            text: [5; 24],
            rounds: 6,
        },
    );
    let mut block = RawRow::new(rt.alloc(), 3)?;
    block.push(handle);
    block.push(request);
    block.push(make_record(3, Content::Empty));
    assert!(rt; block.set(2, handle) == make_record(3, Content::Empty));
    assert!(rt; block.get(1) == request);
    assert!(rt; block.pop() == handle);
    Ok(())
}

#[test]
fn refuses_too_much(rt: HostRuntime) {
    assert!(rt; RawRow::<u64>::new(rt.alloc(), 1 << 60).is_err());
}

/// Adds an item, where there may be one more.
fn add(pieces: &mut Pieces<u64>, item: u64) -> bool {
    if pieces.len() >= pieces.capacity() || pieces.reserve().is_err() {
        return false;
    }
    pieces.push(item);
    true
}

fn at(pieces: &Pieces<u64>, index: usize) -> Option<u64> {
    if index < pieces.len() {
        Some(pieces.get(index))
    } else {
        None
    }
}

/// Writes an item where there is one, and reads the old one.
fn put(pieces: &mut Pieces<u64>, index: usize, item: u64) -> Option<u64> {
    if index < pieces.len() {
        Some(pieces.set(index, item))
    } else {
        None
    }
}

fn take(pieces: &mut Pieces<u64>) -> Option<u64> {
    if pieces.len() > 0 {
        Some(pieces.pop())
    } else {
        None
    }
}

/// Whether a row gets its 1,025th item and no further one, and that is taken off and put on again.
fn crosses(pieces: &mut Pieces<u64>) -> bool {
    !pieces.has_room()
        && add(pieces, 1024)
        && !add(pieces, 1025)
        && at(pieces, 0) == Some(0)
        && at(pieces, 1023) == Some(1023)
        && put(pieces, 1024, 7) == Some(1024)
        && at(pieces, 1024) == Some(7)
        && at(pieces, 0) == Some(0)
        && take(pieces) == Some(7)
        && pieces.has_room()
        && add(pieces, 8)
        && at(pieces, 1024) == Some(8)
}

#[test]
fn goes_on_in_the_next_piece(rt: HostRuntime) -> Result<(), Fail> {
    let mut pieces = Pieces::new(rt.alloc(), 1025)?;
    assert!(rt; !pieces.has_room() && take(&mut pieces).is_none());
    for item in 0u64..1024 {
        assert!(rt; add(&mut pieces, item));
    }
    assert!(rt; crosses(&mut pieces));
    Ok(())
}
