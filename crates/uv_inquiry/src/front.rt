//! The line `begin`, which cuts an input.
ghost use Rattle.std.specs.Prelude.{◌≡◌, ◌≢◌, ◌+◌, ◌<◌, [], length, IfSome, IfNone, codes, true, false};
ghost use Rattle.uv_script.specs.Lines.{lines_of};
ghost use Rattle.uv_script.specs.Grammar.{unread};
ghost use Rattle.uv_engine.specs.Input.{TakesLine};
ghost use Rattle.uv_engine.specs.Out.{Begins, NeverBegins};
ghost use Rattle.uv_engine.specs.Start.{NoScript};

use std::alloc::Global;
use uv_ids::Fault;
use uv_script::{Script, line_count};

/// A text's first line without its line feed, whether it has one, and what stands behind it.
#[derive(Drop)]
struct FirstLine<'a> {
    text: &'a [u8],
    fed: bool,
    rest: &'a [u8],
}

/// The first line of a text; none of an empty one.
fn first_line(text: &[u8]) -> Option<FirstLine<'_>>
    ensures some { IfSome result (λ line. TakesLine text.now line.text.now line.fed line.rest.now) }
    ensures shorter { IfSome result (λ line. length line.rest.now < length text.now) }
    ensures none { IfNone result (text.now ≡ []) }
{
    if text.is_empty() {
        return None;
    }
    match text.iter().position(|byte| *byte == b'\n') {
        Some(end) => Some(FirstLine {
            text: &text[..end],
            fed: true,
            rest: &text[end + 1..],
        }),
        None => Some(FirstLine {
            text,
            fed: false,
            rest: &[],
        }),
    }
}

fn is_begin(line: &[u8]) -> bool
    ensures begin { result ≡ true → line.now ≡ codes "begin" }
    ensures other { result ≡ false → line.now ≢ codes "begin" }
{
    line == b"begin".as_slice()
}

/// What stands before the line `begin`, and what stands behind it.
pub(crate) fn cut_begin(input: &[u8]) -> Option<(&[u8], &[u8])>
    ensures some { IfSome result (λ parts. Begins input.now parts.0.now parts.1.now) }
    ensures none { IfNone result (NeverBegins input.now) }
{
    let mut rest = input;
    'lines: loop {
        let Some(line) = first_line(rest) else {
            return None;
        };
        if is_begin(line.text) {
            let front = input.len() - rest.len();
            return Some((&input[..front], line.rest));
        }
        rest = line.rest;
    }
}

/// What is wrong with an input without the line `begin`: its first bad line, or the line behind its last one.
pub(crate) fn without_begin(alloc: Global, input: &[u8]) -> Fault
    ensures { NoScript unread input.now result }
{
    match Script::parse(alloc, input) {
        Ok(_) => {}
        Err(fault) => return fault,
    }
    behind_last(input)
}

fn behind_last(input: &[u8]) -> Fault
    ensures { result ≡ Fault.Script (length (lines_of input.now) + 1) }
{
    Fault::Script {
        line: line_count(input) + 1,
    }
}
