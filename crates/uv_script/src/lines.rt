//! A text as lines, and a line as fields.
ghost use Rattle.std.specs.Prelude.{◌≡◌, ◌==◌, ◌↔◌, false, All, IfNone, IfSome, IsTrue, length, ◌≤◌, option_map};
ghost use Rattle.std.specs.Iterator.{YieldsFirstRef, item_count};
ghost use Rattle.uv_script.specs.Lines.{lines_of, fields_of, rest_of, IsLine, IsSkipped, IsCut};
ghost use Rattle.uv_script.specs.Checks.{is_printable, is_line, is_skipped};

use std::marker::Model;

/// What stands before the first such byte, and what stands behind it.
fn split_once(text: &[u8], byte: u8) -> Option<(&[u8], &[u8])>
    ensures some { IfSome result (λ parts. IsCut byte text.now parts.0.now parts.1.now) }
    ensures none { IfNone result (All (λ b. (b == byte) ≡ false) text.now) }
{
    match text.iter().position(|b| *b == byte) {
        Some(end) => Some((&text[..end], &text[end + 1..])),
        None => None,
    }
}

/// The lines of a text, each without its line feed; a last one that lacks it counts too.
#[derive(Drop)]
pub struct Lines<'a> {
    rest: &'a [u8],
}

impl<'a> Model for Lines<'a> {
    ghost use Rattle.std.specs.Prelude.{List, ℕ};
    ghost use Rattle.uv_script.specs.Lines.{lines_of};

    ghost Value = { List (List ℕ) };

    ghost view = { λ lines. lines_of lines.rest.now };
}

impl<'a> Lines<'a> {
    /// The lines of this text.
    pub fn of(text: &'a [u8]) -> Lines<'a>
        ensures { result ≡ lines_of text.now }
    {
        Lines { rest: text }
    }
}

impl<'a> Iterator for Lines<'a> {
    type Item = &'a [u8];

    ghost next_gives = { YieldsFirstRef (λ lines. lines) };

    ghost remaining = { item_count (λ lines. lines) };

    fn next(&mut self) -> Option<&'a [u8]> {
        let text = self.rest;
        if text.is_empty() {
            return None;
        }
        match split_once(text, b'\n') {
            Some((line, rest)) => {
                self.rest = rest;
                Some(line)
            }
            None => {
                self.rest = &[];
                Some(text)
            }
        }
    }
}

/// How many lines a text has.
#[tactic(auto, using(crate::proofs::AfterLines::lines_few))]
pub fn line_count(text: &[u8]) -> usize
    ensures count { result ≡ length (lines_of text.now) }
    ensures few { result ≤ length text.now }
{
    Lines::of(text).count()
}

fn is_printable(byte: u8) -> bool
    ensures { result ≡ is_printable byte }
{
    matches!(byte, b' '..=b'~')
}

/// Whether a line keeps the rule of lines: at most 256 bytes, from the space to the tilde.
pub fn is_line(line: &[u8]) -> bool
    ensures rule { IsTrue result ↔ IsLine line.now }
    // The same, as the readers of lines compute it.
    ensures test { result ≡ is_line line.now }
{
    line.len() <= 256 && line.iter().all(|byte| is_printable(*byte))
}

/// Whether a line says nothing: an empty one, or one that begins with `#`.
pub fn is_skipped(line: &[u8]) -> bool
    ensures rule { IsTrue result ↔ IsSkipped line.now }
    // The same, as the readers of lines compute it.
    ensures test { result ≡ is_skipped line.now }
{
    matches!(line, [] | [b'#', ..])
}

/// The fields of a line, cut at each space.
#[derive(Drop)]
pub struct Fields<'a> {
    rest: Option<&'a [u8]>,
}

impl<'a> Model for Fields<'a> {
    ghost use Rattle.std.specs.Prelude.{List, ℕ};
    ghost use Rattle.uv_script.specs.Fields.{fields_left};

    ghost Value = { List (List ℕ) };

    ghost view = { λ fields. fields_left fields.rest };
}

impl<'a> Fields<'a> {
    /// The fields of this line; an empty line has one, which is empty.
    pub fn of(line: &'a [u8]) -> Fields<'a>
        ensures { result ≡ fields_of line.now }
    {
        Fields { rest: Some(line) }
    }

    /// The rest of the line, in which a space may stand anywhere; none where no field is left.
    pub fn rest(self) -> Option<&'a [u8]>
        ensures { option_map (λ rest. rest.now) result ≡ rest_of self.entry }
    {
        self.rest
    }
}

impl<'a> Iterator for Fields<'a> {
    type Item = &'a [u8];

    ghost next_gives = { YieldsFirstRef (λ fields. fields) };

    ghost remaining = { item_count (λ fields. fields) };

    fn next(&mut self) -> Option<&'a [u8]> {
        let line = self.rest?;
        match split_once(line, b' ') {
            Some((field, rest)) => {
                self.rest = Some(rest);
                Some(field)
            }
            None => {
                self.rest = None;
                Some(line)
            }
        }
    }
}
