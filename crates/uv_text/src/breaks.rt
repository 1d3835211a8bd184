//! The words of a break.
ghost use Rattle.std.specs.Prelude.{◌≡◌, option_map};
ghost use Rattle.uv_script.specs.Reading.{place_of};
ghost use Rattle.uv_ids.specs.Words.{code_named};
ghost use Rattle.uv_text.specs.Reading.{section_of, break_of};

use uv_ids::{Code, Phase, is};
use uv_script::Names;
use uv_session::Break;

/// A section's word, or `poll`.
fn read_section(word: &[u8]) -> Option<Break>
    ensures { result ≡ section_of word.now }
{
    if is(word, b"poll") {
        return Some(Break::Poll);
    }
    let phase = Phase::from_word(word)?;
    Some(Break::Section(phase))
}

fn read_code(word: &[u8]) -> Option<Break>
    ensures { result ≡ option_map Break.Code (code_named word.now) }
{
    let code = Code::from_word(word)?;
    Some(Break::Code(code))
}

fn read_call(names: &Names, name: &[u8]) -> Option<Break>
    ensures { result ≡ option_map Break.Call (place_of names.now name.now) }
{
    let name = names.number(name)?;
    Some(Break::Call(name))
}

/// The two fields behind `break`, where these names are declared.
pub(crate) fn read_break(names: &Names, what: &[u8], argument: &[u8]) -> Option<Break>
    ensures { result ≡ break_of names.now what.now argument.now }
{
    if is(what, b"call") {
        read_call(names, argument)
    } else if is(what, b"code") {
        read_code(argument)
    } else if is(what, b"section") {
        read_section(argument)
    } else {
        None
    }
}
