//! The forms of `find`: what may stand behind it. Each function reads the fields of its form from the first one on.
ghost use Rattle.std.specs.Prelude.{◌≡◌, ℕ, List, None, option_map};
ghost use Rattle.uv_ids.specs.declared.id.Var.{Var};
ghost use Rattle.uv_script.specs.Lines.{fields_of};
ghost use Rattle.uv_asking.specs.declared.part.Part.TheVariants.{Finds};
ghost use Rattle.uv_asking.specs.Grammar as is;
ghost use Rattle.uv_asking.specs.Tests.{reads, reads_one};

use crate::asking::Question;
use crate::field::{
    callbacks, code, count, end, name, name_but, number, other_name, section, word,
};
use crate::part::Part;
use crate::words::MOST_MS;
use uv_ids::Var;
use uv_script::{Fields, Names};

fn latest(names: &Names, mut fields: Fields<'_>) -> Option<Part>
    ensures { result ≡ reads names.now is.latest fields.entry }
{
    word(b"find", &mut fields)?;
    word(b"latest", &mut fields)?;
    let name = name(names, &mut fields)?;
    end(fields)?;
    Some(Part::Latest(name))
}

fn stuck(mut fields: Fields<'_>) -> Option<Part>
    ensures { (names : List (List ℕ)) → result ≡ reads names is.stuck fields.entry }
{
    word(b"find", &mut fields)?;
    word(b"stuck", &mut fields)?;
    end(fields)?;
    Some(Part::Finds(Question::Stuck))
}

fn call(names: &Names, mut fields: Fields<'_>) -> Option<Part>
    ensures { result ≡ reads names.now is.call fields.entry }
{
    word(b"find", &mut fields)?;
    let which = callbacks(&mut fields)?;
    let name = name(names, &mut fields)?;
    end(fields)?;
    Some(Part::Finds(Question::Call(which, name, None)))
}

fn nth_call(names: &Names, mut fields: Fields<'_>) -> Option<Part>
    ensures { result ≡ reads names.now is.nth_call fields.entry }
{
    word(b"find", &mut fields)?;
    let which = callbacks(&mut fields)?;
    let name = name_but(names, b"before", b"after", &mut fields)?;
    let number = count(1, &mut fields)?;
    end(fields)?;
    Some(Part::Finds(Question::Call(which, name, Some(number))))
}

fn late(names: &Names, mut fields: Fields<'_>) -> Option<Part>
    ensures { result ≡ reads names.now is.late fields.entry }
{
    word(b"find", &mut fields)?;
    word(b"late", &mut fields)?;
    let name = name_but(names, b"before", b"after", &mut fields)?;
    let ms = number(0, MOST_MS, &mut fields)?;
    end(fields)?;
    Some(Part::Finds(Question::Late(name, ms)))
}

fn code_alone(mut fields: Fields<'_>) -> Option<Part>
    ensures { (names : List (List ℕ)) → result ≡ reads names is.code_alone fields.entry }
{
    word(b"find", &mut fields)?;
    word(b"code", &mut fields)?;
    let code = code(&mut fields)?;
    end(fields)?;
    Some(Part::Finds(Question::Code(code, None)))
}

fn code_of(names: &Names, mut fields: Fields<'_>) -> Option<Part>
    ensures { result ≡ reads names.now is.code_of fields.entry }
{
    word(b"find", &mut fields)?;
    word(b"code", &mut fields)?;
    let code = code(&mut fields)?;
    word(b"of", &mut fields)?;
    let name = name(names, &mut fields)?;
    end(fields)?;
    Some(Part::Finds(Question::Code(code, Some(name))))
}

fn poll(mut fields: Fields<'_>) -> Option<Part>
    ensures { (names : List (List ℕ)) → result ≡ reads names is.poll fields.entry }
{
    word(b"find", &mut fields)?;
    word(b"section", &mut fields)?;
    word(b"poll", &mut fields)?;
    end(fields)?;
    Some(Part::Finds(Question::Poll))
}

fn section_begins(mut fields: Fields<'_>) -> Option<Part>
    ensures { (names : List (List ℕ)) → result ≡ reads names is.section_begins fields.entry }
{
    word(b"find", &mut fields)?;
    word(b"section", &mut fields)?;
    let phase = section(&mut fields)?;
    end(fields)?;
    Some(Part::Finds(Question::Section(phase)))
}

fn never(names: &Names, mut fields: Fields<'_>) -> Option<Part>
    ensures { result ≡ reads names.now is.never fields.entry }
{
    word(b"find", &mut fields)?;
    word(b"never", &mut fields)?;
    let name = name(names, &mut fields)?;
    end(fields)?;
    Some(Part::Finds(Question::Never(name)))
}

/// Two names with a word between them, and not one twice.
fn pair(names: &Names, between: &[u8], mut fields: Fields<'_>) -> Option<(Var, Var)>
    ensures { (q : Var → Var → Question) → option_map (λ (t : Var × Var). Finds (q t.0 t.1)) result ≡
        reads names.now (is.pair between.now q) fields.entry }
{
    word(b"find", &mut fields)?;
    let first = name(names, &mut fields)?;
    word(between, &mut fields)?;
    let second = other_name(names, first, &mut fields)?;
    end(fields)?;
    Some((first, second))
}

fn before(names: &Names, fields: Fields<'_>) -> Option<Part>
    ensures { result ≡ reads names.now is.before fields.entry }
{
    let (first, second) = pair(names, b"before", fields)?;
    Some(Part::Finds(Question::Before(first, second)))
}

fn behind(names: &Names, fields: Fields<'_>) -> Option<Part>
    ensures { result ≡ reads names.now is.behind fields.entry }
{
    let (first, second) = pair(names, b"after", fields)?;
    Some(Part::Finds(Question::Behind(first, second)))
}

/// The questions that name nothing, or a code first.
pub(crate) fn questions(names: &Names, line: &[u8]) -> Option<Part>
    ensures { result ≡ reads_one names.now None is.questions (fields_of line.now) }
{
    latest(names, Fields::of(line))
        .or(stuck(Fields::of(line)))
        .or(code_alone(Fields::of(line)))
        .or(code_of(names, Fields::of(line)))
        .or(poll(Fields::of(line)))
        .or(section_begins(Fields::of(line)))
}

/// The questions of callbacks.
pub(crate) fn calls(names: &Names, line: &[u8]) -> Option<Part>
    ensures { result ≡ reads_one names.now None is.calls (fields_of line.now) }
{
    call(names, Fields::of(line))
        .or(nth_call(names, Fields::of(line)))
        .or(late(names, Fields::of(line)))
        .or(never(names, Fields::of(line)))
        .or(before(names, Fields::of(line)))
        .or(behind(names, Fields::of(line)))
}
