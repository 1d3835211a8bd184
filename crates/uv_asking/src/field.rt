//! The fields of a line, one after another.
ghost use Rattle.std.specs.Prelude.{◌≡◌, drop};
ghost use Rattle.uv_ids.specs.Words.{code_named, phase_named};
ghost use Rattle.uv_script.specs.Reading.{none_left, place_of};
ghost use Rattle.uv_asking.specs.Tests.{first_as, first_two, is_word, number_in, call_in, name_but_of, other_of, which_named, offer_of, came_of};

use crate::asking::{Offer, Which};
use crate::words::{call_in, came, count_from, name_but_of, number_in, offer, other_of, which};
use uv_ids::{Code, Event, Phase, Var, is};
use uv_script::{Fields, Names};

/// The next field, where it is this word.
pub(crate) fn word(text: &[u8], fields: &mut Fields<'_>) -> Option<()>
    ensures is { result ≡ first_as (is_word text.now) fields.old }
    ensures rest { fields.new ≡ drop 1 fields.old }
{
    let field = fields.next()?;
    if is(field, text) { Some(()) } else { None }
}

/// The next field, where it is a name.
pub(crate) fn name(names: &Names, fields: &mut Fields<'_>) -> Option<Var>
    ensures is { result ≡ first_as (place_of names.now) fields.old }
    ensures rest { fields.new ≡ drop 1 fields.old }
{
    let field = fields.next()?;
    names.number(field)
}

/// The next field, where it is a name that is neither of two words.
pub(crate) fn name_but(
    names: &Names,
    this: &[u8],
    that: &[u8],
    fields: &mut Fields<'_>,
) -> Option<Var>
    ensures is { result ≡ first_as (name_but_of names.now this.now that.now) fields.old }
    ensures rest { fields.new ≡ drop 1 fields.old }
{
    let field = fields.next()?;
    name_but_of(names, this, that, field)
}

/// The next field, where it is a name that isn't this one.
pub(crate) fn other_name(names: &Names, first: Var, fields: &mut Fields<'_>) -> Option<Var>
    ensures is { result ≡ first_as (other_of names.now first) fields.old }
    ensures rest { fields.new ≡ drop 1 fields.old }
{
    let field = fields.next()?;
    other_of(names, first, field)
}

/// The next field, where it is a count from this one on.
pub(crate) fn count(low: u64, fields: &mut Fields<'_>) -> Option<u32>
    ensures is { result ≡ first_as (number_in low 4294967295) fields.old }
    ensures rest { fields.new ≡ drop 1 fields.old }
{
    let field = fields.next()?;
    count_from(low, field)
}

/// The next field, where it is the number of a call.
pub(crate) fn nth(fields: &mut Fields<'_>) -> Option<u32>
    ensures is { result ≡ first_as call_in fields.old }
    ensures rest { fields.new ≡ drop 1 fields.old }
{
    let field = fields.next()?;
    call_in(field)
}

/// The next two fields, where they are an offer.
pub(crate) fn offered(names: &Names, fields: &mut Fields<'_>) -> Option<Offer>
    ensures is { result ≡ first_two (offer_of names.now) fields.old }
    ensures rest { fields.new ≡ drop 1 (drop 1 fields.old) }
{
    let what = fields.next()?;
    let argument = fields.next()?;
    offer(names, what, argument)
}

/// The next two fields, where they are an event that came, and whether it is a wait.
pub(crate) fn came_next(names: &Names, fields: &mut Fields<'_>) -> Option<(Event, bool)>
    ensures is { result ≡ first_two (came_of names.now) fields.old }
    ensures rest { fields.new ≡ drop 1 (drop 1 fields.old) }
{
    let what = fields.next()?;
    let argument = fields.next()?;
    came(names, what, argument)
}

/// The next field, where it is a number of this range.
pub(crate) fn number(low: u64, high: u64, fields: &mut Fields<'_>) -> Option<u64>
    ensures is { result ≡ first_as (number_in low high) fields.old }
    ensures rest { fields.new ≡ drop 1 fields.old }
{
    let field = fields.next()?;
    number_in(low, high, field)
}

/// The next field, where it is a word for callbacks of a name.
pub(crate) fn callbacks(fields: &mut Fields<'_>) -> Option<Which>
    ensures is { result ≡ first_as which_named fields.old }
    ensures rest { fields.new ≡ drop 1 fields.old }
{
    let field = fields.next()?;
    which(field)
}

/// The next field, where it is a code.
pub(crate) fn code(fields: &mut Fields<'_>) -> Option<Code>
    ensures is { result ≡ first_as code_named fields.old }
    ensures rest { fields.new ≡ drop 1 fields.old }
{
    let field = fields.next()?;
    Code::from_word(field)
}

/// The next field, where it is a section.
pub(crate) fn section(fields: &mut Fields<'_>) -> Option<Phase>
    ensures is { result ≡ first_as phase_named fields.old }
    ensures rest { fields.new ≡ drop 1 fields.old }
{
    let field = fields.next()?;
    Phase::from_word(field)
}

/// No field is left.
pub(crate) fn end(mut fields: Fields<'_>) -> Option<()>
    ensures { result ≡ none_left fields.entry }
{
    match fields.next() {
        None => Some(()),
        Some(_) => None,
    }
}
