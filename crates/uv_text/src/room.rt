//! What is put behind a text that has room for it: nothing is asked for, and nothing can fail.
ghost use Rattle.std.specs.Prelude.{◌≡◌, ◌+◌, ◌≤◌, ◌++◌, length, if◌then◌else◌, codes, decimal, vec_len, vec_capacity};
ghost use Rattle.uv_script.specs.Text.{name_text};
ghost use Rattle.uv_text.specs.State.{numbered, bound_text, counts_text, flags_text};
ghost use Rattle.uv_text.specs.Trace.{id_text};

use uv_ids::{Id, Var};
use uv_records::{Calls, HandleRecord};
use uv_script::Script;

/// The most bytes of an id: two numbers of ten digits, and the point between them.
pub(crate) const ID: usize = 21;

/// Puts bytes behind a text.
#[inline(always)]
pub(crate) fn put(text: &mut Vec<u8>, bytes: &[u8])
    requires { vec_len text.old + length bytes.now ≤ vec_capacity text.old }
    ensures items { text.new.items ≡ text.old.items ++ bytes.now }
    ensures len { vec_len text.new ≡ vec_len text.old + length bytes.now }
    ensures room { vec_capacity text.old ≤ vec_capacity text.new }
{
    let Ok(()) = text.extend_from_slice(bytes) else {
        unreachable!()
    };
}

/// The most letters of a name that are put one by one: to copy these all at once costs no less.
const FEW: usize = 4;

/// Puts letters behind a text, one by one.
#[inline(always)]
fn put_each(text: &mut Vec<u8>, letters: &[u8])
    requires { vec_len text.old + length letters.now ≤ vec_capacity text.old }
    ensures items { text.new.items ≡ text.old.items ++ letters.now }
    ensures len { vec_len text.new ≡ vec_len text.old + length letters.now }
    ensures room { vec_capacity text.old ≤ vec_capacity text.new }
{
    for letter in letters {
        text.push_reserved(*letter);
    }
}

/// The letters of a name.
#[inline(always)]
pub(crate) fn letters(script: &Script, name: Var) -> &[u8]
    ensures { result.now ≡ name_text script.now.names name }
{
    match script.names().get(name) {
        Some(letters) => letters,
        None => &[],
    }
}

/// Puts a name behind a text.
#[inline(always)]
pub(crate) fn put_name(text: &mut Vec<u8>, name: &[u8])
    requires { vec_len text.old + length name.now ≤ vec_capacity text.old }
    ensures items { text.new.items ≡ text.old.items ++ name.now }
    ensures len { vec_len text.new ≡ vec_len text.old + length name.now }
    ensures room { vec_capacity text.old ≤ vec_capacity text.new }
{
    if name.len() <= FEW {
        put_each(text, name);
    } else {
        put(text, name);
    }
}

/// Puts a number behind a text, in decimal digits: those before the last one, and that.
#[tactic(auto, using(std::proofs::lemmas::Fmt::decimal_digit))]
fn put_digits(text: &mut Vec<u8>, number: u32)
    requires { vec_len text.old + length (decimal number) ≤ vec_capacity text.old }
    ensures items { text.new.items ≡ text.old.items ++ decimal number }
    ensures len { vec_len text.new ≡ vec_len text.old + length (decimal number) }
    ensures room { vec_capacity text.old ≤ vec_capacity text.new }
{
    if number < 10 {
        text.push_reserved(b'0' + number as u8);
    } else {
        put_digits(text, number / 10);
        text.push_reserved(b'0' + (number % 10) as u8);
    }
}

/// Puts a number behind a text, in decimal digits. Most have only one.
#[inline(always)]
#[tactic(auto, using(std::proofs::lemmas::Fmt::decimal_digit))]
fn put_number(text: &mut Vec<u8>, number: u32)
    requires { vec_len text.old + length (decimal number) ≤ vec_capacity text.old }
    ensures items { text.new.items ≡ text.old.items ++ decimal number }
    ensures len { vec_len text.new ≡ vec_len text.old + length (decimal number) }
    ensures room { vec_capacity text.old ≤ vec_capacity text.new }
{
    if number < 10 {
        text.push_reserved(b'0' + number as u8);
    } else {
        put_digits(text, number);
    }
}

/// Puts an id behind a text.
#[inline(always)]
pub(crate) fn put_id(text: &mut Vec<u8>, id: Id)
    requires { vec_len text.old + 21 ≤ vec_capacity text.old }
    ensures items { text.new.items ≡ text.old.items ++ id_text id }
    ensures len { vec_len text.new ≤ vec_len text.old + 21 }
    ensures room { vec_capacity text.old ≤ vec_capacity text.new }
{
    put_number(text, id.slot);
    text.push_reserved(b'.');
    put_number(text, id.generation);
}

/// Puts an id behind a text, or that there is none.
#[inline(always)]
pub(crate) fn put_bound(text: &mut Vec<u8>, id: Option<Id>)
    requires { vec_len text.old + 21 ≤ vec_capacity text.old }
    ensures items { text.new.items ≡ text.old.items ++ bound_text id }
    ensures len { vec_len text.new ≤ vec_len text.old + 21 }
    ensures room { vec_capacity text.old ≤ vec_capacity text.new }
{
    match id {
        Some(id) => put_id(text, id),
        None => put(text, b"none"),
    }
}

/// Puts a space and a number behind a text.
#[inline(always)]
fn put_count(text: &mut Vec<u8>, count: u32)
    requires { vec_len text.old + 11 ≤ vec_capacity text.old }
    ensures items { text.new.items ≡ text.old.items ++ numbered (codes " ") count }
    ensures len { vec_len text.new ≤ vec_len text.old + 11 }
    ensures room { vec_capacity text.old ≤ vec_capacity text.new }
{
    text.push_reserved(b' ');
    put_number(text, count);
}

/// Puts behind a text how often the callbacks of a name were called.
#[inline(always)]
pub(crate) fn put_counts(text: &mut Vec<u8>, counts: Calls)
    requires { vec_len text.old + 33 ≤ vec_capacity text.old }
    ensures items { text.new.items ≡ text.old.items ++ counts_text counts }
    ensures len { vec_len text.new ≤ vec_len text.old + 33 }
    ensures room { vec_capacity text.old ≤ vec_capacity text.new }
{
    put_count(text, counts.handle);
    put_count(text, counts.after);
    put_count(text, counts.close);
}

/// The digit of a flag.
#[inline(always)]
fn digit_of(flag: bool) -> u8
    ensures { result ≡ (if flag then 49 else 48) }
{
    if flag { b'1' } else { b'0' }
}

/// Puts the flags of a handle behind a text.
#[inline(always)]
pub(crate) fn put_flags(text: &mut Vec<u8>, handle: &HandleRecord)
    requires { vec_len text.old + 25 ≤ vec_capacity text.old }
    ensures items { text.new.items ≡ text.old.items ++ flags_text handle.now }
    ensures len { vec_len text.new ≡ vec_len text.old + 25 }
    ensures room { vec_capacity text.old ≤ vec_capacity text.new }
{
    let referenced = digit_of(handle.referenced);
    let active = digit_of(handle.active);
    let closing = digit_of(handle.closing);
    put(text, &[b' ', b'r', b'e', b'f', b' ', referenced]);
    put(
        text,
        &[b' ', b'a', b'c', b't', b'i', b'v', b'e', b' ', active],
    );
    put(
        text,
        &[
            b' ', b'c', b'l', b'o', b's', b'i', b'n', b'g', b' ', closing,
        ],
    );
}
