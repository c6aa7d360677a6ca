// Text: its bytes, words and prefix, and the numerals in it. Ports the parsers of pauli_string.rs of PECOS, changed:
// Copyright 2024 The PECOS Developers, Apache License, Version 2.0.
ghost use Rattle.std.specs.Prelude.{◌≡◌, ◌≤◌, length, slice_index};
ghost use Rattle.pauli.specs.Inside.Reading.{Skipped, PrefixRead, HeadRead, letter_if, digits_numeral, index_numeral, leading_word};
ghost use Rattle.pauli.specs.Text.{is_space, letter_named, leading_spaces, ascii_question, is_sparse};

use crate::refusal::Refusal;

// By hand: std's `is_ascii_whitespace` leaves out the vertical tab.
#[tactic(auto, unfolding(crate::specs::Text::is_space), using(std::proofs::lemmas::Bool::Decides::nat_tests))]
pub(crate) fn is_space(c: u8) -> bool
    ensures { result ≡ is_space c }
{
    matches!(c, b'\t'..=b'\r' | b' ')
}

// The byte of the letter that X, Y or Z names, either case.
#[tactic(auto, unfolding(crate::specs::Text::letter_named, crate::specs::Inside::Reading::letter_if), using(std::proofs::lemmas::Bool::Decides::nat_tests))]
pub(crate) fn letter_named(c: u8) -> Option<u8>
    ensures { result ≡ letter_if (letter_named c) }
{
    match c {
        b'X' | b'x' => Some(1),
        b'Z' | b'z' => Some(2),
        b'Y' | b'y' => Some(3),
        _ => None,
    }
}

// The place where white space from `at` on ends, and where a word does. Two functions and not one that takes the test: of a closure a
// contract knows only which answers its calls may give, so each caller would have to prove the place anew; a trait of tests would be
// longer than the two, and a const parameter, a bool, would say less than their names.
pub(crate) fn skip_spaces(t: &[u8], at: usize) -> usize
    requires { at ≤ length t.now }
    ensures { Skipped leading_spaces t.now at result }
{
    let rest = &t[at..];
    at + rest
        .iter()
        .position(|c| !is_space(*c))
        .unwrap_or(rest.len())
}

pub(crate) fn skip_word(t: &[u8], at: usize) -> usize
    requires { at ≤ length t.now }
    ensures { Skipped leading_word t.now at result }
{
    let rest = &t[at..];
    at + rest.iter().position(|c| is_space(*c)).unwrap_or(rest.len())
}

pub(crate) fn check_ascii(t: &[u8]) -> Result<(), Refusal>
    ensures { result ≡ ascii_question t.now }
{
    match t.iter().position(|c| 128 <= *c) {
        Some(offset) => Err(Refusal::NotAscii { offset }),
        None => Ok(()),
    }
}

// A phase, and where the text goes on after the prefix that gives it.
#[derive(Clone, Copy)]
pub(crate) struct Head {
    pub phase: u8,
    pub at: usize,
}

// The prefix that a text begins with.
#[tactic(auto, using(std::proofs::lemmas::Bool::Decides::nat_tests), unfolding(crate::specs::Text::prefix_phase, crate::specs::Text::prefix_length, crate::specs::Text::is_sign, crate::specs::Text::is_small_i, crate::specs::Layout::phase_byte))]
fn read_prefix(t: &[u8]) -> Head
    ensures { PrefixRead (slice_index t.now 0) (slice_index t.now 1) result }
{
    let (phase, at) = match t {
        [b'+', b'i', ..] => (2, 2),
        [b'+', ..] => (0, 1),
        [b'-', b'i', ..] => (3, 2),
        [b'-', ..] => (1, 1),
        [b'i', ..] => (2, 1),
        _ => (0, 0),
    };
    Head { phase, at }
}

// The same after the white space that a text may begin with.
pub(crate) fn read_head(t: &[u8]) -> Head
    ensures { HeadRead t.now result }
{
    let start = skip_spaces(t, 0);
    let prefix = read_prefix(&t[start..]);
    Head {
        phase: prefix.phase,
        at: start + prefix.at,
    }
}

// A text is read as sparse where it has a digit.
pub(crate) fn any_digit(t: &[u8]) -> bool
    ensures { result ≡ is_sparse t.now }
{
    t.iter().any(|c| c.is_ascii_digit())
}

// The value of digits alone. Overflow is tested, digits are not counted, so leading zeros cost nothing. Not by `parse`, of a str: the bytes
// would be gone through once more to be one, and a text of 128 tokens takes a quarter more instructions.
fn digits(ds: &[u8]) -> Option<usize>
    ensures { result ≡ digits_numeral ds.now }
{
    if ds.is_empty() {
        return None;
    }
    let mut value: usize = 0;
    for c in ds {
        if !c.is_ascii_digit() {
            return None;
        }
        value = value.checked_mul(10)?.checked_add(usize::from(*c - b'0'))?;
    }
    Some(value)
}

// An index: an optional + and then digits, below 2^64.
#[tactic(auto, using(crate::proofs::Numerals::indexes))]
pub(crate) fn read_numeral(bs: &[u8]) -> Option<usize>
    ensures { result ≡ index_numeral bs.now }
{
    match bs {
        [b'+', ds @ ..] => digits(ds),
        _ => digits(bs),
    }
}
