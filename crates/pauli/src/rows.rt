// Kernels on rows of letter bytes. They stop at the shortest row and read a byte above 3 as 3, so they ask nothing of a caller. A letter
// is a byte and no type, and a qubit a place in a row: rows are lent, and a row of a type would have to be a copy.
#![tactic(auto, using(crate::proofs::Turns::places))]

ghost use Rattle.std.specs.Prelude.{◌≡◌, ◌%◌, ◌<◌, ◌≤◌, length};
ghost use Rattle.std.specs.Option.{SomeIff};
ghost use Rattle.pauli_group.specs.Phase.{◌·◌};
ghost use Rattle.pauli_group.specs.Letter.{letter_mul};
ghost use Rattle.pauli_group.specs.Papers.{power};
ghost use Rattle.pauli.specs.Layout.{phase_byte, phase_of, letter_byte, letter_of};
ghost use Rattle.pauli.specs.Questions.{first_bad};
ghost use Rattle.pauli.specs.Rows.{phase_bytes_product, places_of, letter_count, largest_to, Scanned, shorter, RowTimes, row_product, copied};
ghost use Rattle.pauli.specs.Inside.Turns.{LetterByte, LetterBytes, ForY, LetterTurns, PhaseTurns, anticommuting, lettered, scanned_with};

// A letter byte; a byte above 3 is read as 3.
fn letter_byte(x: u8) -> u8
    ensures { LetterByte x result }
{
    x.min(3)
}

// k for the byte of Y, else 0.
fn for_y(x: u8, k: u8) -> u8
    requires { x ≤ 3 }
    ensures { ForY k x result }
{
    if x == 3 { k } else { 0 }
}

// The letter of a product of two letters: the bits of X and of Z are added.
fn times_letter(a: u8, b: u8) -> u8
    ensures { result ≡ letter_byte (letter_mul (letter_of a) (letter_of b)) }
{
    letter_byte(a) ^ letter_byte(b)
}

// Its phase in quarter turns: one for each factor Y, three for a product Y, two for a Z that passes an X.
pub(crate) fn letter_turns(x: u8, y: u8) -> u8
    requires { LetterBytes x y }
    ensures { LetterTurns x y result }
{
    let own = for_y(x, 1) + for_y(y, 1) + for_y(x ^ y, 3);
    own + (x & (y + y))
}

// The same of any two bytes.
fn times_turns(a: u8, b: u8) -> u8
    ensures { LetterTurns a b result }
{
    letter_turns(letter_byte(a), letter_byte(b))
}

#[tactic(auto, unfolding(pauli_group::specs::Papers::power, pauli_group::specs::Phase::turn, crate::specs::Layout::phase_of))]
fn phase_turns(p: u8) -> u8
    ensures { PhaseTurns p result }
{
    match p {
        0 => 0,
        1 => 2,
        2 => 1,
        _ => 3,
    }
}

#[tactic(auto, unfolding(pauli_group::specs::Papers::power, pauli_group::specs::Phase::turn, crate::specs::Layout::phase_byte), using(crate::proofs::Turns::turn_key))]
fn turns_phase(t: u8) -> u8
    ensures { result ≡ phase_byte (power t) }
{
    match t % 4 {
        0 => 0,
        1 => 2,
        2 => 1,
        _ => 3,
    }
}

// The product of two phases.
pub fn phase_times(a: u8, b: u8) -> u8
    ensures { result ≡ phase_bytes_product a b }
{
    turns_phase(phase_turns(a).wrapping_add(phase_turns(b)))
}

// The product of two phases and of quarter turns.
pub(crate) fn turned_phase(a: u8, b: u8, turns: u8) -> u8
    ensures { result ≡ phase_byte (phase_of a · phase_of b · power turns) }
{
    let own = phase_turns(a).wrapping_add(phase_turns(b));
    turns_phase(own.wrapping_add(turns))
}

// The row acc multiplied by the row b on the right, as far as both reach; the answer is phase times the places' phases.
// The turns are summed in a byte: it wraps at 256, a multiple of 4. No zip: of what is written through a zip of `iter_mut` a proof knows
// the length alone.
pub fn multiply_letters(acc: &mut [u8], b: &[u8], phase: u8) -> u8
    ensures { RowTimes acc.old b.now phase acc.new result }
{
    let n = acc.len().min(b.len());
    let mut turns = phase_turns(phase);
    for (i, x) in acc[..n].iter_mut().enumerate() {
        turns = turns.wrapping_add(times_turns(*x, b[i]));
        *x = times_letter(*x, b[i]);
    }
    turns_phase(turns)
}

// The row, a phase and letters, multiplied by the row t on the right, in place.
#[tactic(auto, using(crate::proofs::StringProducts::row_products))]
pub fn multiply_row(row: &mut [u8], t: &[u8])
    ensures { row.new ≡ row_product row.old t.now }
{
    if row.is_empty() || t.is_empty() {
        return;
    }
    let p = phase_times(row[0], t[0]);
    let phase = multiply_letters(&mut row[1..], &t[1..], p);
    row[0] = phase;
}

// 1 where two letters anticommute, else 0: they are counted in a byte.
fn letters_anticommute(a: u8, b: u8) -> u8
    ensures { result ≡ anticommuting a b }
{
    let x = letter_byte(a);
    let y = letter_byte(b);
    ((x & (y + y)) ^ (y & (x + x))) / 2
}

// The number of places, of those that both rows have, at which the letters anticommute, modulo 256.
#[tactic(auto, using(crate::proofs::RowProducts::counts), unfolding(pauli_group::specs::PauliString::count_to))]
pub fn count_anticommuting(a: &[u8], b: &[u8]) -> u8
    ensures { result ≡ places_of (shorter a.now b.now) a.now b.now % 256 }
{
    let mut count: u8 = 0;
    for (x, y) in a.iter().zip(b) {
        count = count.wrapping_add(letters_anticommute(*x, *y));
    }
    count
}

// 1 for a letter other than I, else 0: they are counted in a byte.
#[tactic(auto, unfolding(crate::specs::Inside::Turns::lettered), using(crate::proofs::Turns::places))]
fn is_letter(x: u8) -> u8
    ensures { result ≡ lettered x }
{
    u8::from(x != 0)
}

// The number of letters other than I, modulo 256.
#[tactic(auto, using(crate::proofs::RowProducts::counts), unfolding(pauli_group::specs::PauliString::count_to))]
pub fn count_letters(s: &[u8]) -> u8
    ensures { result ≡ letter_count s.now % 256 }
{
    let mut count: u8 = 0;
    for x in s {
        count = count.wrapping_add(is_letter(*x));
    }
    count
}

// The largest byte, 0 where there is none.
#[tactic(auto, using(crate::proofs::Asking::by_tests, crate::proofs::Asking::by_questions), unfolding(crate::specs::Rows::largest_to))]
fn largest(s: &[u8]) -> u8
    ensures { result ≡ largest_to (length s.now) s.now }
{
    let mut most: u8 = 0;
    for x in s {
        most = most.max(*x);
    }
    most
}

// What one pass over a row of letters sees.
#[derive(Clone, Copy)]
pub struct LetterScan {
    pub largest: u8,
    pub letters: u8,
}

// What is seen with one more byte.
#[tactic(auto, using(crate::proofs::Asking::by_tests, crate::proofs::Asking::by_questions), unfolding(crate::specs::Inside::Turns::scanned_with))]
fn scan_one(seen: LetterScan, x: u8) -> LetterScan
    ensures { result ≡ scanned_with seen x }
{
    LetterScan {
        largest: seen.largest.max(x),
        letters: seen.letters.wrapping_add(is_letter(x)),
    }
}

// The largest byte, 0 where there is none, and the number of letters other than I, modulo 256, in one pass.
#[tactic(auto, using(crate::proofs::RowProducts::counts), unfolding(crate::specs::Inside::Turns::scanned_with, crate::specs::Rows::largest_to, pauli_group::specs::PauliString::count_to))]
pub fn scan_letters(s: &[u8]) -> LetterScan
    ensures { Scanned s.now result }
{
    let mut seen = LetterScan {
        largest: 0,
        letters: 0,
    };
    for x in s {
        seen = scan_one(seen, *x);
    }
    seen
}

// The first offset with a byte above 3. The largest byte is found sixteen bytes at a time, so it is asked first.
pub fn first_bad(s: &[u8]) -> Option<usize>
    ensures { SomeIff result (first_bad s.now < length s.now) (first_bad s.now) }
{
    if largest(s) < 4 {
        return None;
    }
    s.iter().position(|x| 3 < *x)
}

// src copied to the front of dst, as far as both reach. By place: `copy_from_slice` takes equal lengths only, and where the two may lie
// anywhere it calls memmove, which the C interface does not ask of whoever links it.
#[tactic(auto, using(crate::proofs::Places::fills), unfolding(crate::specs::Rows::copied))]
pub fn copy(src: &[u8], dst: &mut [u8])
    ensures { dst.new ≡ copied src.now dst.old }
{
    let n = src.len().min(dst.len());
    for i in 0..n {
        dst[i] = src[i];
    }
}
