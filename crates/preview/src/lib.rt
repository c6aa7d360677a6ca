// One row of a composition, looked at before composing: X or Z on a qubit sent through the second tableau and then the first. No
// tableau is made. Nothing of it is PECOS's.
#![tactic(auto)]

ghost use Rattle.std.specs.Prelude.{◌≡◌, ◌≤◌, max, length};
ghost use Rattle.pauli.specs.Layout.{string_length};
ghost use Rattle.clifford.specs.Layout.{width_of};
ghost use Rattle.clifford.specs.Questions.{slot_question};
ghost use Rattle.preview.specs.Inside.Sending.{letter_record, LetterSent};
ghost use Rattle.preview.specs.Promises.{Previewed};

use clifford::clifford_rep::{Generator, apply};
use clifford::layout::width;
use clifford::questions::{check_slot, check_tableau, check_tableaux};
use pauli::questions::check_room;
use pauli::refusal::Refusal;
use pauli::{QUBITS, STRING_LENGTH};

// Question 15, by the larger width.
fn check_row_qubit(a: &[u8], b: &[u8], qubit: usize) -> Result<(), Refusal>
    ensures { result ≡ slot_question qubit (max (width_of a.now) (width_of b.now)) }
{
    check_slot(qubit, width(a).max(width(b)))
}

// The letter on this qubit and I on the others; I alone where a string has no such qubit.
#[tactic(auto, using(crate::proofs::Previews::one_letter))]
fn one_letter<G: Generator>(qubit: usize) -> [u8; STRING_LENGTH]
    ensures { result ≡ letter_record G.letter qubit }
{
    let mut s = [0u8; STRING_LENGTH];
    if qubit < QUBITS {
        s[qubit + 1] = G::byte();
    }
    s
}

// The letter sent through b and then a. The strings are right, so that the answers of `apply` are those to the tableaux' questions.
fn send_letter<G: Generator>(
    a: &[u8],
    b: &[u8],
    qubit: usize,
    dst: &mut [u8],
) -> Result<(), Refusal>
    requires { string_length ≤ length dst.old }
    ensures { LetterSent G.letter a.now b.now qubit dst.old dst.new result }
{
    let s = one_letter::<G>(qubit);
    let mut image = [0u8; STRING_LENGTH];
    let second = apply(b, &s, &mut image);
    match second {
        Ok(()) => apply(a, &image, dst),
        Err(_) => check_tableau(a).and(second),
    }
}

// The image of X or Z on this qubit under a composed with b: b acts first. A tableau's refusal comes before those of the qubit and the
// destination.
pub fn composed_image<G: Generator>(
    a: &[u8],
    b: &[u8],
    qubit: usize,
    dst: &mut [u8],
) -> Result<(), Refusal>
    ensures { Previewed G.letter a.now b.now qubit dst.old dst.new result }
{
    let inside = check_row_qubit(a, b, qubit);
    let rest = inside.and(check_room(STRING_LENGTH, dst.len()));
    match rest {
        Ok(()) => send_letter::<G>(a, b, qubit, dst),
        Err(_) => check_tableaux(a, b).and(rest),
    }
}
