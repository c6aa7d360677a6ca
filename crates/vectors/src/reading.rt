// One line as a case.
ghost use Rattle.std.specs.Prelude.{◌≡◌, ◌≢◌, ◌↔◌, IsTrue, IfSome};
ghost use Rattle.vectors.specs.Lines.{CaseFits, CaseOf, Empty, IsBlank, IsName, LineFits, LineSays};
ghost use Rattle.vectors.specs.Verdicts.{Expects, IsMatch};

use crate::decode::{bytes, decimal};
use crate::tally::{Failure, Outcome};
use pauli::refusal::Reply;

// The reply that a line expects: its number and its value, or, for `!`, a refusal of bad syntax,
// which is number 9, 10 or 11, whatever its value.
#[derive(Clone, Copy, PartialEq, Eq, Debug)]
pub enum Expected {
    Exactly(Reply),
    BadSyntax,
}

impl Expected {
    pub fn admits(self, reply: Reply) -> bool
        ensures { IsTrue result ↔ Expects self reply }
    {
        match self {
            Expected::Exactly(due) => reply == due,
            // By numbers: a reply has them, and no refusal.
            Expected::BadSyntax => matches!(reply.number, 9..=11),
        }
    }
}

// A call and what it should come to: the function's name, its arguments but for the destination, the
// reply, and the bytes of the destination after the call.
#[derive(Clone, Copy)]
pub struct Case<'a> {
    pub name: &'a str,
    pub a: &'a [u8],
    pub b: &'a [u8],
    pub n1: u64,
    pub n2: u64,
    pub n3: u64,
    pub expected: Expected,
    pub after: &'a [u8],
}

// A case with the destination of its call. Apart from the case, which is copied.
#[derive(Drop)]
pub struct Trial<'a, 'd> {
    pub case: Case<'a>,
    pub d: &'d mut [u8],
}

impl Trial<'_, '_> {
    // What comes of the call, once it is made. No reply: no function has the name and takes the
    // arguments. The destination is compared whole, since bytes that should be as before count too.
    pub fn outcome(&self, reply: Option<Reply>) -> Outcome
        ensures case { result ≢ Outcome.Blank }
        ensures matched { (result ≡ Outcome.Match) ↔ IsMatch self.now reply }
    {
        let Some(reply) = reply else {
            return Outcome::Failed(Failure::Unknown);
        };
        if self.case.expected.admits(reply) && *self.d == *self.case.after {
            Outcome::Match
        } else {
            Outcome::Failed(Failure::Mismatch)
        }
    }
}

#[derive(Drop)]
pub enum Line<'a, 'd> {
    Blank,
    Malformed,
    Case(Trial<'a, 'd>),
}

// How many bytes a field may spell.
pub const FIELD_ROOM: usize = 65536;

// Room for the bytes of a line: the two arguments, and the destination before and after the call.
// What it holds is seen only in a case that is read.
#[derive(Drop)]
pub struct Room {
    a: [u8; FIELD_ROOM],
    b: [u8; FIELD_ROOM],
    d: [u8; FIELD_ROOM],
    after: [u8; FIELD_ROOM],
}

fn is_name(s: &str) -> bool
    ensures { IsTrue result ↔ IsName s.now }
{
    !s.is_empty()
        && s.bytes()
            .all(|c| matches!(c, b'a'..=b'z' | b'0'..=b'9' | b'_'))
}

impl Room {
    #[tactic(auto, using(crate::proofs::Rooms::empty_zeros))]
    pub fn new() -> Room
        ensures { Empty result }
    {
        Room {
            a: [0; FIELD_ROOM],
            b: [0; FIELD_ROOM],
            d: [0; FIELD_ROOM],
            after: [0; FIELD_ROOM],
        }
    }

    // Reads a line. A case's bytes are then in this room. What bytes a field spells, which reply a
    // line expects, and so which lines are malformed, is tested and not promised.
    pub fn read<'a>(&'a mut self, line: &'a [u8]) -> Line<'a, 'a>
        ensures blank { (result ≡ Line.Blank) ↔ IsBlank line.now }
        ensures fits { LineFits result }
        ensures says { LineSays line.now result }
    {
        match line {
            [] | [b'#', ..] => Line::Blank,
            _ => self.read_case(line).map_or(Line::Malformed, Line::Case),
        }
    }

    fn read_case<'a>(&'a mut self, line: &'a [u8]) -> Option<Trial<'a, 'a>>
        ensures fits { IfSome result (λ k. CaseFits k) }
        ensures says { IfSome result (λ k. CaseOf line.now k.case) }
    {
        let Room { a, b, d, after } = self;
        let mut fields = line.split(|c| *c == b' ');
        let name = str::from_utf8(fields.next()?).ok()?;
        if !is_name(name) {
            return None;
        }
        let a = bytes(fields.next()?, a)?;
        let b = bytes(fields.next()?, b)?;
        let n1 = decimal(fields.next()?)?;
        let n2 = decimal(fields.next()?)?;
        let n3 = decimal(fields.next()?)?;
        let before = fields.next()?;
        let b"=" = fields.next()? else {
            return None;
        };
        let (expected, due) = match fields.next()? {
            b"!" => (Expected::BadSyntax, before),
            number => {
                let reply = Reply {
                    number: decimal(number)?,
                    value: decimal(fields.next()?)?,
                };
                let due = match fields.next()? {
                    b"." => before,
                    written => written,
                };
                (Expected::Exactly(reply), due)
            }
        };
        if fields.next().is_some() {
            return None;
        }
        let d = bytes(before, d)?;
        let case = Case {
            name,
            a,
            b,
            n1,
            n2,
            n3,
            expected,
            after: bytes(due, after)?,
        };
        Some(Trial { case, d })
    }
}
