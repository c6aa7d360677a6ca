// Plays lists of calls `compose(a, record)`, refused ones among them, and checks the way back on bytes after every call. A line
// `identity` starts a list of the width of its first number, `mark` makes the record as it stands the one to come back to; the second
// number of both is the width of the identity that the product of the later steps starts from. `send` sends strings through a step's
// own tableau, and the next `send` has its answers; `back` sends strings through the record that is brought back.
#![tactic(auto)]

use clifford::layout::{LONGEST_RECORD, width};
use clifford::{clifford_rep, questions};
use pauli::STRING_LENGTH;
use pauli::refusal::{Refusal, Reply};
use pauli::rows::copy;
use vectors::{Trial, index, told};

// Room for the longest record; a record stands at its front.
#[derive(Clone, Copy)]
struct Record {
    room: [u8; LONGEST_RECORD],
}

impl Record {
    fn new() -> Record {
        Record {
            room: [0; LONGEST_RECORD],
        }
    }

    // The record's own bytes.
    fn bytes(&self) -> &[u8] {
        let room = &self.room;
        &room[..questions::record_size(width(room))]
    }

    // The bytes that a call wrote, where it was accepted.
    fn written(&self, answer: Result<(), Refusal>) -> Option<&[u8]> {
        answer.ok()?;
        Some(self.bytes())
    }
}

// Whether a composed with b is this record.
fn is_composed(a: &[u8], b: &[u8], record: &[u8]) -> bool {
    let mut out = Record::new();
    let answer = clifford_rep::compose(a, b, &mut out.room);
    out.written(answer) == Some(record)
}

// Whether the inverse undoes the product on both sides, to the identity of the product's width.
fn is_two_sided(back: &[u8], product: &[u8]) -> bool {
    let mut one = Record::new();
    let answer = clifford_rep::identity(width(product), &mut one.room);
    let Some(one) = one.written(answer) else {
        return false;
    };
    is_composed(back, product, one) && is_composed(product, back, one)
}

// Sends each string through a tableau.
fn send(t: &[u8], strings: &[u8], d: &mut [u8]) -> Option<Reply> {
    if d.len() != strings.len() {
        return None;
    }
    let images = d.chunks_mut(STRING_LENGTH);
    for (string, image) in strings.chunks(STRING_LENGTH).zip(images) {
        clifford_rep::apply(t, string, image).ok()?;
    }
    told(Ok(()))
}

// A list of calls: the record to come back to, the record as it stands, and the product of the steps from the one to the other.
#[derive(Drop)]
struct List {
    then: Record,
    now: Record,
    product: Record,
}

impl List {
    fn new() -> List {
        List {
            then: Record::new(),
            now: Record::new(),
            product: Record::new(),
        }
    }

    // The record as it stands is the one to come back to; no step has been made from it.
    fn mark(&mut self, w: usize) -> Option<Reply> {
        self.then = self.now;
        told(clifford_rep::identity(w, &mut self.product.room))
    }

    // The record of a list at its start.
    fn start(&mut self, n: usize, w: usize, d: &mut [u8]) -> Option<Reply> {
        let answer = clifford_rep::identity(n, d);
        copy(d, &mut self.now.room);
        self.mark(w);
        told(answer)
    }

    // What the call wrote is the record now, and the product has one more step on its left.
    fn step(&mut self, a: &[u8], wrote: &[u8]) -> Option<Reply> {
        copy(wrote, &mut self.now.room);
        let mut out = Record::new();
        clifford_rep::compose(a, self.product.bytes(), &mut out.room).ok()?;
        self.product = out;
        told(Ok(()))
    }

    // A call on the record: a step where it is accepted.
    fn compose(&mut self, a: &[u8], b: &[u8], d: &mut [u8]) -> Option<Reply> {
        let now = self.now.bytes();
        if b != now {
            return None;
        }
        let answer = clifford_rep::compose(a, now, d);
        match answer {
            Ok(()) => self.step(a, d),
            Err(why) => Some(Reply::from(why)),
        }
    }

    // Sends each string through the record that the inverse of the product brings back.
    fn send_back(&self, strings: &[u8], d: &mut [u8]) -> Option<Reply> {
        let mut back = Record::new();
        let answer = clifford_rep::inverse(self.product.bytes(), &mut back.room);
        let back = back.written(answer)?;
        let mut brought = Record::new();
        let answer = clifford_rep::compose(back, self.now.bytes(), &mut brought.room);
        send(brought.written(answer)?, strings, d)
    }

    // Plays the case's call.
    fn play(&mut self, trial: &mut Trial) -> Option<Reply> {
        let case = trial.case;
        let n1 = index(case.n1)?;
        let n2 = index(case.n2)?;
        match case.name {
            "compose" => self.compose(case.a, case.b, trial.d),
            "send" => send(case.a, case.b, trial.d),
            "back" => self.send_back(case.b, trial.d),
            "mark" => self.mark(n2),
            "identity" => self.start(n1, n2, trial.d),
            _ => None,
        }
    }

    // Whether the inverse of the product brings the record now back to the record then.
    fn is_back(&self) -> bool {
        let product = self.product.bytes();
        let mut back = Record::new();
        let answer = clifford_rep::inverse(product, &mut back.room);
        let Some(back) = back.written(answer) else {
            return false;
        };
        is_composed(back, self.now.bytes(), self.then.bytes())
            && is_two_sided(back, product)
            && clifford_rep::is_valid(back) == Ok(true)
    }

    // The reply of the case's call, where the way back holds after it.
    fn call(&mut self, trial: &mut Trial) -> Option<Reply> {
        let reply = self.play(trial)?;
        self.is_back().then_some(reply)
    }
}

fn main() {
    let mut list = List::new();
    vectors::replay(|trial| list.call(trial));
}
