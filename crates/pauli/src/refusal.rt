// Refusals, and what C is told of an answer. specs/Answers.antt gives the number and the value of each case.
ghost use Rattle.std.specs.Prelude.{◌≡◌, ℕ, ◌<◌, ◌^◌};
ghost use Rattle.pauli.specs.Answers.{refusal_number, refusal_detail, no_value, number_value, one_or_zero, letter_value, gate_value, refusal_reply, reply_of};

use crate::algebra::PhasedLetter;

// A question that was answered no, with the values that its answer names: of a list's step its record, with the number of the gate's
// own question.
#[derive(Clone, Copy, Debug, PartialEq, Eq)]
pub enum Refusal {
    Width,
    Length,
    BadByte { offset: usize },
    Gate,
    Qubit { qubit: usize },
    SameQubit { qubit: usize },
    Room,
    NotAscii { offset: usize },
    NotLetter { offset: usize },
    NoIndex { offset: usize },
    NotNumeral { offset: usize },
    Duplicate { qubit: usize },
    TextQubit { offset: usize },
    ImageWidth { qubit: usize, width: usize },
    Slot { slot: usize, width: usize },
    ListLength,
    ListRecord { record: usize },
    StepGate { record: usize },
    StepQubit { record: usize },
    StepSameQubit { record: usize },
    Link { record: usize },
    Loop { record: usize },
    FalseWeight { offset: usize },
}

impl Refusal {
    #[tactic(auto, unfolding(crate::specs::Answers::refusal_number))]
    pub fn number(self) -> u64
        ensures { result ≡ refusal_number self }
    {
        match self {
            Refusal::Width => 1,
            Refusal::Length => 2,
            Refusal::BadByte { .. } => 3,
            Refusal::Gate => 4,
            Refusal::Qubit { .. } => 5,
            Refusal::SameQubit { .. } => 6,
            Refusal::Room => 7,
            Refusal::NotAscii { .. } => 8,
            Refusal::NotLetter { .. } => 9,
            Refusal::NoIndex { .. } => 10,
            Refusal::NotNumeral { .. } => 11,
            Refusal::Duplicate { .. } => 12,
            Refusal::TextQubit { .. } => 13,
            Refusal::ImageWidth { .. } => 14,
            Refusal::Slot { .. } => 15,
            Refusal::ListLength => 16,
            Refusal::ListRecord { .. } => 17,
            Refusal::StepGate { .. } => 4,
            Refusal::StepQubit { .. } => 5,
            Refusal::StepSameQubit { .. } => 6,
            Refusal::Link { .. } => 18,
            Refusal::Loop { .. } => 19,
            Refusal::FalseWeight { .. } => 24,
        }
    }

    // 0 where it has none.
    #[tactic(auto, unfolding(crate::specs::Answers::refusal_detail))]
    pub fn detail(self) -> u64
        ensures { result ≡ refusal_detail self }
    {
        let detail = match self {
            Refusal::Width
            | Refusal::Length
            | Refusal::Gate
            | Refusal::Room
            | Refusal::ListLength => 0,
            Refusal::BadByte { offset }
            | Refusal::NotAscii { offset }
            | Refusal::NotLetter { offset }
            | Refusal::NoIndex { offset }
            | Refusal::NotNumeral { offset }
            | Refusal::TextQubit { offset }
            | Refusal::FalseWeight { offset } => offset,
            Refusal::Qubit { qubit }
            | Refusal::SameQubit { qubit }
            | Refusal::Duplicate { qubit }
            | Refusal::ImageWidth { qubit, .. } => qubit,
            Refusal::Slot { slot, .. } => slot,
            Refusal::ListRecord { record }
            | Refusal::StepGate { record }
            | Refusal::StepQubit { record }
            | Refusal::StepSameQubit { record }
            | Refusal::Link { record }
            | Refusal::Loop { record } => record,
        };
        // A usize has no From into u64; `as` is proved to keep the value.
        detail as u64
    }
}

// Number 0 and the answer's value, or a refusal's number and its detail.
#[repr(C)]
#[derive(Clone, Copy, PartialEq, Eq, Debug)]
pub struct Reply {
    pub number: u64,
    pub value: u64,
}

// What an answer names, as the value that C is told. A trait of its own: `()`, usize and `Option<u8>` have no From into u64, and none can
// be written here.
pub trait Told {
    ghost value: { Self → ℕ };

    fn told(self) -> u64
        ensures { result ≡ value self };
}

impl Told for () {
    ghost value = { no_value };

    fn told(self) -> u64 {
        0
    }
}

// A phase, a letter, a gate.
impl Told for u8 {
    ghost value = { number_value };

    fn told(self) -> u64 {
        self.into()
    }
}

// A count, a length, an offset.
impl Told for usize {
    ghost value = { number_value };

    fn told(self) -> u64 {
        // As in `detail`: no From, and `as` is proved to keep the value.
        self as u64
    }
}

impl Told for bool {
    ghost value = { one_or_zero };

    fn told(self) -> u64 {
        u64::from(self)
    }
}

// A product of letters.
impl Told for PhasedLetter {
    ghost value = { letter_value };

    fn told(self) -> u64 {
        4 * u64::from(self.0) + u64::from(self.1)
    }
}

// A gate, where there is one.
impl Told for Option<u8> {
    ghost value = { gate_value };

    fn told(self) -> u64 {
        match self {
            Some(gate) => u64::from(gate),
            None => 255,
        }
    }
}

impl From<Refusal> for Reply {
    ghost from_gives = { λ r reply. reply ≡ refusal_reply r };

    #[tactic(auto, unfolding(crate::specs::Answers::refusal_reply))]
    fn from(r: Refusal) -> Reply {
        Reply {
            number: r.number(),
            value: r.detail(),
        }
    }
}

impl<T: Told + Drop> From<Result<T, Refusal>> for Reply {
    ghost from_gives = { λ r reply. reply ≡ reply_of T.value r };

    #[tactic(auto, unfolding(crate::specs::Answers::reply_of))]
    fn from(r: Result<T, Refusal>) -> Reply {
        match r {
            Ok(x) => Reply {
                number: 0,
                value: x.told(),
            },
            Err(why) => Reply::from(why),
        }
    }
}
