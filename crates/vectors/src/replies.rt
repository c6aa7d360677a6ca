// The numbers that a call takes from its case, and the reply that it makes.
ghost use Rattle.std.specs.Prelude.{◌≡◌, ◌<◌, ◌^◌, Some};
ghost use Rattle.std.specs.Option.{SomeIff};
ghost use Rattle.pauli.specs.Answers.{reply_of};

use pauli::refusal::{Refusal, Reply, Told};

// What a function of the library answers, as a case has it. `Some` stands here once, and not in
// each arm of a replay's `match`: an arm may have no reply.
pub fn told<T: Told + Drop>(answer: Result<T, Refusal>) -> Option<Reply>
    ensures { result ≡ Some (reply_of T.value answer) }
{
    Some(Reply::from(answer))
}

// A number as a byte: no function takes a wider one. Not one function with the next, of any type: its contract could say what that
// type's `try_from` gives, and name no number.
pub fn byte(n: u64) -> Option<u8>
    ensures { SomeIff result (n < 2 ^ 8) n }
{
    u8::try_from(n).ok()
}

// A number as an index or a width.
pub fn index(n: u64) -> Option<usize>
    ensures { SomeIff result (n < 2 ^ 64) n }
{
    usize::try_from(n).ok()
}
