// A program that replays vectors, in fixed memory. Of what it reads and writes no contract can say
// anything.
ghost use denote.Ref.{Bor};
ghost use Rattle.std.specs.Prelude.{ℕ, List};
ghost use Rattle.std.specs.Iterator.{Drains, IsFinite};
ghost use Rattle.vectors.specs.Replays.{Comes, Counts, InputReplayed, Matches};

use crate::reading::{Case, Expected, Line, Room, Trial};
use crate::tally::{Failure, Outcome, Tally};
use pauli::refusal::Reply;
use std::fmt;
use std::fmt::Write;

const STDIN_FILENO: i32 = 0;

const STDOUT_FILENO: i32 = 1;

// Room for all of a program's input. A function of its own, with no contract: where the length is known, the check counts to it.
fn text_room() -> [u8; 2097152] {
    [0; 2097152]
}

// Standard output, by the kit's `io`: std's own would assume more C functions. A write that fails is passed over: the lines after it are
// replayed all the same.
#[derive(Drop)]
struct Output;

impl fmt::Write for Output {
    fn write_str(&mut self, s: &str) -> fmt::Result {
        io::write_all(STDOUT_FILENO, s.as_bytes());
        Ok(())
    }
}

// Each function below asks that its call can always be made, in a clause of its own: what a closure asks stands in clauses, and a struct
// that held the call would ask the same in each of its methods.

// A malformed line too calls what its first field names, with no bytes and zeros: a replay may keep a state from line to line. What the
// call comes to counts for nothing.
fn call_malformed<F: FnMut(&mut Trial<'_, '_>) -> Option<Reply>>(line: &[u8], call: &mut F)
    requires { F.IsAlwaysCallable call.old }
    ensures { F.IsAlwaysCallable call.new }
{
    let Some(Ok(name)) = line.split(|c| *c == b' ').next().map(str::from_utf8) else {
        return;
    };
    let case = Case {
        name,
        a: &[],
        b: &[],
        n1: 0,
        n2: 0,
        n3: 0,
        expected: Expected::BadSyntax,
        after: &[],
    };
    call(&mut Trial { case, d: &mut [] });
}

// What comes of a line. It is a match only where a call of its case came to what the case expects.
fn replay_line<'a, F: FnMut(&mut Trial<'_, '_>) -> Option<Reply>>(
    line: &'a [u8],
    room: &'a mut Room,
    call: &mut F,
) -> Outcome
    requires { F.IsAlwaysCallable call.old }
    ensures callable { F.IsAlwaysCallable call.new }
    ensures comes { Comes (Matches F.step call.old call.new) line.now result }
{
    match room.read(line) {
        Line::Blank => Outcome::Blank,
        Line::Malformed => {
            call_malformed(line, call);
            Outcome::Failed(Failure::Malformed)
        }
        Line::Case(mut trial) => {
            let reply = call(&mut trial);
            trial.outcome(reply)
        }
    }
}

// Replays lines, and prints which of them fail.
#[tactic(auto, using(crate::proofs::Counting::with_line))]
fn replay_lines<'t, I: Iterator<Item = &'t [u8]>, F: FnMut(&mut Trial<'_, '_>) -> Option<Reply>>(
    lines: I,
    call: &mut F,
) -> Tally
    requires can_next { I.can_next lines × IsFinite (I.remaining lines) }
    requires callable { F.IsAlwaysCallable call.old }
    ensures { (items : List (Bor (List ℕ))) × Drains I.next_gives lines items × Counts (Matches F.step) items call.old call.new result }
{
    let mut room = Room::new();
    let mut tally = Tally::default();
    for line in lines {
        let outcome = replay_line(line, &mut room, call);
        tally = tally.with(outcome);
        if let Outcome::Failed(failure) = outcome {
            let _ = writeln!(Output, "line {}: {failure}", tally.lines);
        }
    }
    tally
}

// Replays what standard input says, with room for it, read by the kit's `io` as the output is written. An input that fills the room may
// be cut short: that is a mismatch.
fn replay_in<F: FnMut(&mut Trial<'_, '_>) -> Option<Reply>>(room: &mut [u8], call: &mut F) -> Tally
    requires { F.IsAlwaysCallable call.old }
    ensures { InputReplayed (Matches F.step) call.old call.new result }
{
    let n = io::read_full(STDIN_FILENO, room);
    let tally = replay_lines(room[..n].split(|c| *c == b'\n'), call);
    if n < room.len() {
        return tally;
    }
    let _ = writeln!(Output, "the input is too long");
    Tally {
        mismatches: tally.mismatches.wrapping_add(1),
        ..tally
    }
}

// Replays the lines of standard input: prints each that fails, with its number, and how many cases
// there were. `call` calls the function that a case names. The answer is what was counted.
pub fn replay<F: FnMut(&mut Trial<'_, '_>) -> Option<Reply>>(mut call: F) -> Tally
    requires { F.IsAlwaysCallable call }
    ensures { (last : F) × InputReplayed (Matches F.step) call last result }
{
    let tally = replay_in(&mut text_room(), &mut call);
    let _ = writeln!(Output, "{tally}");
    tally
}
