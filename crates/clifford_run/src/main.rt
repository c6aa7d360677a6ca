// Reads a gate list from standard input and writes the tableau of its run, or its refusal. No contract can say what is read or
// written: what is handed to `write` is said by the contracts of the functions on slices.
#![tactic(auto)]

ghost use Rattle.std.specs.Prelude.{length, take};
ghost use Rattle.clifford_run.specs.Inside.Program.{Buffers, InputRead, ReportRoom, ReportWritten, Owed};

use gate_list::gate_list::report;
use std::io;
use std::io::{Read, Write};

// One byte more than the longest list has, so that a longer input is seen to be one.
const INPUT_MOST: usize = 24577;

// Room for any report (`report-most`).
const REPORT_MOST: usize = 138557;

// Reads until the input ends or the buffer is full; the answer is how many bytes were read. No method of `Read` does this without a heap:
// `read_exact` refuses an input that ends before.
fn read_input<R: Read>(from: &mut R, input: &mut [u8]) -> io::Result<usize>
    ensures { InputRead input.old input.new result }
{
    let mut done = 0;
    while done < input.len() {
        let more = from.read(&mut input[done..])?;
        if more == 0 {
            break;
        }
        done += more;
    }
    Ok(done)
}

// The report of a list at the front of the text; the answer is its length. There is room for any report, so none is refused.
fn make_report(list: &[u8], text: &mut [u8]) -> usize
    requires { ReportRoom text.old }
    ensures { ReportWritten list.now text.old text.new result }
{
    report(list, text).unwrap_or(0)
}

// Writes the text that is owed to the first n bytes of the input. Where that fails and the error cannot be written either, nobody can
// be told. The buffer is handed on whole, since what is owed goes by its length.
fn write_report<W: Write, E: Write>(
    output: &mut W,
    errors: &mut E,
    input: &[u8],
    n: usize,
    text: &[u8],
)
    requires { Owed (length input.now) (take n input.now) text.now }
{
    if output.write_all(text).is_err() {
        let _ = errors.write_all(b"clifford_run: standard output cannot be written\n");
    }
}

#[tactic(auto, using(crate::proofs::ProgramTexts::owings))]
fn answer_input<R: Read, W: Write, E: Write>(
    from: &mut R,
    output: &mut W,
    errors: &mut E,
    input: &mut [u8],
    text: &mut [u8],
)
    requires { Buffers input.old text.old }
{
    let Ok(n) = read_input(from, input) else {
        let _ = errors.write_all(b"clifford_run: standard input cannot be read\n");
        return;
    };
    let length = make_report(&input[..n], text);
    write_report(output, errors, input, n, &text[..length]);
}

fn main(rt: HostRuntime) {
    let mut input = [0u8; INPUT_MOST];
    let mut text = [0u8; REPORT_MOST];
    answer_input(
        &mut rt.stdin(),
        &mut rt.stdout(),
        &mut rt.stderr(),
        &mut input,
        &mut text,
    );
}
