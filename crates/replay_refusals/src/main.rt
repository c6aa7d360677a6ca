// Writes the lines of all refusals, as docs/REFUSALS.md lists them.
#![tactic(auto)]

use refusal_lines::refusal_line;

// The page's examples of a detail and of a width.
const DETAIL: u64 = 5;

const WIDTH: u64 = 4;

// Up to here each number from 1 is that of a refusal; the later ones have gaps. Numbers, since the page lists 0 too, which is of none.
const LAST: u64 = 19;

const FALSE_WEIGHT: u64 = 24;

const STDOUT_FILENO: i32 = 1;

// By the kit's `io`: std's standard output would assume more C functions. A write that fails is passed over: the lines after it are
// written all the same.
fn write_line(number: u64) {
    // Room for any line.
    let mut room = [0; 140];
    if let Ok(length) = refusal_line(number, DETAIL, WIDTH, &mut room) {
        io::write_all(STDOUT_FILENO, &room[..length.min(room.len())]);
    }
    io::write_all(STDOUT_FILENO, b"\n");
}

fn main() {
    for number in (0..=LAST).chain([FALSE_WEIGHT]) {
        write_line(number);
    }
}
