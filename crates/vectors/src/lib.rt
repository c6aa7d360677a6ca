// Lines of test vectors, for a program that calls a function on each and compares.
//
// A case is one line, its fields separated by one space:
//
//     NAME BYTES BYTES NUM NUM NUM BYTES = NUM NUM BYTES
//
// the function's name, two byte arguments, three numbers, the destination before the call; then the
// reply expected: its number, its value, and the destination after the call, `.` where it is as
// before. A name is lowercase letters, digits and `_`. BYTES is pairs of lowercase hex digits, or `-`
// for no bytes. A pair may be followed by `*` and how often it stands, in decimal, at least 1; a comma
// may end that count, and has to where the next pair starts with a decimal digit. NUM is decimal,
// below 2^64. A line that starts with `#` is a comment, and an empty line says nothing.
//
// The reply expected may also be `!`:
//
//     NAME BYTES BYTES NUM NUM NUM BYTES = !
//
// a text refused as bad syntax, which is number 9, 10 or 11 whatever the value, with the destination
// as before.
//
// What is not a case is answered as malformed.
#![tactic(auto)]

mod decode;
mod reading;
mod replaying;
mod replies;
mod tally;

pub use decode::{bytes, decimal};
pub use reading::{Case, Expected, FIELD_ROOM, Line, Room, Trial};
pub use replaying::replay;
pub use replies::{byte, index, told};
pub use tally::{Failure, Outcome, Tally};
