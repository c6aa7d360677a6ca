// What comes of each line, and how many lines come to it.
ghost use Rattle.vectors.specs.Tallies.{Tallied};

use std::fmt;

// Why a line that is not blank is no match. Unknown: no function has the name and takes the
// arguments.
#[derive(Clone, Copy, PartialEq, Eq, Debug)]
pub enum Failure {
    Mismatch,
    Malformed,
    Unknown,
}

impl fmt::Display for Failure {
    fn fmt<W: fmt::Write>(&self, f: &mut fmt::Formatter<W>) -> fmt::Result {
        f.write_str(match self {
            Failure::Mismatch => "mismatch",
            Failure::Malformed => "malformed",
            Failure::Unknown => "unknown function",
        })
    }
}

#[derive(Clone, Copy, PartialEq, Eq, Debug)]
pub enum Outcome {
    Blank,
    Match,
    Failed(Failure),
}

// Lines, cases and mismatches so far. Each line that is not blank is a case.
#[derive(Clone, Copy, PartialEq, Eq, Default, Debug)]
pub struct Tally {
    pub lines: u64,
    pub cases: u64,
    pub mismatches: u64,
}

impl Tally {
    // Counts the next line.
    pub fn with(self, outcome: Outcome) -> Tally
        ensures { Tallied outcome self result }
    {
        let is_case = outcome != Outcome::Blank;
        let failed = matches!(outcome, Outcome::Failed(_));
        Tally {
            lines: self.lines.wrapping_add(1),
            cases: self.cases.wrapping_add(u64::from(is_case)),
            mismatches: self.mismatches.wrapping_add(u64::from(failed)),
        }
    }
}

impl fmt::Display for Tally {
    fn fmt<W: fmt::Write>(&self, f: &mut fmt::Formatter<W>) -> fmt::Result {
        let cases = self.cases;
        let mismatches = self.mismatches;
        write!(f, "{cases} cases, {mismatches} mismatches")
    }
}
