// The run of an admitted list: each gate on the chain composed on the left of a record, in place.
ghost use Rattle.std.specs.Prelude.{◌≡◌, ◌≤◌, Ok, length};
ghost use Rattle.clifford.specs.Layout.{record_length};
ghost use Rattle.clifford.specs.Tableaux.{identity_record};
ghost use Rattle.gate_list.specs.Lists.{list_width};
ghost use Rattle.gate_list.specs.ListQuestions.{list_questions};
ghost use Rattle.clifford.specs.Playing.{letter_tables, pair_tables};
ghost use Rattle.gate_list.specs.Inside.Runs.{record_played, Ran, RunWritten};

use crate::reading::{Record, width};
use clifford::clifford_rep::identity;
use clifford::playing::play_with;
use clifford::questions::record_size;
use clifford::tables::{letter_tables, pair_tables};

// The gates' own tables, lent to each gate of a run.
#[derive(Clone, Copy)]
struct Tables<'a> {
    letters: &'a [[[u8; 4]; 2]; 24],
    pairs: &'a [[[u8; 16]; 4]; 14],
    ghost letters_own: { letters.now ≡ letter_tables },
    ghost pairs_own: { pairs.now ≡ pair_tables },
}

impl<'a> Tables<'a> {
    // The gate of a record.
    fn play(&self, step: &Record, t: &mut [u8])
        ensures { t.new ≡ record_played step.now.list.now step.now.i t.old }
    {
        let first = usize::from(step.first());
        let second = usize::from(step.second());
        play_with(self.letters, self.pairs, step.gate(), first, second, t);
    }

    // The gates on the chain, on the identity. The answer is their number.
    #[tactic(auto, using(crate::proofs::RunSteps::runs))]
    fn play_chain(&self, admitted: &Admitted, t: &mut [u8]) -> usize
        requires { t.old ≡ identity_record (list_width admitted.now.list.now) }
        ensures { Ran admitted.now.list.now t.new result }
    {
        let list = admitted.list;
        let mut steps = 0;
        let mut i = Record { list, i: 0 }.next();
        // No `for`, as in the walk of the questions. The label names the goals of the proof.
        'chain: while i != 0 {
            let record = Record { list, i };
            self.play(&record, t);
            steps += 1;
            i = record.next();
        }
        steps
    }
}

// A list that can be run.
#[derive(Clone, Copy)]
pub(crate) struct Admitted<'a> {
    pub(crate) list: &'a [u8],
    ghost asked: { list_questions list.now ≡ Ok tt },
}

impl Admitted<'_> {
    // The whole run, in the front of a destination.
    #[tactic(auto, using(crate::proofs::RunAnswers::run_writes))]
    pub(crate) fn write_run(&self, dst: &mut [u8]) -> usize
        requires { record_length (list_width self.now.list.now) ≤ length dst.old }
        ensures { RunWritten self.now.list.now dst.old dst.new result }
    {
        let n = width(self.list);
        // An admitted list has an identity of its width, and there is room for it.
        let _ = identity(n, dst);
        let letters = letter_tables();
        let pairs = pair_tables();
        let tables = Tables {
            letters: &letters,
            pairs: &pairs,
        };
        tables.play_chain(self, &mut dst[0..record_size(n)])
    }
}
