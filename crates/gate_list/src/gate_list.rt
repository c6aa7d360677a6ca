// Gate lists: what is asked of them, their run, and what is written of it.
ghost use Rattle.std.specs.Prelude.{◌≡◌};
ghost use Rattle.gate_list.specs.ListQuestions.{list_questions};
ghost use Rattle.gate_list.specs.Runs.{run_answer};
ghost use Rattle.gate_list.specs.Promises.{ListRun, Reported};

use crate::chain::check_chain;
use crate::questions::{check_head, check_size};
use crate::reading::{MOST_RECORDS, width};
use crate::reporting::{report_refusal, report_run};
use crate::running::Admitted;
use clifford::questions::{check_width, record_size};
use pauli::questions::check_room;
use pauli::refusal::Refusal;

// Whether a list can be run: all questions in their order, with a mark for each record.
#[tactic(auto, using(pauli::proofs::Asking::by_questions, crate::proofs::ListAdmitted::list_asks), unfolding(crate::specs::ListQuestions::list_questions, crate::specs::Inside::Reading::links_question))]
pub fn check_list(list: &[u8]) -> Result<(), Refusal>
    ensures { result ≡ list_questions list.now }
{
    check_size(list)?;
    check_width(width(list))?;
    check_head(list)?;
    let mut met = [false; MOST_RECORDS];
    check_chain(list, &mut met)
}

// The questions of a run: those of the list, and room for the record last.
#[tactic(auto, using(pauli::proofs::Asking::by_questions, crate::proofs::RunAnswers::run_asks), unfolding(crate::specs::Runs::run_answer))]
fn check_run(list: &[u8], room: usize) -> Result<(), Refusal>
    ensures { result ≡ run_answer list.now room }
{
    check_list(list)?;
    check_room(record_size(width(list)), room)
}

// The tableau of all gates on the chain, each composed on the left; the answer is their number.
#[tactic(auto, using(crate::proofs::RunAnswers::run_answers))]
pub fn run(list: &[u8], dst: &mut [u8]) -> Result<usize, Refusal>
    ensures { ListRun list.now dst.old dst.new result }
{
    check_run(list, dst.len())?;
    Ok(Admitted { list }.write_run(dst))
}

// The display text of the run, or the text of the refusal; the answer is its length.
pub fn report(list: &[u8], out: &mut [u8]) -> Result<usize, Refusal>
    ensures { Reported list.now out.old out.new result }
{
    match check_list(list) {
        Ok(()) => report_run(&Admitted { list }, out),
        Err(why) => report_refusal(why, out),
    }
}
