// The walk along the chain of a list.
ghost use Rattle.std.specs.Prelude.{◌≡◌};
ghost use Rattle.gate_list.specs.Inside.Reading.{BeforeChain, links_question};

use crate::reading::Record;
use pauli::refusal::Refusal;

// The head's link, and then the records from there on, each marked when it is met.
#[tactic(auto, using(crate::proofs::Chains::walks))]
pub(crate) fn check_chain(list: &[u8], met: &mut [bool]) -> Result<(), Refusal>
    requires { BeforeChain list.now met.old }
    ensures { result ≡ links_question list.now }
{
    Record { list, i: 0 }.check_link()?;
    // The record whose link is followed. No `for`: which record is next is known only by its link. The loop's label names the goals of its
    // proof.
    let mut at = 0;
    'chain: loop {
        let i = Record { list, i: at }.next();
        if i == 0 {
            return Ok(());
        }
        if met[i] {
            return Err(Refusal::Loop { record: i });
        }
        Record { list, i }.check()?;
        met[i] = true;
        at = i;
    }
}
