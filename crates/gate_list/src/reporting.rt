// What is written of a run: its display text, or the text of a refusal.
ghost use Rattle.pauli.specs.Inside.TextWriting.{TextWritten};
ghost use Rattle.clifford.specs.Display.{text_of_tableau};
ghost use Rattle.gate_list.specs.Reports.{refusal_text};
ghost use Rattle.gate_list.specs.Inside.Reports.{TextReported};
ghost use Rattle.gate_list.specs.Runs.{run_record};

use crate::reading::width;
use crate::running::Admitted;
use clifford::clifford_rep::display;
use clifford::layout::LONGEST_RECORD;
use clifford::questions::record_size;
use pauli::questions::check_room;
use pauli::refusal::Refusal;
use pauli::text_writer::TextWriter;

// The text of a refusal; the answer is its length.
fn write_refusal(why: Refusal, dst: &mut [u8]) -> usize
    ensures { TextWritten (refusal_text why) dst.old dst.new result }
{
    let mut writer = TextWriter::new(dst);
    writer.put_text(b"refused ");
    writer.put_decimal(why.number());
    writer.put_text(b" at ");
    writer.put_decimal(why.detail());
    writer.put_text(b"\n");
    writer.place()
}

// The text of a refusal, where there is room for it.
pub(crate) fn report_refusal(why: Refusal, out: &mut [u8]) -> Result<usize, Refusal>
    ensures { TextReported (refusal_text why) out.old out.new result }
{
    // A refusal writes nothing, so the length is found first.
    check_room(write_refusal(why, &mut []), out.len())?;
    Ok(write_refusal(why, out))
}

// The display text of the run of an admitted list, where there is room for it.
pub(crate) fn report_run(admitted: &Admitted, out: &mut [u8]) -> Result<usize, Refusal>
    ensures { TextReported (text_of_tableau (run_record admitted.now.list.now)) out.old out.new result }
{
    let mut work = [0u8; LONGEST_RECORD];
    admitted.write_run(&mut work);
    display(&work[0..record_size(width(admitted.list))], out)
}
