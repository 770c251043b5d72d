// The checks of the best candidate after the search, 10 and 12.
ghost use Rattle.std.specs.Prelude.{◌≡◌, ◌*◌};
ghost use Rattle.basics.specs.Words.{leb};
ghost use Rattle.refusals.specs.Refusals.{refuse, checked_number};
ghost use Rattle.candidate.specs.Candidates.{is_some};
ghost use Rattle.tables.specs.Work.{HasNode, label_of};
ghost use Rattle.readout.specs.Searching.{label_refusal};

use refusals::Refusal;
use tables::labels::Label;

// Refusal 10: whether there is a candidate, and so a label at the start node.
fn check_found(work: &[u16], start: usize) -> Result<(), Refusal>
    requires { HasNode work.now start }
    ensures { checked_number result ≡ refuse 10 (is_some (label_of work.now start)) }
{
    if !tables::labels::reached(work, start) {
        return Err(Refusal::NoCandidate);
    }
    Ok(())
}

// Refusal 12, by the label of the start node: whether an answer slice of `room` bytes has two for each pair.
fn check_answer(label: Label, room: usize) -> Result<(), Refusal>
    ensures { checked_number result ≡ refuse 12 (leb (2 * label.pairs) room) }
{
    if room / 2 < usize::from(label.pairs) {
        return Err(Refusal::Answer);
    }
    Ok(())
}

// The first of refusals 10 and 12 that the search meets, by the label of the start node, for an answer slice of `room` bytes.
pub fn check_best(work: &[u16], start: usize, room: usize) -> Result<(), Refusal>
    requires { HasNode work.now start }
    ensures { checked_number result ≡ label_refusal (label_of work.now start) room }
{
    check_found(work, start)?;
    let label = tables::labels::load(work, start);
    check_answer(label, room)
}
