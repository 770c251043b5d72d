// Refusal 5: no two arcs of a state of a machine take one pair.
ghost use Rattle.std.specs.Prelude.{◌≡◌, ◌+◌, ◌<◌, ◌≤◌};
ghost use Rattle.basics.specs.Words.{true, length, pairwise};
ghost use Rattle.refusals.specs.Refusals.{refuse, checked_number};
ghost use Rattle.machine.specs.Machine.{takes, takes_from};
ghost use Rattle.machine.specs.Part.{state_count, arc_at, arcs_of, shaped, no_clash};
ghost use Rattle.part_check.specs.Clashes.{pairs_with, clash_free_from, PairsNoted, LeavesStates};

use basics::index;
use machine::{Arc, Pair, part, sets};
use refusals::Refusal;

// The inputs of a set that make a pair of a kind with an output: 0 with 0 is none.
fn pairs_with(inputs: u64, kind: u8, output: usize) -> u64
    requires { output < 64 }
    ensures { result ≡ pairs_with kind inputs output }
{
    let one = sets::set_of(output as u8);
    if output == index(Pair::EMPTY) {
        return sets::of_kind(sets::without_empty(inputs), kind, one);
    }
    sets::of_kind(inputs, kind, one)
}

// Refusal 5, the pairs of one arc: whether one of them is taken. If not, they are noted as taken: `taken` has, for each output, the
// inputs of the pairs that are taken.
fn note_pairs(taken: &mut [u64], arc: Arc) -> bool
    requires { length taken.old ≡ 64 }
    ensures { PairsNoted (takes arc) taken.old taken.new result }
{
    let inputs = arc.inputs;
    let kind = arc.kind;
    let mut left = arc.outputs;
    // No count and no iterator: it goes through the symbols of a set.
    while left > 0 {
        let y = sets::least(left);
        let pairs = pairs_with(inputs, kind, y);
        let before = taken[y];
        if before & pairs != 0 {
            return true;
        }
        taken[y] = before | pairs;
        left = sets::without_least(left);
    }
    false
}

// Refusal 5, one arc: whether it leaves the state and takes a pair that is taken. If not, its pairs from the state are noted.
fn note_arc(taken: &mut [u64], part: &[u8], at: usize, from: u8) -> bool
    requires { (length taken.old ≡ 64) × (at + 20 ≤ length part.now) }
    ensures { PairsNoted (takes_from (arc_at part.now at) from) taken.old taken.new result }
{
    if part[at] != from {
        return false;
    }
    note_pairs(taken, part::read_arc(part, at))
}

// Refusal 5, one state: no two arcs of it take one pair. The arcs are gone through from the last to the first.
fn check_state(part: &[u8], states: usize, from: u8) -> Result<(), Refusal>
    requires { (shaped part.now ≡ true) × (states ≡ state_count part.now) }
    ensures { checked_number result ≡ refuse 5 (pairwise (clash_free_from from) (arcs_of part.now)) }
{
    let mut taken = [0; 64];
    for i in (0..index(part[1])).rev() {
        if note_arc(&mut taken, part, 2 + states + 20 * i, from) {
            return Err(Refusal::Clash);
        }
    }
    Ok(())
}

// Refusal 5: no two arcs clash, if every arc leaves a state of the machine. Each state is checked for itself.
pub fn check_clashes(part: &[u8]) -> Result<(), Refusal>
    requires { (shaped part.now ≡ true) × LeavesStates part.now }
    ensures { checked_number result ≡ refuse 5 (no_clash part.now) }
{
    let states = part[0];
    let count = index(states);
    for from in 0..states {
        check_state(part, count, from)?;
    }
    Ok(())
}
