// The columns of an input: the steps of all states of all machines with one output, a number each; the outputs worth trying; the endings.
#![tactic(auto)]

ghost use Rattle.std.specs.Prelude.{◌≡◌, ◌+◌, ◌*◌, ◌^◌, ◌<◌, ◌≤◌};
ghost use Rattle.basics.specs.Words.{ℕ};
ghost use Rattle.machine.specs.Part.{machine_of, state_count};
ghost use Rattle.card.specs.Card.{machines_of};
ghost use Rattle.product.specs.Nodes.{state_counts};
ghost use Rattle.tables.specs.Tables.{CountsOfSome};
ghost use Rattle.cells.specs.Cells.{places};
ghost use Rattle.columns.specs.Filling.{FirstSet, EnterPre, Entered, MachinePre, MachineFilled, FillPre, Filled};
ghost use Rattle.columns.specs.AtHand.{AtHandPre, FilledAtHand, FromPre, FromEntered, StatePre, StateFilled};
ghost use Rattle.columns.specs.Prepared.{Prepared};
ghost use Rattle.columns.specs.Endings.{EndingNumber, PartEndingsPre, PartEndings, EndingsPre, EndingsFilled};

use basics::index;
use cells::fours;
use machine::{Arc, Pair, sets};
use outputs::worth;
use tables::NO_STEP;

// The places of a column: one for each state of each machine.
pub fn width_of(counts: &[u8]) -> usize
    requires { CountsOfSome counts.now }
    ensures { (result ≡ places counts.now) × (result ≤ 40) }
{
    counts.iter().map(|count| index(*count)).sum()
}

// A step as one number.
fn step_code(to: u8, marks: u8) -> u16
    requires { (to < 32) × (marks ≤ 15) }
    ensures { result ≡ to * 16 + marks }
{
    u16::from(to) * 16 + u16::from(marks)
}

// Writes a step at each output of a set, in one place of the columns.
fn enter_step(steps: &mut [u16], width: usize, place: usize, outputs: u64, step: u16)
    requires { EnterPre steps.old width place step }
    ensures { Entered steps.old steps.new width place outputs step }
{
    let mut left = outputs;
    while left > 0 {
        let y = sets::least(left);
        steps[y * width + place] = step;
        left = sets::without_least(left);
    }
}

// Writes the step by an arc, in one place of the columns, at each pair of the input that the arc takes, by the set of the input. The outputs of those
// pairs.
fn enter_arc(steps: &mut [u16], width: usize, place: usize, arc: Arc, input: u64) -> u64
    requires { FromPre steps.old width place arc }
    ensures { (x : ℕ) → input ≡ 2 ^ x → FromEntered steps.old steps.new width place arc arc.from x result }
{
    let outputs = arc.outputs_for(input);
    enter_step(steps, width, place, outputs, step_code(arc.to, arc.marks));
    outputs
}

// Fills the places of a machine, from `first` on and blank so far, by the set of the input: the arcs from the last to the first, since the first that
// takes a pair is the step. The outputs taken from some state.
fn fill_machine(
    steps: &mut [u16],
    width: usize,
    first: usize,
    part: &[u8],
    states: usize,
    input: u64,
) -> u64
    requires { MachinePre steps.old part.now width first × (states ≡ state_count part.now) }
    ensures { (x : ℕ) → input ≡ 2 ^ x → MachineFilled (machine_of part.now) x width first steps.old steps.new result }
{
    let mut taken: u64 = 0;
    for i in (0..machine::arc_count(part)).rev() {
        let arc = machine::nth_arc(part, states, i);
        let place = first + index(arc.from);
        let outputs = enter_arc(steps, width, place, arc, input);
        taken |= outputs;
    }
    taken
}

// All outputs that make a pair with an input.
fn partners(input: u8) -> u64
    ensures { FirstSet input result }
{
    if input == Pair::EMPTY {
        sets::without_empty(u64::MAX)
    } else {
        u64::MAX
    }
}

// Fills the columns of an accepted card's machines for one input. The outputs that every machine takes from some state.
pub fn fill(steps: &mut [u16], card: &[u8], counts: &[u8], width: usize, input: u8) -> u64
    requires { FillPre card.now counts.now steps.old width input }
    ensures { Filled (machines_of card.now) input width steps.new result }
{
    let set = sets::set_of(input);
    steps.fill(NO_STEP);
    let mut taken = partners(input);
    let mut first = 0;
    for (m, &count) in counts.iter().enumerate() {
        let states = index(count);
        taken &= fill_machine(steps, width, first, card::part(card, m), states, set);
        first += states;
    }
    taken
}

// Fills a place, blank so far, with the steps of a machine from one state, by the set of the input: the arcs from the last to the first, as above. The
// outputs taken from that state. A loop beside that of `fill_machine`: one for both would lend the columns to a closure, and be no plainer.
fn fill_state(
    steps: &mut [u16],
    width: usize,
    place: usize,
    part: &[u8],
    states: usize,
    state: u8,
    input: u64,
) -> u64
    requires { StatePre steps.old part.now width place × (states ≡ state_count part.now) }
    ensures { (x : ℕ) → input ≡ 2 ^ x → StateFilled (machine_of part.now) state x width place steps.old steps.new result }
{
    let mut taken: u64 = 0;
    for i in (0..machine::arc_count(part)).rev() {
        let arc = machine::nth_arc(part, states, i);
        if arc.from == state {
            taken |= enter_arc(steps, width, place, arc, input);
        }
    }
    taken
}

// Fills the columns of an accepted card's machines for one input, from one state of each: a place for each machine. The outputs that every machine
// takes from its state.
pub fn fill_at(steps: &mut [u16], card: &[u8], counts: &[u8], states: &[u8], input: u8) -> u64
    requires { AtHandPre card.now states.now steps.old input × (counts.now ≡ state_counts (machines_of card.now)) }
    ensures { FilledAtHand (machines_of card.now) states.now input steps.new result }
{
    let width = states.len();
    let set = sets::set_of(input);
    steps.fill(NO_STEP);
    let mut taken = partners(input);
    for (m, &state) in states.iter().enumerate() {
        let count = index(counts[m]);
        taken &= fill_state(steps, width, m, card::part(card, m), count, state, set);
    }
    taken
}

// Fills the columns of an accepted card's machines for one input. The outputs worth trying: four are tried at once, so that of so few none is dropped.
pub fn prepare(steps: &mut [u16], card: &[u8], counts: &[u8], width: usize, input: u8) -> u64
    requires { FillPre card.now counts.now steps.old width input }
    ensures { Prepared (machines_of card.now) input width steps.new result }
{
    let outputs = fill(steps, card, counts, width, input);
    if fours::without_four(outputs) == 0 {
        return outputs;
    }
    worth(steps, width, outputs)
}

// A state byte as a number of a column: the marks, and no target; no step where the state is not final.
fn ending_number(byte: u8) -> u16
    ensures { EndingNumber byte result }
{
    if byte == 0 {
        NO_STEP
    } else {
        u16::from(byte) - 1
    }
}

// Writes the endings of a machine, from the place `first` on.
fn fill_part_endings(steps: &mut [u16], first: usize, part: &[u8], states: usize)
    requires { PartEndingsPre steps.old first part.now × (states ≡ state_count part.now) }
    ensures { PartEndings (machine_of part.now) first steps.old steps.new }
{
    for state in 0..states {
        steps[first + state] = ending_number(part[2 + state]);
    }
}

// Writes the endings of an accepted card's machines as column 0.
pub fn fill_endings(steps: &mut [u16], card: &[u8], counts: &[u8])
    requires { EndingsPre card.now counts.now steps.old }
    ensures { EndingsFilled (machines_of card.now) steps.old steps.new }
{
    let mut first = 0;
    for (m, &count) in counts.iter().enumerate() {
        let states = index(count);
        fill_part_endings(steps, first, card::part(card, m), states);
        first += states;
    }
}
