// The walk from the start along the labels, which writes the pairs of the best candidate and adds up their marks. Labels are two numbers, as they
// are for every order.
#![tactic(auto)]

ghost use Rattle.std.specs.Prelude.{◌≡◌, ◌||◌, ◌*◌, ◌<◌, ◌≤◌};
ghost use Rattle.basics.specs.Words.{ℕ, length, get_or, eqb, member};
ghost use Rattle.machine.specs.Symbols.{empty_symbol};
ghost use Rattle.paths.specs.Costs.{Labels};
ghost use Rattle.paths.specs.Ranked.{ranked_costs};
ghost use Rattle.cells.specs.Cells.{places};
ghost use Rattle.walk.specs.WalkLabels.{WalkLabels, WalkPre};
ghost use Rattle.walk.specs.Walked.{Walked};

use cells::Cell;
use machine::{Pair, Position, sets};
use ranking::Profile;

// What is written: the number of pairs, and their profile.
#[derive(Clone, Copy)]
pub struct Written {
    pub pairs: usize,
    pub profile: Profile,
}

// The numbers in the columns of the insertions: 65 a state, of which there are 21 at most where a position has at most 16 codes, and 40 at most in all.
const FEW_STEPS: usize = 65 * 21;

const ALL_STEPS: usize = 65 * 40;

// The inputs of the pairs at a position: the empty symbol, and the symbols of the set there.
fn inputs_at(sets: &[u64], position: usize) -> u64
    ensures { (x : ℕ) → member result x ≡ (eqb x empty_symbol || member (get_or sets.now position 0) x) }
{
    machine::sets::EMPTY | sets.get(position).copied().unwrap_or(0)
}

// Walks with a slice for the columns of the insertions, whose length is just enough: it is cleared first. At each node the least pair that keeps to the
// labels is found input by input, and output by output. The node that is reached is its position, the code of its states, the states, its label, the
// number of pairs written and the marks passed: variables and arrays that change in place, since a struct would be copied at each node.
fn walk_by(
    ranked: &[u16],
    sums: &[u64],
    card: &[u8],
    counts: &[u8],
    weights: &[u64],
    sets: &[u64],
    size: usize,
    insertions: &mut [u16],
    answer: &mut [u8],
) -> Written
    requires { WalkPre ranked.now sums.now card.now counts.now weights.now sets.now size (length answer.old) × (65 * places counts.now ≤ length insertions.old) }
    ensures { (L : Labels (ranked_costs 1)) → WalkLabels ranked.now sums.now card.now counts.now weights.now sets.now (length answer.old) L → Walked card.now weights.now sets.now answer.old answer.new L result }
{
    let machines = counts.len();
    let width = columns::width_of(counts);
    let kept = columns::prepare(insertions, card, counts, width, Pair::EMPTY);
    let hand = [0u8, 1, 2, 3, 4, 5];
    let state = Position::start().state;
    let mut code = tables::start_node(counts);
    let label = tight::label_at(ranked, sums, code);
    let mut high = label.high;
    let mut low = label.low;
    let mut steps = [65535u16; 390];
    let mut states = [state; 6];
    let mut marks = Profile::zero().counts;
    let mut position = 0;
    let mut written = 0;
    let pairs = loop {
        if low % 65536 == 0 {
            break written;
        }
        let mut places = [0u8; 6];
        passing::places_of(&mut places, &states, counts);
        let mut left = inputs_at(sets, position);
        position = 'least: loop {
            let input = sets::least(left) as u8;
            // Two branches alike: a choice between two slices is a form that the borrow checker does not cover (docs/DECISIONS.md, 37).
            if input == Pair::EMPTY {
                if let Some(least) = tight::least_tight(
                    Cell { high, low },
                    ranked,
                    sums,
                    position * size,
                    insertions,
                    width,
                    kept,
                    &places[..machines],
                    weights,
                ) {
                    passing::go_on(
                        &mut states,
                        &mut marks,
                        insertions,
                        width,
                        &places[..machines],
                        input,
                        least.output,
                        written,
                        answer,
                    );
                    code = least.code;
                    high = least.high;
                    low = least.low;
                    written += 1;
                    break 'least position;
                }
            } else {
                let next = position + 1;
                let outputs = columns::fill_at(
                    &mut steps,
                    card,
                    counts,
                    &states[..machines],
                    input,
                );
                if let Some(least) = tight::least_tight(
                    Cell { high, low },
                    ranked,
                    sums,
                    next * size,
                    &steps,
                    machines,
                    outputs,
                    &hand[..machines],
                    weights,
                ) {
                    passing::go_on(
                        &mut states,
                        &mut marks,
                        &steps,
                        machines,
                        &hand[..machines],
                        input,
                        least.output,
                        written,
                        answer,
                    );
                    code = least.code;
                    high = least.high;
                    low = least.low;
                    written += 1;
                    break 'least next;
                }
            }
            left = sets::without_least(left);
        };
    };
    let passed = Profile { counts: marks };
    let profile = passing::with_ending(passed, card, &states[..machines]);
    Written { pairs, profile }
}

// Walks with an array for the columns of the insertions, of which `room` numbers are used.
fn walk_sized<const ROOM: usize>(
    ranked: &[u16],
    sums: &[u64],
    card: &[u8],
    counts: &[u8],
    weights: &[u64],
    sets: &[u64],
    size: usize,
    room: usize,
    answer: &mut [u8],
) -> Written
    requires { WalkPre ranked.now sums.now card.now counts.now weights.now sets.now size (length answer.old) × (room ≡ 65 * places counts.now) × (room ≤ ROOM) × (ROOM ≤ ALL_STEPS) }
    ensures { (L : Labels (ranked_costs 1)) → WalkLabels ranked.now sums.now card.now counts.now weights.now sets.now (length answer.old) L → Walked card.now weights.now sets.now answer.old answer.new L result }
{
    let mut insertions = [65535u16; ROOM];
    walk_by(
        ranked,
        sums,
        card,
        counts,
        weights,
        sets,
        size,
        &mut insertions[..room],
        answer,
    )
}

// Writes the pairs of the best candidate into the front of the answer. The labels of all nodes, of which there are size to a position, are in one of two
// slices: by counts, or by sums. Few codes take a small array for the columns, since it has to be written whole when it is made.
pub fn walk(
    ranked: &[u16],
    sums: &[u64],
    card: &[u8],
    counts: &[u8],
    weights: &[u64],
    sets: &[u64],
    size: usize,
    answer: &mut [u8],
) -> Written
    requires { WalkPre ranked.now sums.now card.now counts.now weights.now sets.now size (length answer.old) }
    ensures { (L : Labels (ranked_costs 1)) → WalkLabels ranked.now sums.now card.now counts.now weights.now sets.now (length answer.old) L → Walked card.now weights.now sets.now answer.old answer.new L result }
{
    let room = 65 * columns::width_of(counts);
    if size <= 16 {
        walk_sized::<FEW_STEPS>(
            ranked, sums, card, counts, weights, sets, size, room, answer,
        )
    } else {
        walk_sized::<ALL_STEPS>(
            ranked, sums, card, counts, weights, sets, size, room, answer,
        )
    }
}
