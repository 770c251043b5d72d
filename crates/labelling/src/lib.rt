// The labels of all nodes, position by position, from the last to the first. Labels are two numbers while a position is at hand; then they stand in one
// of two work slices, the other being empty: as ranked counts, or as one number by weights.
#![tactic(auto)]

ghost use Rattle.std.specs.Prelude.{◌+◌, ◌*◌, ◌≤◌, min};
ghost use Rattle.basics.specs.Words.{length, take};
ghost use Rattle.cells.specs.Groups.{GroupsOf};
ghost use Rattle.grid.specs.Grids.{GridOf};
ghost use Rattle.labelling.specs.Labelling.{LabelPre, PositionsDone, FinishPre, Finished, PositionsPre, SearchPre, JointRoom, AllLabelled};

use cells::Groups;
use grid::Grid;
use machine::Pair;

// The numbers in the tables where a position has at most 16 codes: 65 for each of at most 21 states, 63 insertions a code, 4 for each of at most 17 codes
// of both groups.
const FEW_STEPS: usize = 65 * 21;

const FEW_ENTRIES: usize = 63 * 16;

const FEW_JOINT: usize = 4 * 17;

// And for any number of codes: at most 40 states, 128 codes, and 66 of both groups.
const ALL_STEPS: usize = 65 * 40;

const ALL_ENTRIES: usize = 63 * 128;

const ALL_JOINT: usize = 4 * 66;

// Settles a position that was entered, by insertions in lists, and closes it.
fn finish(
    ranked: &mut [u16],
    sums: &mut [u64],
    highs: [u64; 6],
    base: usize,
    size: usize,
    own: &mut [u64; 256],
    next: &mut [u64; 256],
    entries: &[u32],
    ends: &[u16; 514],
)
    requires { FinishPre ranked.old sums.old highs own.old next.old entries.now ends.now base size }
    ensures { Finished ranked.old ranked.new sums.old sums.new highs own.old own.new next.old next.new entries.now ends.now base size }
{
    if sums.len() == 0 {
        settling::settle(own, entries, ends, &highs, true, size);
        closing::close_counts(ranked, base, size, own, next);
    } else {
        settling::settle(own, entries, ends, &highs, false, size);
        closing::close_sums(sums, base, size, own, next);
    }
}

// Labels the nodes of all positions, by insertions in lists. `high` and `low` are lent.
fn label_positions(
    ranked: &mut [u16],
    sums: &mut [u64],
    card: &[u8],
    grid: Grid,
    weights: &[u64],
    highs: [u64; 6],
    sets: &[u64],
    steps: &mut [u16],
    entries: &[u32],
    ends: &[u16; 514],
    g: Groups,
    high: &mut [u64],
    low: &mut [u64],
)
    requires { PositionsPre ranked.old sums.old card.now grid weights.now highs sets.now steps.old entries.now ends.now × GroupsOf (take grid.machines grid.counts) g × (g.front + g.back ≤ 66) × ((g.front + g.back) * 4 ≤ length high.old) × ((g.front + g.back) * 4 ≤ length low.old) }
    ensures { AllLabelled card.now weights.now sets.now ranked.old ranked.new sums.old sums.new }
{
    let all = grid.counts;
    let machines = grid.machines;
    let size = grid.size;
    let counts = &all[..machines];
    let mut own = [0u64; 256];
    let mut next = [0u64; 256];
    entering::endings::enter_endings(
        &mut own,
        steps,
        card,
        counts,
        weights,
        grid.states,
        g,
        high,
        low,
    );
    finish(
        ranked,
        sums,
        highs,
        sets.len() * size,
        size,
        &mut own,
        &mut next,
        entries,
        ends,
    );
    for position in (0..sets.len()).rev() {
        entering::enter_symbols(
            &mut own,
            &next,
            steps,
            card,
            counts,
            weights,
            g,
            sets[position],
            high,
            low,
        );
        finish(
            ranked,
            sums,
            highs,
            position * size,
            size,
            &mut own,
            &mut next,
            entries,
            ends,
        );
    }
}

// Labels all nodes. `marks` has the weights by which the lists have the marks, `highs` what these count in high, by their places; `steps`, `entries`,
// `high` and `low` are overwritten.
fn label_with(
    ranked: &mut [u16],
    sums: &mut [u64],
    card: &[u8],
    grid: Grid,
    weights: &[u64],
    highs: [u64; 6],
    marks: &[u64],
    sets: &[u64],
    steps: &mut [u16],
    entries: &mut [u32],
    high: &mut [u64],
    low: &mut [u64],
)
    requires { SearchPre ranked.old sums.old card.now grid weights.now highs marks.now sets.now × (65 * grid.states ≤ length steps.old) × (63 * grid.size ≤ length entries.old) × JointRoom grid.size high.old × JointRoom grid.size low.old }
    ensures { AllLabelled card.now weights.now sets.now ranked.old ranked.new sums.old sums.new }
{
    let all = grid.counts;
    let machines = grid.machines;
    let states = grid.states;
    let counts = &all[..machines];
    let g = cells::grouped(counts, grid.states, grid.size);
    let mut ends = [0u16; 514];
    let kept = columns::prepare(steps, card, counts, states, Pair::EMPTY);
    insertions::count(&mut ends, steps, kept, states, counts, marks, g, high, low);
    insertions::list(
        entries, &mut ends, steps, kept, states, counts, marks, g, high, low,
    );
    label_positions(
        ranked, sums, card, grid, weights, highs, sets, steps, entries, &ends, g, high, low,
    );
}

// Labels all nodes with tables of these sizes: for the columns, for the insertions and for the joint steps.
fn label_sized<const STEPS: usize, const ENTRIES: usize, const JOINT: usize>(
    ranked: &mut [u16],
    sums: &mut [u64],
    card: &[u8],
    grid: Grid,
    weights: &[u64],
    highs: [u64; 6],
    marks: &[u64],
    sets: &[u64],
)
    requires search { SearchPre ranked.old sums.old card.now grid weights.now highs marks.now sets.now }
    requires columns_fit { (65 * grid.states ≤ STEPS) × (STEPS ≤ ALL_STEPS) }
    requires entries_fit { (63 * grid.size ≤ ENTRIES) × (ENTRIES ≤ ALL_ENTRIES) }
    requires joint_fit { (4 * min 66 (grid.size + 1) ≤ JOINT) × (JOINT ≤ ALL_JOINT) }
    ensures { AllLabelled card.now weights.now sets.now ranked.old ranked.new sums.old sums.new }
{
    let places = 65 * grid.states;
    let mut steps = [65535u16; STEPS];
    let mut entries = [0u32; ENTRIES];
    let mut high = [0u64; JOINT];
    let mut low = [0u64; JOINT];
    label_with(
        ranked,
        sums,
        card,
        grid,
        weights,
        highs,
        marks,
        sets,
        &mut steps[..places],
        &mut entries,
        &mut high,
        &mut low,
    );
}

// Labels all nodes, in the order that the weights of the machines make. Few codes take a small table, since a table has to be written whole when it is made.
pub fn label_all(
    ranked: &mut [u16],
    sums: &mut [u64],
    card: &[u8],
    grid: Grid,
    weights: &[u64],
    highs: [u64; 6],
    marks: &[u64],
    sets: &[u64],
)
    requires { SearchPre ranked.old sums.old card.now grid weights.now highs marks.now sets.now }
    ensures { AllLabelled card.now weights.now sets.now ranked.old ranked.new sums.old sums.new }
{
    if grid.size <= 16 {
        label_sized::<FEW_STEPS, FEW_ENTRIES, FEW_JOINT>(
            ranked, sums, card, grid, weights, highs, marks, sets,
        );
    } else {
        label_sized::<ALL_STEPS, ALL_ENTRIES, ALL_JOINT>(
            ranked, sums, card, grid, weights, highs, marks, sets,
        );
    }
}

// Labels all nodes: the label of a node is the cost of a best path from it.
pub fn label(work: &mut [u16], card: &[u8], grid: Grid, ranking: &[u8], sets: &[u64])
    requires { LabelPre card.now ranking.now sets.now work.old grid.size × GridOf card.now grid }
    ensures { PositionsDone card.now ranking.now sets.now work.old work.new 0 }
{
    let all = grid.counts;
    let machines = grid.machines;
    let weights = machine_weights::ranked_weights(&all[..machines], ranking);
    let used = &weights[..3 * machines];
    let highs = machine_weights::HIGHS;
    label_all(work, &mut [], card, grid, used, highs, used, sets);
}
