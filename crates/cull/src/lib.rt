// Ellison's cull as an engine: constraint by constraint, the fewest marks from each node to an end are found, and the arcs and the endings that
// cost more are dropped.
#![tactic(auto)]

ghost use Rattle.std.specs.Prelude.{◌<◌};
ghost use Rattle.basics.specs.Words.{List, ℕ};
ghost use Rattle.tables.specs.Work.{HasNodes};
ghost use Rattle.labelling.specs.Labelling.{LabelPre, PositionsDone};
ghost use Rattle.optimizer.specs.Optimizes.{Optimizes, OptimizesSets};
ghost use Rattle.candidate.specs.Evaluating.{as_evaluation};
ghost use Rattle.grid.specs.Grids.{GridOf};
ghost use Rattle.cull.specs.Tables.{TablesPre, RankedBy};
ghost use Rattle.stage_entering.specs.Entering.{codes_at};
ghost use Rattle.cull.specs.Entering.{EndingsPre};
ghost use Rattle.cull.specs.Culling.{LentTables, CullPre, SymbolsPre, SymbolsEntered, CodesEnded, LastPre, LastTried, StagePre, StageDone, Blanked, PlaceCleared};
ghost use Rattle.cull.specs.Ways.{StagesDone};

use candidate::Evaluated;
use cells::Groups;
use grid::Grid;
use optimizer::Engine;
use refusals::Refusal;
use stage_entering::pairs::{enter_input, list_insertions};
use stage_entering::{Site, look_ahead, try_ending};
use stage_settling::settle;

// ---- the positions of a stage

// Takes the labels of the stage before from the first count nodes. Their counts stay.
fn blank(work: &mut [u16], count: usize)
    requires { HasNodes work.old count }
    ensures { Blanked work.old work.new count }
{
    for node in 0..count {
        work[node * 8] = 0;
    }
}

// Takes the marks of the constraint at a place from the first count nodes.
fn clear_place(work: &mut [u16], count: usize, place: usize)
    requires { HasNodes work.old count × (place < 6) }
    ensures { PlaceCleared work.old work.new count place }
{
    for node in 0..count {
        work[node * 8 + 1 + place] = 0;
    }
}

// Enters a position before the last one: tries its nodes by the pairs of one symbol of its set after the other. `steps`, `high` and `low` are overwritten.
fn enter_symbols(
    work: &mut [u16],
    card: &[u8],
    set: u64,
    counts: &[u8],
    weights: &[u64],
    steps: &mut [u16],
    high: &mut [u64],
    low: &mut [u64],
    at: Site,
)
    requires { SymbolsPre work.old card.now counts.now weights.now steps.old high.old low.old set at }
    ensures { SymbolsEntered card.now weights.now work.old work.new set at }
{
    let g = at.groups;
    let base = at.base;
    let stage = at.stage;
    let size = g.size;
    let mut ahead = [0u64; 128];
    look_ahead(work, &mut ahead, base + size, size, stage);
    let mut left = set;
    while left > 0 {
        let symbol = machine::sets::least(left) as u8;
        enter_input(
            work, &ahead, steps, card, counts, weights, at, symbol, high, low,
        );
        left = machine::sets::without_least(left);
    }
}

// Tries the nodes of a position by their endings, which are the first of four numbers of either group.
fn try_endings(work: &mut [u16], high: &[u64], low: &[u64], at: Site)
    requires { EndingsPre work.old high.now low.now at }
    ensures { CodesEnded work.old work.new high.now low.now at.groups.front at.groups.back at.stage at.base (codes_at at) }
{
    let g = at.groups;
    let front = g.front;
    let back = g.back;
    let base = at.base;
    let stage = at.stage;
    let size = g.size;
    for code in 0..size {
        let a = code / back * 4;
        let b = (front + code % back) * 4;
        try_ending(work, high[a] + high[b], low[a] + low[b], base + code, stage);
    }
}

// Enters the last position. The endings are added up as a column of their own; `steps`, `high` and `low` are overwritten.
fn enter_last(
    work: &mut [u16],
    card: &[u8],
    counts: &[u8],
    weights: &[u64],
    steps: &mut [u16],
    high: &mut [u64],
    low: &mut [u64],
    at: Site,
)
    requires { LastPre work.old card.now counts.now weights.now steps.old high.old low.old at }
    ensures { LastTried card.now weights.now work.old work.new at }
{
    let g = at.groups;
    let width = g.states;
    columns::fill_endings(steps, card, counts);
    let four = [0u8, 64, 64, 64];
    cells::add_four(steps, width, &four, counts, weights, g, high, low);
    try_endings(work, high, low, at);
}

// A stage: finds the fewest marks of one constraint from every node to an end, over what the stages before left.
fn label_stage(
    work: &mut [u16],
    card: &[u8],
    sets: &[u64],
    counts: &[u8],
    weights: &[u64],
    entries: &[u32],
    ends: &[u16; 514],
    steps: &mut [u16],
    high: &mut [u64],
    low: &mut [u64],
    g: Groups,
    stage: usize,
)
    requires { ((ranking : List ℕ) × StagePre card.now ranking sets.now counts.now weights.now entries.now ends.now work.old g.size stage) × LentTables card.now counts.now weights.now steps.old high.old low.old g g.size }
    ensures { (ranking : List ℕ) → StagePre card.now ranking sets.now counts.now weights.now entries.now ends.now work.old g.size stage → StageDone card.now ranking sets.now work.old work.new stage }
{
    let size = g.size;
    blank(work, (sets.len() + 1) * size);
    let base = sets.len() * size;
    let last = Site {
        groups: g,
        base,
        stage,
    };
    enter_last(work, card, counts, weights, steps, high, low, last);
    settle(work, entries, ends, base, size, stage);
    for position in (0..sets.len()).rev() {
        let base = position * size;
        let at = Site {
            groups: g,
            base,
            stage,
        };
        enter_symbols(
            work,
            card,
            sets[position],
            counts,
            weights,
            steps,
            high,
            low,
            at,
        );
        settle(work, entries, ends, base, size, stage);
    }
}

// Goes down the ranking, a stage for each constraint. Past the last machine there are no marks, so that there is nothing to be dropped.
fn label_stages(
    work: &mut [u16],
    card: &[u8],
    sets: &[u64],
    counts: &[u8],
    weights: &[u64],
    entries: &[u32],
    ends: &[u16; 514],
    steps: &mut [u16],
    high: &mut [u64],
    low: &mut [u64],
    g: Groups,
)
    requires { ((ranking : List ℕ) × CullPre card.now ranking sets.now counts.now weights.now entries.now ends.now work.old g.size 0) × LentTables card.now counts.now weights.now steps.old high.old low.old g g.size }
    ensures { (ranking : List ℕ) → CullPre card.now ranking sets.now counts.now weights.now entries.now ends.now work.old g.size 0 → StagesDone card.now ranking sets.now work.old work.new }
{
    let size = g.size;
    let machines = counts.len();
    for stage in 0..machines {
        label_stage(
            work, card, sets, counts, weights, entries, ends, steps, high, low, g, stage,
        );
    }
    for place in machines..6 {
        clear_place(work, (sets.len() + 1) * size, place);
    }
}

// Labels all nodes, by the weights of the machines in the order of a ranking.
fn label_by(
    work: &mut [u16],
    card: &[u8],
    counts: &[u8],
    weights: &[u64],
    sets: &[u64],
    steps: &mut [u16],
    g: Groups,
)
    requires { TablesPre work.old card.now counts.now weights.now sets.now steps.old g × ((ranking : List ℕ) × RankedBy card.now ranking weights.now) }
    ensures { (ranking : List ℕ) → RankedBy card.now ranking weights.now → PositionsDone card.now ranking sets.now work.old work.new 0 }
{
    let mut high = [0u64; 264];
    let mut low = [0u64; 264];
    let mut entries = [0u32; 8064];
    let mut ends = [0u16; 514];
    list_insertions(
        &mut entries,
        &mut ends,
        steps,
        card,
        counts,
        weights,
        g,
        &mut high,
        &mut low,
    );
    label_stages(
        work, card, sets, counts, weights, &entries, &ends, steps, &mut high, &mut low, g,
    );
}

// Labels all nodes: the label of a node is the cost of a best path from it.
fn label(work: &mut [u16], card: &[u8], grid: Grid, ranking: &[u8], sets: &[u64])
    requires { LabelPre card.now ranking.now sets.now work.old grid.size × GridOf card.now grid }
    ensures { PositionsDone card.now ranking.now sets.now work.old work.new 0 }
{
    let all = grid.counts;
    let machines = grid.machines;
    let counts = &all[..machines];
    let weights = machine_weights::ranked_weights(counts, ranking);
    let columns = grid.states * 65;
    let g = cells::grouped(counts, grid.states, grid.size);
    let mut steps = [65535u16; 2600];
    label_by(
        work,
        card,
        counts,
        &weights[..3 * machines],
        sets,
        &mut steps[..columns],
        g,
    );
}

// The engine that goes through the constraints from the highest ranked down, and drops what is not best by each.
pub struct ByCulling;

impl Engine for ByCulling {
    fn label(work: &mut [u16], card: &[u8], grid: Grid, ranking: &[u8], sets: &[u64]) {
        label(work, card, grid, ranking, sets);
    }
}

// Answers the best candidate for a word under a ranking, by Ellison's method: 1 to 10, 12.
pub fn cull(
    card: &[u8],
    ranking: &[u8],
    word: &[u8],
    work: &mut [u16],
    answer: &mut [u8],
) -> Result<Evaluated, Refusal>
    ensures { Optimizes card.now ranking.now word.now work.old work.new answer.old answer.new (as_evaluation result) }
{
    optimizer::optimize_by::<ByCulling>(card, ranking, word, work, answer)
}

// Answers the best candidate over all words with one symbol from each set, by Ellison's method: 1 to 8, 25, 9, 10, 12.
pub fn cull_sets(
    card: &[u8],
    ranking: &[u8],
    sets: &[u64],
    work: &mut [u16],
    answer: &mut [u8],
) -> Result<Evaluated, Refusal>
    ensures { OptimizesSets card.now ranking.now sets.now work.old work.new answer.old answer.new (as_evaluation result) }
{
    optimizer::optimize_sets_by::<ByCulling>(card, ranking, sets, work, answer)
}
