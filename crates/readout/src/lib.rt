// Reading the answer off the labels of all nodes: the checks 10 and 12, the walk, the result. Every engine that labels in ranked order ends with it.
#![tactic(auto)]

ghost use Rattle.std.specs.Prelude.{◌≡◌, ◌≤◌};
ghost use Rattle.basics.specs.Words.{List, ℕ, length};
ghost use Rattle.product.specs.Sets.{best_of_sets};
ghost use Rattle.candidate.specs.Evaluating.{as_evaluation};
ghost use Rattle.product.specs.ProductGraph.{card_start};
ghost use Rattle.tables.specs.Work.{cost_at};
ghost use Rattle.labelling.specs.Labelling.{PositionsDone};
ghost use Rattle.walk.specs.RankedBest.{RankedWalked};
ghost use Rattle.grid.specs.Grids.{GridOf};
ghost use Rattle.readout.specs.Searching.{SetsPre, Searched, BestPre};

use candidate::Evaluated;
use grid::Grid;
use refusals::Refusal;
use walk::Written;

mod checks; // checks.rt: the checks of the best candidate

// The start node: the first position, every machine of the card in its start state.
pub fn start_node(grid: Grid) -> usize
    requires { grid.machines ≤ length grid.counts }
    ensures { (card : List ℕ) → GridOf card grid → result ≡ card_start card }
{
    let counts = grid.counts;
    tables::start_node(&counts[..grid.machines])
}

// Walks along the labels of all nodes, which are counts: writes the best candidate into the front of the answer.
fn walk_ranked(
    card: &[u8],
    grid: Grid,
    ranking: &[u8],
    sets: &[u64],
    work: &[u16],
    answer: &mut [u8],
) -> Written
    requires { BestPre card.now ranking.now sets.now work.now grid.size (length answer.old) × GridOf card.now grid }
    ensures { RankedWalked card.now ranking.now sets.now answer.old answer.new (cost_at work.now (card_start card.now)) result }
{
    let all = grid.counts;
    let machines = grid.machines;
    let counts = &all[..machines];
    let weights = machine_weights::ranked_weights(counts, ranking);
    let no_sums = [0u64; 0];
    walk::walk(
        work,
        &no_sums,
        card,
        counts,
        &weights[..3 * machines],
        sets,
        grid.size,
        answer,
    )
}

// Reads the answer off the labels of all nodes, and writes the best candidate if there is one and it has room: 10, 12.
pub fn read_out(
    card: &[u8],
    grid: Grid,
    ranking: &[u8],
    sets: &[u64],
    work: &[u16],
    answer: &mut [u8],
) -> Result<Evaluated, Refusal>
    requires { SetsPre card.now ranking.now sets.now work.now grid.size × PositionsDone card.now ranking.now sets.now work.now work.now 0 × GridOf card.now grid }
    ensures { Searched (best_of_sets card.now ranking.now sets.now) sets.now work.now work.now answer.old answer.new (as_evaluation result) }
{
    let start = start_node(grid);
    checks::check_best(work, start, answer.len())?;
    let written = walk_ranked(card, grid, ranking, sets, work, answer);
    Ok(Evaluated {
        profile: written.profile,
        pairs: written.pairs as u16,
        word_length: sets.len() as u16,
    })
}
