// Weights: from card, weights and word to the best candidate of Harmonic Grammar.
#![tactic(auto)]

ghost use Rattle.std.specs.Prelude.{◌≡◌};
ghost use Rattle.paths.specs.Positions.{Done};
ghost use Rattle.product.specs.Sets.{best_of_sets_in};
ghost use Rattle.product.specs.Setting.{position_of};
ghost use Rattle.grid.specs.Grids.{GridOf};
ghost use Rattle.product.specs.Weights.{by_sum, best_by_weights};
ghost use Rattle.product.specs.WeightedPaths.{weighted_graph};
ghost use Rattle.tables.specs.SumLabels.{label_of};
ghost use Rattle.weights.specs.Weighing.{weighing_of};
ghost use Rattle.weights.specs.Searching.{SetsPre, SearchPre, Searched, Optimizes};

use candidate::{Evaluated, Evaluation};
use grid::Grid;
use refusals::Refusal;

mod checks; // checks.rt: the checks of the input and of the best candidate

// What the call says of the best candidate: its evaluation, and its sum in thousandths.
#[derive(Clone, Copy)]
pub struct Weighed {
    pub evaluated: Evaluated,
    pub sum: u64,
}

// The same as one record: the evaluation, with the refusal's number, and the sum.
#[derive(Clone, Copy)]
pub struct Weighing {
    pub evaluation: Evaluation,
    pub sum: u64,
}

impl From<Result<Weighed, Refusal>> for Weighing {
    ghost from_gives = { λ answer weighing. weighing ≡ weighing_of answer };

    fn from(answer: Result<Weighed, Refusal>) -> Weighing
        ensures { result ≡ weighing_of answer }
    {
        match answer {
            Ok(weighed) => Weighing {
                evaluation: Evaluation::from(Ok(weighed.evaluated)),
                sum: weighed.sum,
            },
            Err(refusal) => Weighing {
                evaluation: Evaluation::from(Err(refusal)),
                sum: 0,
            },
        }
    }
}

// Reads the answer off the labels of all nodes, and writes the best candidate if there is one and it has room: 10 and 12. Equal sums need not be equal
// profiles, so the profile is what the walk adds up.
fn read_out(
    card: &[u8],
    grid: Grid,
    weights: &[u32],
    sets: &[u64],
    work: &[u64],
    answer: &mut [u8],
) -> Result<Weighed, Refusal>
    requires { SetsPre card.now weights.now sets.now work.now grid.size × Done (weighted_graph card.now weights.now sets.now) (position_of card.now) (label_of work.now) 0 × GridOf card.now grid }
    ensures { Searched weights.now (best_of_sets_in (by_sum weights.now) card.now sets.now) sets.now work.now work.now answer.old answer.new (weighing_of result) }
{
    let all = grid.counts;
    let machines = grid.machines;
    let counts = &all[..machines];
    let number = work[tables::start_node(counts)];
    checks::check_best(number, answer.len())?;
    let numbers = weighted::weights_of(counts, weights);
    let no_counts = [0u16; 1];
    let written = walk::walk(
        &no_counts[..0],
        work,
        card,
        counts,
        &numbers[..3 * machines],
        sets,
        grid.size,
        answer,
    );
    Ok(Weighed {
        evaluated: Evaluated {
            profile: written.profile,
            pairs: written.pairs as u16,
            word_length: sets.len() as u16,
        },
        sum: number / 4096,
    })
}

// The search for accepted sets: labels the nodes, and reads the answer off.
fn search_sets(
    card: &[u8],
    grid: Grid,
    weights: &[u32],
    sets: &[u64],
    work: &mut [u64],
    answer: &mut [u8],
) -> Result<Weighed, Refusal>
    requires { SetsPre card.now weights.now sets.now work.old grid.size × GridOf card.now grid }
    ensures { Searched weights.now (best_of_sets_in (by_sum weights.now) card.now sets.now) sets.now work.old work.new answer.old answer.new (weighing_of result) }
{
    weighted::label(work, card, grid, weights, sets);
    read_out(card, grid, weights, sets, work, answer)
}

// The search for an accepted word: that for its sets of one symbol each.
fn search(
    card: &[u8],
    grid: Grid,
    weights: &[u32],
    word: &[u8],
    work: &mut [u64],
    answer: &mut [u8],
) -> Result<Weighed, Refusal>
    requires { SearchPre card.now weights.now word.now work.old grid.size × GridOf card.now grid }
    ensures { Searched weights.now (best_by_weights card.now weights.now word.now) word.now work.old work.new answer.old answer.new (weighing_of result) }
{
    let mut sets = [0u64; 24];
    input::fill_sets(word, &mut sets);
    search_sets(card, grid, weights, &sets[..word.len()], work, answer)
}

// The best candidate for a word by weights, one for each machine, in thousandths: 1 to 6, 26, 8, 9, 10, 12.
pub fn optimize(
    card: &[u8],
    weights: &[u32],
    word: &[u8],
    work: &mut [u64],
    answer: &mut [u8],
) -> Result<Weighed, Refusal>
    ensures { Optimizes card.now weights.now word.now work.old work.new answer.old answer.new (weighing_of result) }
{
    let grid = checks::check_input(card, weights, word, work.len())?;
    let nodes = (word.len() + 1) * grid.size;
    search(card, grid, weights, word, &mut work[..nodes], answer)
}
