// The optimizer: from card, ranking and word to the best candidate.
#![tactic(auto)]

ghost use Rattle.std.specs.Prelude.{◌≡◌};
ghost use Rattle.basics.specs.Words.{true, length};
ghost use Rattle.product.specs.Best.{best};
ghost use Rattle.product.specs.Sets.{best_of_sets};
ghost use Rattle.candidate.specs.Evaluating.{as_evaluation};
ghost use Rattle.candidate.specs.Candidates.{is_some};
ghost use Rattle.product.specs.Optimizing.{input_refusal};
ghost use Rattle.tables.specs.LabelCost.{cost_of};
ghost use Rattle.labelling.specs.Labelling.{LabelPre, PositionsDone};
ghost use Rattle.grid.specs.Grids.{GridOf};
ghost use Rattle.optimizer.specs.Optimizes.{Optimizes, OptimizesSets};
ghost use Rattle.readout.specs.Searching.{SetsPre, SearchPre, Searched};
ghost use Rattle.optimizer.specs.Telling.{RankingOfSome, CardOrder, TellsBest};

use basics::index;
use candidate::Evaluated;
use grid::Grid;
use ranking::Profile;
use refusals::Refusal;
use tables::labels::Label;

// An engine: it labels the nodes of all positions, so that the label of a node is the cost of a best path from it.
pub trait Engine {
    fn label(work: &mut [u16], card: &[u8], grid: Grid, ranking: &[u8], sets: &[u64])
        requires { LabelPre card.now ranking.now sets.now work.old grid.size × GridOf card.now grid }
        ensures { PositionsDone card.now ranking.now sets.now work.old work.new 0 };
}

// The engine that relaxes each position once, by labels of all constraints together.
pub struct ByRelaxing;

impl Engine for ByRelaxing {
    fn label(work: &mut [u16], card: &[u8], grid: Grid, ranking: &[u8], sets: &[u64]) {
        labelling::label(work, card, grid, ranking, sets);
    }
}

// The search for accepted sets: labels the nodes, and reads the answer off.
fn search_sets<E: Engine>(
    card: &[u8],
    grid: Grid,
    ranking: &[u8],
    sets: &[u64],
    work: &mut [u16],
    answer: &mut [u8],
) -> Result<Evaluated, Refusal>
    requires { SetsPre card.now ranking.now sets.now work.old grid.size × GridOf card.now grid }
    ensures { Searched (best_of_sets card.now ranking.now sets.now) sets.now work.old work.new answer.old answer.new (as_evaluation result) }
{
    E::label(work, card, grid, ranking, sets);
    readout::read_out(card, grid, ranking, sets, work, answer)
}

// The search for an accepted word: that for its sets of one symbol each.
fn search<E: Engine>(
    card: &[u8],
    grid: Grid,
    ranking: &[u8],
    word: &[u8],
    work: &mut [u16],
    answer: &mut [u8],
) -> Result<Evaluated, Refusal>
    requires { SearchPre card.now ranking.now word.now work.old grid.size × GridOf card.now grid }
    ensures { Searched (best card.now ranking.now word.now) word.now work.old work.new answer.old answer.new (as_evaluation result) }
{
    let mut sets = [0u64; 24];
    input::fill_sets(word, &mut sets);
    search_sets::<E>(card, grid, ranking, &sets[..word.len()], work, answer)
}

// Counts in ranked order as a profile, which is in card order.
fn profile_of(label: Label, ranking: &[u8]) -> Profile
    requires { RankingOfSome ranking.now }
    ensures { CardOrder ranking.now (cost_of label) result }
{
    let ranked = [
        label.first,
        label.second,
        label.third,
        label.fourth,
        label.fifth,
        label.sixth,
    ];
    let mut counts = Profile::zero().counts;
    for (place, &machine) in ranking.iter().enumerate() {
        let machine = index(machine);
        counts[machine] = ranked[place];
    }
    Profile { counts }
}

// The search for accepted sets that have a candidate, without an answer slice: labels the nodes, and reads the best profile off the
// start's label.
fn label_sets(card: &[u8], grid: Grid, ranking: &[u8], sets: &[u64], work: &mut [u16]) -> Profile
    requires { SetsPre card.now ranking.now sets.now work.old grid.size × GridOf card.now grid × (is_some (best_of_sets card.now ranking.now sets.now) ≡ true) }
    ensures { TellsBest (best_of_sets card.now ranking.now sets.now) work.old work.new result }
{
    labelling::label(work, card, grid, ranking, sets);
    let label = tables::labels::load(work, readout::start_node(grid));
    profile_of(label, ranking)
}

// The same for an accepted word: by its sets of one symbol each.
fn label_best(card: &[u8], grid: Grid, ranking: &[u8], word: &[u8], work: &mut [u16]) -> Profile
    requires { SearchPre card.now ranking.now word.now work.old grid.size × GridOf card.now grid × (is_some (best card.now ranking.now word.now) ≡ true) }
    ensures { TellsBest (best card.now ranking.now word.now) work.old work.new result }
{
    let mut sets = [0u64; 24];
    input::fill_sets(word, &mut sets);
    label_sets(card, grid, ranking, &sets[..word.len()], work)
}

// The best candidate's profile, for input that passed the checks 1 to 9 and a word that has a candidate.
pub fn best_profile(
    card: &[u8],
    grid: Grid,
    ranking: &[u8],
    word: &[u8],
    work: &mut [u16],
) -> Profile
    requires { (input_refusal card.now ranking.now word.now (length work.old) ≡ 0) × GridOf card.now grid × (is_some (best card.now ranking.now word.now) ≡ true) }
    ensures { TellsBest (best card.now ranking.now word.now) work.old work.new result }
{
    let nodes = (word.len() + 1) * grid.size;
    label_best(card, grid, ranking, word, &mut work[..nodes * 8])
}

// Answers the best candidate for a word under a ranking, by an engine: 1 to 10, 12.
pub fn optimize_by<E: Engine>(
    card: &[u8],
    ranking: &[u8],
    word: &[u8],
    work: &mut [u16],
    answer: &mut [u8],
) -> Result<Evaluated, Refusal>
    ensures { Optimizes card.now ranking.now word.now work.old work.new answer.old answer.new (as_evaluation result) }
{
    let grid = input::check_input(card, ranking, word, work.len())?;
    let nodes = (word.len() + 1) * grid.size;
    search::<E>(card, grid, ranking, word, &mut work[..nodes * 8], answer)
}

// Answers the best candidate over all words with one symbol from each set, by an engine: 1 to 8, 25, 9, 10, 12.
pub fn optimize_sets_by<E: Engine>(
    card: &[u8],
    ranking: &[u8],
    sets: &[u64],
    work: &mut [u16],
    answer: &mut [u8],
) -> Result<Evaluated, Refusal>
    ensures { OptimizesSets card.now ranking.now sets.now work.old work.new answer.old answer.new (as_evaluation result) }
{
    let grid = input::check_sets_input(card, ranking, sets, work.len())?;
    let nodes = (sets.len() + 1) * grid.size;
    search_sets::<E>(card, grid, ranking, sets, &mut work[..nodes * 8], answer)
}

// Answers the best candidate for a word under a ranking: 1 to 10, 12.
pub fn optimize(
    card: &[u8],
    ranking: &[u8],
    word: &[u8],
    work: &mut [u16],
    answer: &mut [u8],
) -> Result<Evaluated, Refusal>
    ensures { Optimizes card.now ranking.now word.now work.old work.new answer.old answer.new (as_evaluation result) }
{
    optimize_by::<ByRelaxing>(card, ranking, word, work, answer)
}

// Answers the best candidate over all words with one symbol from each set: 1 to 8, 25, 9, 10, 12.
pub fn optimize_sets(
    card: &[u8],
    ranking: &[u8],
    sets: &[u64],
    work: &mut [u16],
    answer: &mut [u8],
) -> Result<Evaluated, Refusal>
    ensures { OptimizesSets card.now ranking.now sets.now work.old work.new answer.old answer.new (as_evaluation result) }
{
    optimize_sets_by::<ByRelaxing>(card, ranking, sets, work, answer)
}
