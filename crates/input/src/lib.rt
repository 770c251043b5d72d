// The input that every search shares: its checks, 1 to 9 (card, ranking, word, or sets in its place, work slice), which make the card's sizes, and a
// word as sets.
#![tactic(auto)]

ghost use Rattle.std.specs.Prelude.{◌≡◌, ◌∷◌, ◌+◌, ◌*◌, ◌≤◌};
ghost use Rattle.basics.specs.Words.{true, [], length, take, leb, ltb, all_of};
ghost use Rattle.refusals.specs.Refusals.{refuse, first_of, checked_number};
ghost use Rattle.ranking.specs.Rankings.{is_ranking};
ghost use Rattle.product.specs.Optimizing.{sound_word, input_refusal};
ghost use Rattle.product.specs.Sets.{singletons};
ghost use Rattle.product.specs.OptimizingSets.{sets_refusal, sets_input_refusal};
ghost use Rattle.input.specs.Readiness.{Readies, FewSizes};

use grid::Grid;
use refusals::Refusal;

// Refusal 9, for that many symbols or sets: whether a work slice of `room` numbers has so many for each node.
pub fn check_work(grid: Grid, count: usize, numbers: usize, room: usize) -> Result<(), Refusal>
    requires { FewSizes grid × (count ≤ 24) × (numbers ≤ 8) }
    ensures { checked_number result ≡ refuse 9 (leb (numbers * ((count + 1) * grid.size)) room) }
{
    if room < (count + 1) * grid.size * numbers {
        return Err(Refusal::Work);
    }
    Ok(())
}

// The first of refusals 7 to 9: `word` is what the check of the word answered, or that of the sets in its place, and `count` how many there are.
fn check_rest(
    grid: Grid,
    ranking: &[u8],
    word: Result<(), Refusal>,
    count: usize,
    room: usize,
) -> Result<(), Refusal>
    requires { FewSizes grid × (checked_number word ≡ 0 → count ≤ 24) }
    ensures { checked_number result ≡ first_of (refuse 7 (is_ranking grid.machines ranking.now) ∷ checked_number word ∷ refuse 9 (leb (8 * ((count + 1) * grid.size)) room) ∷ []) }
{
    ranking::rankings::check_ranking(grid.machines as u8, ranking)?;
    word?;
    check_work(grid, count, 8, room)
}

// The sizes of the card of accepted input; the first of refusals 1 to 9 that the input meets, for a work slice of `room` numbers.
pub fn check_input(card: &[u8], ranking: &[u8], word: &[u8], room: usize) -> Result<Grid, Refusal>
    ensures { Readies card.now (input_refusal card.now ranking.now word.now room) result }
{
    card::check(card)?;
    let grid = grid::grid_of(card);
    let checked = product::check_word(word, grid.symbols);
    check_rest(grid, ranking, checked, word.len(), room)?;
    Ok(grid)
}

// The same with sets in the word's place: refusals 1 to 8, 25 and 9. What is alike is two lines with `?`: one function that takes the check between them
// would be no plainer.
pub fn check_sets_input(
    card: &[u8],
    ranking: &[u8],
    sets: &[u64],
    room: usize,
) -> Result<Grid, Refusal>
    ensures { Readies card.now (sets_input_refusal card.now ranking.now sets.now room) result }
{
    card::check(card)?;
    let grid = grid::grid_of(card);
    let checked = product::check_sets(sets, grid.symbols);
    check_rest(grid, ranking, checked, sets.len(), room)?;
    Ok(grid)
}

// The sets of one symbol each of a word.
pub fn fill_sets(word: &[u8], sets: &mut [u64])
    requires { (length word.now ≤ length sets.old) × (all_of (λ x. ltb x 64) word.now ≡ true) }
    ensures { take (length word.now) sets.new ≡ singletons word.now }
{
    for (i, &symbol) in word.iter().enumerate() {
        sets[i] = machine::sets::set_of(symbol);
    }
}
