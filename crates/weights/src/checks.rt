// The checks of the call: of card, weights, word and work slice, which make the card's sizes, and of the best candidate.
ghost use Rattle.std.specs.Prelude.{◌≡◌, ◌∷◌, ◌+◌, ◌*◌};
ghost use Rattle.basics.specs.Words.{[], length, leb};
ghost use Rattle.refusals.specs.Refusals.{refuse, first_of, checked_number};
ghost use Rattle.product.specs.Optimizing.{sound_word};
ghost use Rattle.input.specs.Readiness.{Readies, FewSizes};
ghost use Rattle.product.specs.Weights.{sound_weights};
ghost use Rattle.weights.specs.Weighing.{weighted_refusal};
ghost use Rattle.weights.specs.Searching.{number_refusal};

use grid::Grid;
use refusals::Refusal;
use tables::NO_SUM;

// The largest weight.
const LIMIT: u32 = 4000000000;

// Refusal 26: whether there is one weight for each machine, none above the limit.
fn check_weights(machines: usize, weights: &[u32]) -> Result<(), Refusal>
    ensures { checked_number result ≡ refuse 26 (sound_weights machines weights.now) }
{
    if weights.len() != machines {
        return Err(Refusal::Weights);
    }
    for &weight in weights {
        if weight > LIMIT {
            return Err(Refusal::Weights);
        }
    }
    Ok(())
}

// The first of refusals 26, 8 and 9. Not `input::check_rest`: 26 stands where that has 7, and two numbers a node where it has eight.
fn check_word(grid: Grid, weights: &[u32], word: &[u8], room: usize) -> Result<(), Refusal>
    requires { FewSizes grid }
    ensures { checked_number result ≡ first_of (refuse 26 (sound_weights grid.machines weights.now) ∷ refuse 8 (sound_word grid.symbols word.now) ∷ refuse 9 (leb (2 * ((length word.now + 1) * grid.size)) room) ∷ []) }
{
    check_weights(grid.machines, weights)?;
    product::check_word(word, grid.symbols)?;
    input::check_work(grid, word.len(), 2, room)
}

// The first of refusals 1 to 6, 26, 8 and 9 that the input meets, for a work slice of `room` numbers.
pub fn check_input(card: &[u8], weights: &[u32], word: &[u8], room: usize) -> Result<Grid, Refusal>
    ensures { Readies card.now (weighted_refusal card.now weights.now word.now room) result }
{
    card::check(card)?;
    let grid = grid::grid_of(card);
    check_word(grid, weights, word, room)?;
    Ok(grid)
}

// The first of refusals 10 and 12 that the search meets, by the number of the start's label, for an answer slice of `room` bytes.
pub fn check_best(number: u64, room: usize) -> Result<(), Refusal>
    ensures { checked_number result ≡ number_refusal number room }
{
    if number >= NO_SUM {
        return Err(Refusal::NoCandidate);
    }
    if room / 2 < (number % 4096) as usize {
        return Err(Refusal::Answer);
    }
    Ok(())
}
