// Entering a position: by the symbols of its set, or, at the last one, by the endings.
#![tactic(auto)]

ghost use Rattle.std.specs.Prelude.{◌≡◌, ◌+◌, ◌*◌, ◌≤◌};
ghost use Rattle.basics.specs.Words.{true, ℕ, length, member, product};
ghost use Rattle.card.specs.Layout.{symbol_count};
ghost use Rattle.cells.specs.Cells.{places};
ghost use Rattle.entering.specs.Entering.{Ready, Blank, NextRoom, Position, SymbolsEntered};
ghost use Rattle.entering.specs.Symbols.{codes, InputTried};

use cells::Groups;
use machine::sets;

pub mod endings; // endings.rt: the labels of the last position

// Tries every code of a position by the pairs with one input: the outputs worth trying, four at a time. `high` and `low` are lent, and overwritten:
// to make them for each input would take a fifth of a call's time. Hence ten parameters: two parts of one slice cannot be lent at the same time.
fn enter_input(
    own: &mut [u64],
    next: &[u64; 256],
    steps: &mut [u16],
    card: &[u8],
    counts: &[u8],
    weights: &[u64],
    g: Groups,
    input: u8,
    high: &mut [u64],
    low: &mut [u64],
)
    requires { Ready card.now counts.now weights.now own.old steps.old (places counts.now) g × Position own.old (codes card.now) × NextRoom next.now weights.now (length counts.now) (product counts.now) × (1 ≤ input) × (input ≤ symbol_count card.now) × ((g.front + g.back) * 4 ≤ length high.old) × ((g.front + g.back) * 4 ≤ length low.old) }
    ensures { InputTried card.now weights.now own.old own.new next.now input }
{
    let width = g.states;
    let mut outputs = columns::prepare(steps, card, counts, width, input);
    while outputs > 0 {
        let four = cells::fours::next_four(outputs);
        cells::add_four(steps, width, &four, counts, weights, g, high, low);
        lanes::try_four(own, next, g.front, g.back, high, low);
        outputs = cells::fours::without_four(outputs);
    }
}

// Enters a position that has no label yet: tries every code of it by the pairs with each symbol of its set. `high` and `low` are lent for it.
pub fn enter_symbols(
    own: &mut [u64],
    next: &[u64; 256],
    steps: &mut [u16],
    card: &[u8],
    counts: &[u8],
    weights: &[u64],
    g: Groups,
    symbols: u64,
    high: &mut [u64],
    low: &mut [u64],
)
    requires { Ready card.now counts.now weights.now own.old steps.old (places counts.now) g × Blank own.old (product counts.now) × NextRoom next.now weights.now (length counts.now) (product counts.now) × ((x : ℕ) → member symbols x ≡ true → (1 ≤ x) × (x ≤ symbol_count card.now)) × ((g.front + g.back) * 4 ≤ length high.old) × ((g.front + g.back) * 4 ≤ length low.old) }
    ensures { SymbolsEntered card.now weights.now own.new next.now symbols }
{
    let mut left = symbols;
    while left > 0 {
        let symbol = sets::least(left) as u8;
        enter_input(
            own, next, steps, card, counts, weights, g, symbol, high, low,
        );
        left = sets::without_least(left);
    }
}
