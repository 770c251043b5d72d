// The pairs of a card in a stage of the cull: the nodes of a position tried by those with one input, the insertions in lists.
ghost use Rattle.std.specs.Prelude.{◌≡◌, ◌≤◌};
ghost use Rattle.basics.specs.Words.{List, ℕ, length};
ghost use Rattle.tables.specs.Places.{six_places, SixPlaces};
ghost use Rattle.insertions.specs.RankedWeights.{RankedWeights};
ghost use Rattle.stage_entering.specs.Entering.{codes_at};
ghost use Rattle.stage_entering.specs.Tables.{ListPre, ListsOf};
ghost use Rattle.stage_entering.specs.Inputs.{InputPre, InputTried};

use crate::{Site, try_four};
use cells::Groups;

// Tries the nodes of a position by the pairs with one input: the outputs worth trying, four at a time. `steps`, `high` and `low` are lent.
pub fn enter_input(
    work: &mut [u16],
    ahead: &[u64; 128],
    steps: &mut [u16],
    card: &[u8],
    counts: &[u8],
    weights: &[u64],
    at: Site,
    input: u8,
    high: &mut [u64],
    low: &mut [u64],
)
    requires { InputPre work.old ahead.now card.now counts.now weights.now steps.old high.old low.old at input × (1 ≤ input) }
    ensures { InputTried card.now weights.now work.old work.new input at.base (codes_at at) at.stage }
{
    let g = at.groups;
    let width = g.states;
    let mut outputs = columns::prepare(steps, card, counts, width, input);
    while outputs > 0 {
        let four = cells::fours::next_four(outputs);
        cells::add_four(steps, width, &four, counts, weights, g, high, low);
        try_four(work, ahead, high, low, at);
        outputs = cells::fours::without_four(outputs);
    }
}

// Writes the insertions of a card in lists. `steps` is lent for its columns, `high` and `low` for joint steps.
pub fn list_insertions(
    entries: &mut [u32],
    ends: &mut [u16; 514],
    steps: &mut [u16],
    card: &[u8],
    counts: &[u8],
    weights: &[u64],
    g: Groups,
    high: &mut [u64],
    low: &mut [u64],
)
    requires { ListPre card.now counts.now weights.now steps.old g × (length ends.old ≡ 514) × (8064 ≤ length entries.old) × (length high.old ≡ 264) × (length low.old ≡ 264) }
    ensures { (ranking : List ℕ) → RankedWeights (six_places ranking) weights.now → SixPlaces (six_places ranking) → ListsOf card.now ranking entries.new ends.new }
{
    let width = g.states;
    let kept = columns::prepare(steps, card, counts, width, machine::Pair::EMPTY);
    insertions::count(ends, steps, kept, width, counts, weights, g, high, low);
    insertions::list(
        entries, ends, steps, kept, width, counts, weights, g, high, low,
    );
}
