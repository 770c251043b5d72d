// What the search writes down: steps and labels as numbers; the start node; a ranking as six places.
#![tactic(auto)]

ghost use Rattle.std.specs.Prelude.{◌≡◌};
ghost use Rattle.basics.specs.Words.{List, get_or};
ghost use Rattle.machine.specs.Machine.{Machine};
ghost use Rattle.product.specs.Nodes.{state_counts};
ghost use Rattle.product.specs.ProductGraph.{start_node};
ghost use Rattle.tables.specs.Places.{six_places};

use basics::index;
use machine::Position;

pub mod labels; // labels.rt: labels of nodes in a lent slice

// The number of a pair that no arc takes. No Option: the columns are numbers, two bytes a step, as the definitions say.
pub const NO_STEP: u16 = 65535;

// In the place of a node's label by sums: it has none. No Option, for the same reason: the lent work slice holds numbers alone.
pub const NO_SUM: u64 = 18446744073709551615;

// The start node: the first position, whose nodes are the codes, with every machine in its start state.
pub fn start_node(counts: &[u8]) -> usize
    ensures { (ms : List Machine) → counts.now ≡ state_counts ms → result ≡ start_node ms }
{
    let start = index(Position::start().state);
    let mut code = 0;
    for &count in counts {
        code = code * index(count) + start;
    }
    code
}

// The machine at a place of a ranking, 6 past its end.
fn place(ranking: &[u8], i: usize) -> u8
    ensures { result ≡ get_or ranking.now i 6 }
{
    ranking.get(i).copied().unwrap_or(6)
}

// A ranking as six places.
pub fn six_places(ranking: &[u8]) -> [u8; 6]
    ensures { result ≡ six_places ranking.now }
{
    [
        place(ranking, 0),
        place(ranking, 1),
        place(ranking, 2),
        place(ranking, 3),
        place(ranking, 4),
        place(ranking, 5),
    ]
}
