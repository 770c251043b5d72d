// The labels of the last position: the endings, added up as a column of their own.
ghost use Rattle.std.specs.Prelude.{◌≡◌, ◌+◌, ◌*◌, ◌≤◌};
ghost use Rattle.basics.specs.Words.{length};
ghost use Rattle.columns.specs.Filling.{Small};
ghost use Rattle.entering.specs.Entering.{Ready, EndingsEntered};
ghost use Rattle.entering.specs.Endings.{ending_cell, WritePre, EndingsWritten};

use cells::{Cell, Groups, NO_LABEL, NOWHERE};

// The label of an ending, by its two numbers.
fn ending_label(ending: u64, rest: u64) -> Cell
    ensures { result ≡ ending_cell ending rest }
{
    if ending < NOWHERE {
        return Cell {
            high: ending + 255,
            low: rest,
        };
    }
    Cell {
        high: NO_LABEL,
        low: 0,
    }
}

// Writes the labels of all codes, by the endings of both groups; an ending is the first of four numbers.
fn write_endings(own: &mut [u64], g: Groups, high: &[u64], low: &[u64])
    requires { WritePre own.old high.now low.now g.front g.back × (g.size ≡ g.front * g.back) }
    ensures { EndingsWritten own.new high.now low.now g.front g.back g.size }
{
    let front = g.front;
    let back = g.back;
    let size = g.size;
    for code in 0..size {
        let a = code / back * 4;
        let b = (front + code % back) * 4;
        let label = ending_label(high[a] + high[b], low[a] + low[b]);
        let at = code * 2;
        own[at] = label.high;
        own[at + 1] = label.low;
    }
}

// Enters the last position. `weights` has three numbers a machine; `steps`, `high` and `low` are overwritten.
pub fn enter_endings(
    own: &mut [u64],
    steps: &mut [u16],
    card: &[u8],
    counts: &[u8],
    weights: &[u64],
    width: usize,
    g: Groups,
    high: &mut [u64],
    low: &mut [u64],
)
    requires { Ready card.now counts.now weights.now own.old steps.old width g × Small steps.old × ((g.front + g.back) * 4 ≤ length high.old) × ((g.front + g.back) * 4 ≤ length low.old) }
    ensures { EndingsEntered card.now weights.now own.new }
{
    columns::fill_endings(steps, card, counts);
    let four = [0u8, 64, 64, 64];
    cells::add_four(steps, width, &four, counts, weights, g, high, low);
    write_endings(own, g, high, low);
}
