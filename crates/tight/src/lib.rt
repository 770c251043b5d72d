// What the walk looks for at one node: the least pair that keeps to the labels, by joint steps at the places of the states at hand and the labels that
// they lead to.
#![tactic(auto)]

ghost use Rattle.std.specs.Prelude.{◌≡◌, ◌*◌, ◌+◌, ◌^◌, ◌<◌, ◌≤◌, MatchOption};
ghost use Rattle.basics.specs.Words.{true, false, ℕ, length};
ghost use Rattle.columns.specs.Filling.{Small};
ghost use Rattle.tables.specs.Work.{HasNode};
ghost use Rattle.tight.specs.Labels.{counts_cell, sum_cell, cell_of, HasLabel};
ghost use Rattle.cells.specs.Cells.{nowhere};
ghost use Rattle.passing.specs.Places.{ColumnsPre};
ghost use Rattle.tight.specs.Joint.{WeightsFit, high_by, JointAt};
ghost use Rattle.tight.specs.Keeping.{KeepsBy, KeepsPre, LeastPre, LeastOf};

use basics::index;
use cells::{Cell, NO_LABEL};
use machine::sets;
use tables::{NO_STEP, NO_SUM};

// An output, the code that it leads to, and the label of that code.
#[derive(Clone, Copy)]
pub struct Least {
    pub output: usize,
    pub code: usize,
    pub high: u64,
    pub low: u64,
}

// Two 16-bit numbers as one.
fn both(first: u16, second: u16) -> u64
    ensures { (result ≡ first * 65536 + second) × (result < 2 ^ 32) }
{
    u64::from(first) * 65536 + u64::from(second)
}

// The label of a node by its counts.
fn counts_cell(ranked: &[u16], node: usize) -> Cell
    requires { HasNode ranked.now node × (node < 3200) }
    ensures { result ≡ counts_cell ranked.now node }
{
    let at = node * 8;
    if ranked[at] == 0 {
        return Cell {
            high: NO_LABEL,
            low: 0,
        };
    }
    let two = both(ranked[at + 1], ranked[at + 2]);
    let third = both(0, ranked[at + 3]);
    let middle = both(ranked[at + 4], ranked[at + 5]);
    let last = both(ranked[at + 6], ranked[at + 7]);
    Cell {
        high: (two * 65536 + third) * 256 + 255,
        low: middle * 4294967296 + last,
    }
}

// The label of a node by its sum.
fn sum_cell(sums: &[u64], node: usize) -> Cell
    requires { (node < length sums.now) × (node < 3200) }
    ensures { result ≡ sum_cell sums.now node }
{
    let sum = sums[node];
    if sum < NO_SUM {
        return Cell {
            high: sum / 4096 * 256 + 255,
            low: sum % 4096,
        };
    }
    Cell {
        high: NO_LABEL,
        low: 0,
    }
}

// The label of a node: by counts, or by sums where there are any.
pub fn label_at(ranked: &[u16], sums: &[u64], node: usize) -> Cell
    requires { HasLabel ranked.now sums.now node × (node < 3200) }
    ensures { result ≡ cell_of ranked.now sums.now node }
{
    if sums.is_empty() {
        return counts_cell(ranked, node);
    }
    sum_cell(sums, node)
}

// The joint step of a column at these places, where every machine takes one.
fn joint_at(
    steps: &[u16],
    width: usize,
    output: usize,
    places: &[u8],
    weights: &[u64],
) -> Option<Cell>
    requires { ColumnsPre steps.now places.now width × WeightsFit weights.now (length places.now) × (output ≤ 64) × Small steps.now }
    ensures { MatchOption result (nowhere ≤ high_by steps.now places.now weights.now width output) (λ step. (step.high < nowhere) × JointAt steps.now places.now weights.now width output step) }
{
    let mut high = 0;
    let mut low = 0;
    for (m, &place) in places.iter().enumerate() {
        let step = steps[output * width + index(place)];
        if step == NO_STEP {
            return None;
        }
        let at = 3 * m;
        high += adding::high_cell(step, weights[at], weights[at + 1]);
        low += adding::low_cell(step, weights[at + 2]);
    }
    Some(Cell { high, low })
}

// Whether a joint step keeps to the labels: the label is what the step counts, a pair, and the label that it leads to.
fn keeps(label: Cell, rest: Cell, step: Cell) -> bool
    requires { KeepsPre label rest step }
    ensures { (result ≡ true → KeepsBy label rest step.high step.low) × (result ≡ false → ¬ (KeepsBy label rest step.high step.low)) }
{
    let high = step.high;
    (rest.high + high == label.high + high % 256) & (rest.low + step.low + 1 == label.low)
}

// The least output of a set that keeps to the labels, whose nodes start at `base`.
pub fn least_tight(
    label: Cell,
    ranked: &[u16],
    sums: &[u64],
    base: usize,
    steps: &[u16],
    width: usize,
    outputs: u64,
    places: &[u8],
    weights: &[u64],
) -> Option<Least>
    requires { LeastPre label ranked.now sums.now steps.now places.now weights.now base width }
    ensures { LeastOf label ranked.now sums.now steps.now places.now weights.now base width outputs result }
{
    let mut left = outputs;
    while left > 0 {
        let output = sets::least(left);
        if let Some(step) = joint_at(steps, width, output, places, weights) {
            let code = (step.high % 256) as usize;
            let rest = label_at(ranked, sums, base + code);
            if keeps(label, rest, step) {
                return Some(Least {
                    output,
                    code,
                    high: rest.high,
                    low: rest.low,
                });
            }
        }
        left = sets::without_least(left);
    }
    None
}
