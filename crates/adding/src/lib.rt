// Cells added up. A cell is a machine's step as two numbers, high and low; the cells of some machines that follow one another add up to their joint
// step.
#![tactic(auto)]

ghost use Rattle.std.specs.Prelude.{◌≡◌, ◌^◌, ◌<◌, ◌≤◌};
ghost use Rattle.basics.specs.Words.{ℕ, length, get_or};
ghost use Rattle.adding.specs.Cells.{high_cell, low_cell};
ghost use Rattle.adding.specs.Adding.{CellsPre, CellsAt, AddCellsPre, CellsAdded, AddStatePre, StateAdded, MachinePre, MachineAdded, MachinesPre, MachinesAdded};

use basics::index;
use tables::NO_STEP;

// From here on a high number stands for nothing: no step, no label. No Option: that tables hold numbers alone is what the definitions say of them.
pub const NOWHERE: u64 = 1152921504606846976;

// A step's share of a joint step: its state times a scale, its marks times a weight.
pub fn high_cell(step: u16, scale: u64, weight: u64) -> u64
    requires { (scale ≤ 128) × (weight ≤ 2 ^ 52) }
    ensures { result ≡ high_cell scale weight step }
{
    if step == NO_STEP {
        return NOWHERE;
    }
    u64::from(step / 16) * scale + u64::from(step % 16) * weight
}

pub fn low_cell(step: u16, weight: u64) -> u64
    requires { weight ≤ 2 ^ 48 }
    ensures { result ≡ low_cell weight step }
{
    u64::from(step % 16) * weight
}

// The steps of four outputs at one place of their columns, as cells. The outputs come by value: lent, they would be read again after each number written.
fn cells_at(
    steps: &[u16],
    width: usize,
    four: [u8; 4],
    place: usize,
    scale: u64,
    upper: u64,
    lower: u64,
    high: &mut [u64],
    low: &mut [u64],
)
    requires { CellsPre steps.now four high.old low.old width place scale upper lower }
    ensures { CellsAt steps.now four high.new low.new width place scale upper lower }
{
    for j in 0..4 {
        let step = steps[index(four[j]) * width + place];
        high[j] = high_cell(step, scale, upper);
        low[j] = low_cell(step, lower);
    }
}

// Four sums more in a table, from those of a code and four cells.
fn add_cells(table: &mut [u64], from: usize, to: usize, cells: &[u64])
    requires { AddCellsPre table.old cells.now from to }
    ensures { CellsAdded table.old table.new cells.now from to }
{
    let a = from * 4;
    let first = table[a] + cells[0];
    let second = table[a + 1] + cells[1];
    let third = table[a + 2] + cells[2];
    let fourth = table[a + 3] + cells[3];
    let b = to * 4;
    table[b] = first;
    table[b + 1] = second;
    table[b + 2] = third;
    table[b + 3] = fourth;
}

// Writes the sums of a state from the code `first` on: those of the first `codes` codes with its cells.
fn add_state(table: &mut [u64], cells: &[u64], codes: usize, first: usize)
    requires { AddStatePre table.old cells.now codes first }
    ensures { StateAdded table.old table.new cells.now codes first }
{
    for code in 0..codes {
        add_cells(table, code, first + code, cells);
    }
}

// Adds a machine to those behind it, whose sums are those of the first `codes` codes. Its last state is the first, since the sums of its first
// state stand in the place of the others.
fn add_machine(
    steps: &[u16],
    width: usize,
    four: [u8; 4],
    place: usize,
    states: usize,
    codes: usize,
    scale: u64,
    upper: u64,
    lower: u64,
    high: &mut [u64],
    low: &mut [u64],
)
    requires { MachinePre steps.now four high.old low.old width place states codes scale upper lower }
    ensures { MachineAdded steps.now four high.old high.new low.old low.new width place states codes scale upper lower }
{
    let mut high_cells = [0u64; 4];
    let mut low_cells = [0u64; 4];
    for state in (0..states).rev() {
        cells_at(
            steps,
            width,
            four,
            place + state,
            scale,
            upper,
            lower,
            &mut high_cells,
            &mut low_cells,
        );
        add_state(high, &high_cells, codes, state * codes);
        add_state(low, &low_cells, codes, state * codes);
    }
}

// Writes the sums of no machine.
fn begin(table: &mut [u64])
    requires { 4 ≤ length table.old }
    ensures { (length table.new ≡ length table.old) × ((j : ℕ) → j < 4 → get_or table.new j 0 ≡ 0) }
{
    table[..4].fill(0);
}

// The joint steps with four outputs of some machines that follow one another, for each code of their states. Their places end before `end`.
// `weights` has three numbers a machine: what a state counts in a code, what a mark counts in high, and in low.
pub fn add_machines(
    steps: &[u16],
    width: usize,
    four: [u8; 4],
    end: usize,
    counts: &[u8],
    weights: &[u64],
    high: &mut [u64],
    low: &mut [u64],
)
    requires { MachinesPre steps.now four counts.now weights.now high.old low.old width end }
    ensures { MachinesAdded steps.now four counts.now weights.now high.new low.new width end }
{
    begin(high);
    begin(low);
    let mut codes = 1;
    let mut place = end;
    for m in (0..counts.len()).rev() {
        let states = index(counts[m]);
        place -= states;
        let at = 3 * m;
        add_machine(
            steps,
            width,
            four,
            place,
            states,
            codes,
            weights[at],
            weights[at + 1],
            weights[at + 2],
            high,
            low,
        );
        codes *= states;
    }
}
