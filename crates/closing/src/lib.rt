// Closing a position: its labels are written into a work slice, as ranked counts or as a sum, and become those of the next position.
#![tactic(auto)]

ghost use Rattle.std.specs.Prelude.{◌≡◌, ◌^◌, ◌<◌};
ghost use Rattle.tables.specs.Work.{HasNode};
ghost use Rattle.cells.specs.Cells.{nowhere};
ghost use Rattle.closing.specs.Closing.{or_none, sum_of, CountsPre, CountsClosed, SumsPre, SumsClosed, CountsStored, PassPre, Passed, PassAllPre, AllPassed};

use cells::{Cell, NO_LABEL, NOWHERE};

// Writes a label at a node: 1 and its seven counts, 16 bits each; 0 where there is none.
fn store(work: &mut [u16], node: usize, high: u64, low: u64)
    requires { HasNode work.old node × (high < nowhere → high < 2 ^ 56) }
    ensures { CountsStored work.old work.new node high low }
{
    if NOWHERE <= high {
        work[node * 8] = 0;
        return;
    }
    let three = high / 256;
    let two = three / 65536;
    let back = low / 65536;
    let middle = back / 65536;
    work[node * 8] = 1;
    work[node * 8 + 1] = (two / 65536) as u16;
    work[node * 8 + 2] = (two % 65536) as u16;
    work[node * 8 + 3] = (three % 65536) as u16;
    work[node * 8 + 4] = (middle / 65536) as u16;
    work[node * 8 + 5] = (middle % 65536) as u16;
    work[node * 8 + 6] = (back % 65536) as u16;
    work[node * 8 + 7] = (low % 65536) as u16;
}

// The label, or NO_LABEL and 0: what settling leaves from NOWHERE on stands for none.
fn or_none(high: u64, low: u64) -> Cell
    ensures { result ≡ or_none (record { high = high; low = low }) }
{
    if high < NOWHERE {
        return Cell { high, low };
    }
    Cell {
        high: NO_LABEL,
        low: 0,
    }
}

// Makes the code's label one of the next position, where the code is taken off, and takes it away.
fn pass_on(own: &mut [u64; 256], next: &mut [u64; 256], code: usize)
    requires { PassPre own.old next.old code }
    ensures { Passed own.old own.new next.old next.new code }
{
    let at = code * 2;
    let label = or_none(own[at], own[at + 1]);
    next[at] = label.high - code as u64;
    next[at + 1] = label.low;
    own[at] = NO_LABEL;
    own[at + 1] = 0;
}

// Makes the labels of a position those of the next one, and takes them away.
pub fn pass_all(own: &mut [u64; 256], next: &mut [u64; 256], size: usize)
    requires { PassAllPre own.old next.old size }
    ensures { AllPassed own.old own.new next.old next.new size }
{
    for code in 0..size {
        pass_on(own, next, code);
    }
}

// Closes the position of the size nodes from base on, in counts.
pub fn close_counts(
    work: &mut [u16],
    base: usize,
    size: usize,
    own: &mut [u64; 256],
    next: &mut [u64; 256],
)
    requires { CountsPre work.old own.old base size × PassAllPre own.old next.old size }
    ensures { CountsClosed work.old work.new own.old base size × AllPassed own.old own.new next.old next.new size }
{
    for code in 0..size {
        store(work, base + code, own[code * 2], own[code * 2 + 1]);
    }
    pass_all(own, next, size);
}

// The sum of a label by weights, times 4,096, and its pairs; all bits set where there is none.
fn sum_of(high: u64, low: u64) -> u64
    requires { high < nowhere → (high < 2 ^ 59) × (low < 4096) }
    ensures { result ≡ sum_of (record { high = high; low = low }) }
{
    if NOWHERE <= high {
        return tables::NO_SUM;
    }
    high / 256 * 4096 + low
}

// Closes the position of the size nodes from base on, in sums.
pub fn close_sums(
    work: &mut [u64],
    base: usize,
    size: usize,
    own: &mut [u64; 256],
    next: &mut [u64; 256],
)
    requires { SumsPre work.old own.old base size × PassAllPre own.old next.old size }
    ensures { SumsClosed work.old work.new own.old base size × AllPassed own.old own.new next.old next.new size }
{
    for code in 0..size {
        work[base + code] = sum_of(own[code * 2], own[code * 2 + 1]);
    }
    pass_all(own, next, size);
}
