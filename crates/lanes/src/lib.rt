// Trying four outputs at a time, a lane each: the labels of a position are lowered to the least that their joint steps and the labels of the next
// position give.
#![tactic(auto)]

ghost use Rattle.std.specs.Prelude.{◌≡◌, ◌+◌, ◌*◌, ◌<◌, ◌≤◌};
ghost use Rattle.basics.specs.Words.{false, ℕ, length, get_or};
ghost use Rattle.cells.specs.Cells.{nowhere};
ghost use Rattle.lanes.specs.Trying.{lesser, way_of, LanePre, CodePre, CodeTried, TryPre, TriedIn, SkipPre};

use cells::{Cell, NOWHERE};

// The lesser of a label and of a step with the label of the next position that it leads to. The step is the sum of those at a place of either group.
fn try_lane(label: Cell, next: &[u64; 256], high: &[u64], low: &[u64], a: usize, b: usize) -> Cell
    requires { LanePre next.now high.now low.now a b }
    ensures { result ≡ lesser (way_of next.now high.now low.now a b) label }
{
    let step = high[a] + high[b];
    let to = (step % 128 * 2) as usize;
    let way = step + next[to];
    let least = label.high;
    if least < way {
        return label;
    }
    let rest = low[a] + low[b] + next[to + 1] + 1;
    if way < least {
        return Cell {
            high: way,
            low: rest,
        };
    }
    let lowest = label.low;
    if rest < lowest {
        return Cell {
            high: way,
            low: rest,
        };
    }
    label
}

// Tries a code by four outputs: its label is lowered by a step and a label of the next position.
fn try_code(
    own: &mut [u64],
    next: &[u64; 256],
    code: usize,
    high: &[u64],
    low: &[u64],
    a: usize,
    b: usize,
)
    requires { CodePre own.old next.now high.now low.now code a b }
    ensures { CodeTried own.old own.new next.now high.now low.now code a b }
{
    let at = code * 2;
    let mut label = Cell {
        high: own[at],
        low: own[at + 1],
    };
    for j in 0..4 {
        label = try_lane(label, next, high, low, a + j, b + j);
    }
    own[at] = label.high;
    own[at + 1] = label.low;
}

// Tries the codes of a front code by four outputs.
fn try_row(
    own: &mut [u64],
    next: &[u64; 256],
    front: usize,
    back: usize,
    high: &[u64],
    low: &[u64],
    a: usize,
)
    requires { TryPre own.old next.now high.now low.now front back × (a < front) }
    ensures { TriedIn own.old own.new next.now high.now low.now front back (a * back) (a * back + back) }
{
    let first = a * back;
    let at = a * 4;
    for b in 0..back {
        try_code(own, next, first + b, high, low, at, (front + b) * 4);
    }
}

// Whether one of four numbers is a step.
fn any_step(high: &[u64], at: usize) -> bool
    requires { (at < 65536) × (at + 4 ≤ length high.now) }
    ensures { result ≡ false → (j : ℕ) → j < 4 → nowhere ≤ get_or high.now (at + j) 0 }
{
    high[at..at + 4].iter().any(|number| *number < NOWHERE)
}

// Tries the codes of a front code by four outputs, if something leads on from there.
fn try_front(
    own: &mut [u64],
    next: &[u64; 256],
    front: usize,
    back: usize,
    high: &[u64],
    low: &[u64],
    a: usize,
)
    requires { TryPre own.old next.now high.now low.now front back × (a < front) × SkipPre own.old next.now high.now front back (a * back) (a * back + back) }
    ensures { TriedIn own.old own.new next.now high.now low.now front back (a * back) (a * back + back) }
{
    if any_step(high, a * 4) {
        try_row(own, next, front, back, high, low, a);
    }
}

// Tries every code of a position by four outputs.
pub fn try_four(
    own: &mut [u64],
    next: &[u64; 256],
    front: usize,
    back: usize,
    high: &[u64],
    low: &[u64],
)
    requires { TryPre own.old next.now high.now low.now front back × SkipPre own.old next.now high.now front back 0 (front * back) }
    ensures { TriedIn own.old own.new next.now high.now low.now front back 0 (front * back) }
{
    for a in 0..front {
        try_front(own, next, front, back, high, low, a);
    }
}
