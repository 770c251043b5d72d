// Settling a position in a stage of the cull: its labels fall by insertions until none falls.
#![tactic(auto)]

ghost use Rattle.std.specs.Prelude.{◌≡◌, ◌<◌, MatchOption};
ghost use Rattle.basics.specs.Words.{false, true, ℕ};
ghost use Rattle.tables.specs.Work.{HasNode};
ghost use Rattle.settling.specs.OpenCodes.{OneIn, is_open};
ghost use Rattle.stage.specs.Relaxing.{NodePre};
ghost use Rattle.stage_settling.specs.Settling.{OpenIn, SomeIn, EntryPre, EntryTried, SettlePre, SpreadPre, Spread, Taken, SettledBy};

use settling::{first_open, is_open, put, take};

// In an entry of a list of insertions the code that one leads from stands in front of its marks, four bits a place of the ranking.
const MARKS: u32 = 16777216;

// Whether the marks and the pairs of the node a are fewer than those of b, both labelled.
fn is_before(work: &[u16], a: usize, b: usize, stage: usize) -> bool
    requires { NodePre work.now a stage × HasNode work.now b }
{
    (work[a * 8 + 1 + stage], work[a * 8 + 7]) < (work[b * 8 + 1 + stage], work[b * 8 + 7])
}

// A code of one half of the open ones, which is not empty; one with the fewest marks, and then pairs. The like in settling reads labels of another
// form: one function for both would take a closure, with needs of its own for every code, and be no plainer.
fn choose_in(work: &[u16], set: u64, first: usize, base: usize, stage: usize) -> usize
    requires { (0 < set) × SomeIn work.now set first base × (stage < 6) }
    ensures { OneIn set first result }
{
    let mut best = first + machine::sets::least(set);
    let mut left = machine::sets::without_least(set);
    while left > 0 {
        let code = first + machine::sets::least(left);
        if is_before(work, base + code, base + best, stage) {
            best = code;
        }
        left = machine::sets::without_least(left);
    }
    best
}

// An open code, if one is open. Which one matters to the time alone: one with the fewest marks is not taken twice.
fn choose(work: &[u16], opened: &[u64; 2], base: usize, stage: usize) -> Option<usize>
    requires { OpenIn work.now opened.now base × (stage < 6) }
    ensures { MatchOption result ((w : ℕ) → is_open opened.now w ≡ false) (λ code. is_open opened.now code ≡ true) }
{
    let front = opened[0];
    let back = opened[1];
    if front == 0 {
        if back == 0 {
            return None;
        }
        return Some(choose_in(work, back, 64, base, stage));
    }
    let best = choose_in(work, front, 0, base, stage);
    if back == 0 {
        return Some(best);
    }
    let other = choose_in(work, back, 64, base, stage);
    if is_before(work, base + other, base + best, stage) {
        return Some(other);
    }
    Some(best)
}

// Tries the code of an entry by it, an insertion to the code `to`: where that gives it less it is open.
fn try_entry(
    work: &mut [u16],
    opened: &mut [u64; 2],
    entry: u32,
    base: usize,
    to: usize,
    stage: usize,
)
    requires { EntryPre work.old opened.old entry stage base to }
    ensures { EntryTried work.old work.new opened.old opened.new entry stage base to }
{
    let from = (entry / MARKS) as usize;
    if stage::try_arc(work, base + from, base + to, entry % MARKS, stage) {
        put(opened, from);
    }
}

// Tries the insertions to one code.
fn spread(
    work: &mut [u16],
    opened: &mut [u64; 2],
    entries: &[u32],
    ends: &[u16; 514],
    base: usize,
    to: usize,
    stage: usize,
)
    requires { SpreadPre work.old opened.old entries.now ends.now stage base to }
    ensures { Spread work.old work.new opened.old opened.new entries.now ends.now stage base to }
{
    let start = usize::from(ends[4 * to]);
    let end = usize::from(ends[4 * to + 4]);
    for at in start..end {
        try_entry(work, opened, entries[at], base, to, stage);
    }
}

// Closes a code, and tries the insertions to it.
fn take_one(
    work: &mut [u16],
    opened: &mut [u64; 2],
    entries: &[u32],
    ends: &[u16; 514],
    base: usize,
    code: usize,
    stage: usize,
)
    requires { SpreadPre work.old opened.old entries.now ends.now stage base code }
    ensures { Taken work.old work.new opened.old opened.new entries.now ends.now stage base code }
{
    take(opened, code);
    spread(work, opened, entries, ends, base, code, stage);
}

// Tries the nodes of a position by insertions in lists, until none is given less: those to every code once, from the last to
// the first; those to the codes that are then open, from the first to the last; and the rest by their labels.
pub fn settle(
    work: &mut [u16],
    entries: &[u32],
    ends: &[u16; 514],
    base: usize,
    size: usize,
    stage: usize,
)
    requires { SettlePre work.old entries.now ends.now stage base size }
    ensures { SettledBy work.old work.new entries.now ends.now stage base size }
{
    let mut opened = [0u64; 2];
    for last in (0..size).rev() {
        take_one(work, &mut opened, entries, ends, base, last, stage);
    }
    for next in first_open(&opened)..size {
        if is_open(&opened, next) {
            take_one(work, &mut opened, entries, ends, base, next, stage);
        }
    }
    while let Some(code) = choose(work, &opened, base, stage) {
        take_one(work, &mut opened, entries, ends, base, code, stage);
    }
}
