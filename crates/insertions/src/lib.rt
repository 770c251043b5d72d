// The insertions of the outputs worth trying, in lists by the code that they lead to: counted first, then written, both times in the same order.
#![tactic(auto)]

ghost use Rattle.std.specs.Prelude.{◌≡◌, ◌+◌, ◌*◌, ◌^◌, ◌<◌, ◌≤◌};
ghost use Rattle.basics.specs.Words.{[], length, get_or};
ghost use Rattle.insertions.specs.Lanes.{lane_of, is_move, list_of, narrowed, entry_of, bump, put, bumped, placed};
ghost use Rattle.insertions.specs.Tables.{code_lane, four_lane, lanes_from, CountRoom, EntryRoom, LanesPre, TablePre};
ghost use Rattle.insertions.specs.Listing.{AddPre, AddedUp, FilledOn, ListPre, Counted, ListedBy};

use cells::{Groups, NOWHERE, fours};

// In an entry the code that an insertion leads from stands in front of its marks, which are below this number.
const MARKS: u32 = 16777216;

// In the high number of a step the marks of the first place stand from here on.
const FIRST: u64 = 1099511627776;

// Three counts below 16 from 16 bits each to four bits each.
pub fn narrow(three: u64) -> u64
    requires { three < 2 ^ 56 }
    ensures { result ≡ narrowed three }
{
    (three + three / 4096 + three / 16777216) % 4096
}

// Whether a step is one, and leads from the code to another one.
fn moves(code: usize, step: u64) -> bool
    ensures { result ≡ is_move code step }
{
    (step < NOWHERE) & (step % 128 != code as u64)
}

// The list of an insertion: by the code led to, and by the marks of the first place, three or more in one.
fn list_of(step: u64) -> usize
    ensures { (result ≡ list_of step) × (result < 512) }
{
    (step % 128 * 4 + u64::min(step / FIRST, 3)) as usize
}

// An insertion as an entry of a list.
fn entry_of(code: usize, step: u64, rest: u64) -> u32
    requires { code < 128 }
    ensures { result ≡ entry_of code step rest }
{
    code as u32 * MARKS + (narrow(step / 256) * 4096 + narrow(rest / 65536)) as u32
}

// Counts a step, if it is an insertion to be listed, two places behind its list.
fn count_lane(ends: &mut [u16; 514], code: usize, step: u64)
    requires { CountRoom ends.old 1 }
    ensures { ends.new ≡ bump 2 (lane_of code step 0) ends.old }
{
    if moves(code, step) {
        let at = list_of(step) + 2;
        ends[at] += 1;
    }
}

// Counts the insertions from a code with four outputs. The steps are the sums of those at a place of either group.
// This walk and the one of `list_code` are two: one that takes a closure would have a contract with the room that each step asks for and leaves, no plainer.
fn count_code(ends: &mut [u16; 514], code: usize, high: &[u64], a: usize, b: usize)
    requires { CountRoom ends.old 4 × LanesPre high.now a b }
    ensures { ends.new ≡ bumped 2 (code_lane high.now [] code a b) 4 ends.old }
{
    for j in 0..4 {
        count_lane(ends, code, high[a + j] + high[b + j]);
    }
}

// Counts the insertions of a front code with four outputs.
fn count_row(ends: &mut [u16; 514], front: usize, back: usize, high: &[u64], a: usize)
    requires { CountRoom ends.old (back * 4) × TablePre high.now front back × (a < front) }
    ensures { ends.new ≡ bumped 2 (lanes_from high.now [] front back (a * back)) (back * 4) ends.old }
{
    let first = a * back;
    for b in 0..back {
        count_code(ends, first + b, high, a * 4, (front + b) * 4);
    }
}

// Counts the insertions with four outputs.
fn count_four(ends: &mut [u16; 514], front: usize, back: usize, high: &[u64])
    requires { CountRoom ends.old (front * back * 4) × TablePre high.now front back }
    ensures { ends.new ≡ bumped 2 (four_lane high.now [] front back) (front * back * 4) ends.old }
{
    for a in 0..front {
        count_row(ends, front, back, high, a);
    }
}

// Adds up the counts before a place: where a list starts, one place behind it.
fn add_up(ends: &mut [u16; 514], last: usize)
    requires { AddPre ends.old last }
    ensures { AddedUp ends.old ends.new last }
{
    for i in 1..last {
        ends[i] += ends[i - 1];
    }
}

// Writes the number before a place there and behind it: the lists of codes that there are not are empty.
fn fill_on(ends: &mut [u16; 514], first: usize)
    requires { (length ends.old ≡ 514) × (1 ≤ first) × (first ≤ 514) }
    ensures { FilledOn ends.old ends.new first }
{
    let end = ends[first - 1];
    ends[first..].fill(end);
}

// Counts the insertions of the kept outputs by their lists: where each list starts, one place behind it. How many there are. `high` and `low` are lent,
// and overwritten.
pub fn count(
    ends: &mut [u16; 514],
    steps: &[u16],
    kept: u64,
    width: usize,
    counts: &[u8],
    weights: &[u64],
    g: Groups,
    high: &mut [u64],
    low: &mut [u64],
) -> usize
    requires { (length ends.old ≡ 514) × ListPre steps.now counts.now weights.now width kept g × ((g.front + g.back) * 4 ≤ length high.old) × ((g.front + g.back) * 4 ≤ length low.old) }
    ensures { Counted steps.now counts.now weights.now width kept ends.new × (result ≡ get_or ends.new 513 0) }
{
    ends.fill(0);
    let front = g.front;
    let back = g.back;
    let mut left = kept;
    while left > 0 {
        let four = fours::next_four(left);
        cells::add_four(steps, width, &four, counts, weights, g, high, low);
        count_four(ends, front, back, high);
        left = fours::without_four(left);
    }
    let lists = g.size * 4 + 2;
    add_up(ends, lists);
    fill_on(ends, lists);
    usize::from(ends[513])
}

// Writes a step, if it is an insertion to be listed, behind those of its list.
fn list_lane(entries: &mut [u32], ends: &mut [u16; 514], code: usize, step: u64, rest: u64)
    requires { EntryRoom (λ _. lane_of code step rest) 1 entries.old ends.old }
    ensures { (entries.new ≡ put (lane_of code step rest) entries.old ends.old) × (ends.new ≡ bump 1 (lane_of code step rest) ends.old) }
{
    if moves(code, step) {
        let at = list_of(step) + 1;
        let place = ends[at];
        entries[usize::from(place)] = entry_of(code, step, rest);
        ends[at] = place + 1;
    }
}

// Writes the insertions from a code with four outputs.
fn list_code(
    entries: &mut [u32],
    ends: &mut [u16; 514],
    code: usize,
    high: &[u64],
    low: &[u64],
    a: usize,
    b: usize,
)
    requires { EntryRoom (code_lane high.now low.now code a b) 4 entries.old ends.old × LanesPre high.now a b × LanesPre low.now a b }
    ensures { (entries.new ≡ placed (code_lane high.now low.now code a b) 4 entries.old ends.old) × (ends.new ≡ bumped 1 (code_lane high.now low.now code a b) 4 ends.old) }
{
    for j in 0..4 {
        list_lane(
            entries,
            ends,
            code,
            high[a + j] + high[b + j],
            low[a + j] + low[b + j],
        );
    }
}

// Writes the insertions of a front code with four outputs.
fn list_row(
    entries: &mut [u32],
    ends: &mut [u16; 514],
    front: usize,
    back: usize,
    high: &[u64],
    low: &[u64],
    a: usize,
)
    requires { EntryRoom (lanes_from high.now low.now front back (a * back)) (back * 4) entries.old ends.old × TablePre high.now front back × TablePre low.now front back × (a < front) }
    ensures { (entries.new ≡ placed (lanes_from high.now low.now front back (a * back)) (back * 4) entries.old ends.old) × (ends.new ≡ bumped 1 (lanes_from high.now low.now front back (a * back)) (back * 4) ends.old) }
{
    let first = a * back;
    for b in 0..back {
        list_code(entries, ends, first + b, high, low, a * 4, (front + b) * 4);
    }
}

// Writes the insertions with four outputs.
fn list_four(
    entries: &mut [u32],
    ends: &mut [u16; 514],
    front: usize,
    back: usize,
    high: &[u64],
    low: &[u64],
)
    requires { EntryRoom (four_lane high.now low.now front back) (front * back * 4) entries.old ends.old × TablePre high.now front back × TablePre low.now front back }
    ensures { (entries.new ≡ placed (four_lane high.now low.now front back) (front * back * 4) entries.old ends.old) × (ends.new ≡ bumped 1 (four_lane high.now low.now front back) (front * back * 4) ends.old) }
{
    for a in 0..front {
        list_row(entries, ends, front, back, high, low, a);
    }
}

// Writes the insertions of the kept outputs in their lists, which are counted: those of the list l from ends[l] on and before ends[l + 1]. `high` and
// `low` are lent as above.
pub fn list(
    entries: &mut [u32],
    ends: &mut [u16; 514],
    steps: &[u16],
    kept: u64,
    width: usize,
    counts: &[u8],
    weights: &[u64],
    g: Groups,
    high: &mut [u64],
    low: &mut [u64],
)
    requires { ListPre steps.now counts.now weights.now width kept g × Counted steps.now counts.now weights.now width kept ends.old × (get_or ends.old 513 0 ≤ length entries.old) × ((g.front + g.back) * 4 ≤ length high.old) × ((g.front + g.back) * 4 ≤ length low.old) }
    ensures { ListedBy steps.now counts.now weights.now width kept entries.new ends.new }
{
    let front = g.front;
    let back = g.back;
    let mut left = kept;
    while left > 0 {
        let four = fours::next_four(left);
        cells::add_four(steps, width, &four, counts, weights, g, high, low);
        list_four(entries, ends, front, back, high, low);
        left = fours::without_four(left);
    }
}
