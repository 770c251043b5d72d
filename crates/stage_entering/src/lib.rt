// Entering a position in a stage of the cull: trying its nodes by joint steps, four outputs at a time, and a node by its ending.
#![tactic(auto)]

ghost use Rattle.std.specs.Prelude.{◌≡◌, ◌+◌, ◌*◌, ◌≤◌, ◌<◌};
ghost use Rattle.basics.specs.Words.{length};
ghost use Rattle.tables.specs.Work.{HasNodes};
ghost use Rattle.stage.specs.Relaxing.{NodePre};
ghost use Rattle.stage.specs.StageLabels.{count_of, stage_label};
ghost use Rattle.stage_entering.specs.Entering.{marks_by, top_of, FrontCounts, BehindFront, AheadOf, LanePre, LaneTried, CodePre, LanesTried, codes_at, FourPre, CodesTried, lane_ending, EndingTried};

use cells::{Groups, NOWHERE};
use insertions::narrow;

pub mod pairs; // pairs.rt: the pairs of a card with one input, the insertions in lists

// ---- a first look at an arc

// A node's count of the constraint at a place.
fn count_at(work: &[u16], node: usize, place: usize) -> u64
    requires { NodePre work.now node place }
    ensures { (result ≡ count_of work.now place node) × (result < 65536) }
{
    u64::from(work[node * 8 + 1 + place])
}

// A node's marks in this stage, 65535 where it has no label.
fn own_count(work: &[u16], node: usize, stage: usize) -> u64
    requires { NodePre work.now node stage }
    ensures { (result ≡ top_of (stage_label work.now stage node)) × (result < 65536) }
{
    if work[node * 8] == 0 {
        return 65535;
    }
    count_at(work, node, stage)
}

// A node's counts of the first three constraints, or of those up to the stage, as one number. No match or loop: each case goes on from the one before.
fn front_counts(work: &[u16], node: usize, stage: usize) -> u64
    requires { NodePre work.now node stage }
    ensures { FrontCounts work.now stage node result }
{
    let own = own_count(work, node, stage);
    if stage == 0 {
        return own;
    }
    let first = count_at(work, node, 0) * 65536;
    if stage == 1 {
        return first + own;
    }
    let second = (first + count_at(work, node, 1)) * 65536;
    if stage == 2 {
        return second + own;
    }
    second + count_at(work, node, 2)
}

// What stands behind the marks of those constraints in the first number of a joint step, in bits.
fn behind_front(stage: usize) -> u64
    ensures { BehindFront stage result }
{
    match stage {
        0 => 40,
        1 => 24,
        _ => 8,
    }
}

// ---- the joint steps of a symbol

// The marks of a joint step by its two numbers.
fn marks_of(step: u64, rest: u64) -> u32
    ensures { result ≡ marks_by step rest }
{
    (narrow(step / 256) * 4096 + narrow(rest / 65536)) as u32
}

// Tries the node by a joint step, if it is one, to the nodes from `targets` on, whose front counts are `ahead`. The node's were `goal`: an arc that
// leads to more was dropped by a stage before, or gives no less.
fn try_lane(
    work: &mut [u16],
    ahead: &[u64; 128],
    step: u64,
    rest: u64,
    goal: u64,
    node: usize,
    targets: usize,
    stage: usize,
)
    requires { LanePre work.old ahead.now step rest goal node targets stage }
    ensures { LaneTried work.old work.new step rest node targets stage }
{
    if step >= NOWHERE {
        return;
    }
    let to = (step % 128) as usize;
    let front = (step >> behind_front(stage)) + ahead[to];
    if front > goal {
        return;
    }
    stage::try_arc(work, node, targets + to, marks_of(step, rest), stage);
}

// Tries the node by four joint steps. They are the sums of the numbers at a place of either group. Four calls, and no loop: in a loop the lanes share
// their tests, and the cull takes a fifth longer.
fn try_code(
    work: &mut [u16],
    ahead: &[u64; 128],
    high: &[u64],
    low: &[u64],
    a: usize,
    b: usize,
    node: usize,
    targets: usize,
    stage: usize,
)
    requires { CodePre work.old ahead.now high.now low.now a b node targets stage }
    ensures { LanesTried work.old work.new high.now low.now a b node targets stage 4 }
{
    let goal = front_counts(work, node, stage);
    try_lane(
        work,
        ahead,
        high[a] + high[b],
        low[a] + low[b],
        goal,
        node,
        targets,
        stage,
    );
    try_lane(
        work,
        ahead,
        high[a + 1] + high[b + 1],
        low[a + 1] + low[b + 1],
        goal,
        node,
        targets,
        stage,
    );
    try_lane(
        work,
        ahead,
        high[a + 2] + high[b + 2],
        low[a + 2] + low[b + 2],
        goal,
        node,
        targets,
        stage,
    );
    try_lane(
        work,
        ahead,
        high[a + 3] + high[b + 3],
        low[a + 3] + low[b + 3],
        goal,
        node,
        targets,
        stage,
    );
}

// A position in a stage: the machines in two groups, the first of its nodes, the stage.
#[derive(Clone, Copy)]
pub struct Site {
    pub groups: Groups,
    pub base: usize,
    pub stage: usize,
}

// Tries the nodes of a position by four outputs.
pub fn try_four(work: &mut [u16], ahead: &[u64; 128], high: &[u64], low: &[u64], at: Site)
    requires { FourPre work.old ahead.now high.now low.now at }
    ensures { CodesTried work.old work.new high.now low.now at.groups.front at.groups.back at.stage at.base (at.base + codes_at at) (codes_at at) }
{
    let g = at.groups;
    let front = g.front;
    let back = g.back;
    let base = at.base;
    let stage = at.stage;
    let size = g.size;
    for a in 0..front {
        let row = a * back;
        for b in 0..back {
            try_code(
                work,
                ahead,
                high,
                low,
                a * 4,
                (front + b) * 4,
                base + (row + b),
                base + size,
                stage,
            );
        }
    }
}

// Writes the front counts of the nodes from `targets` on.
pub fn look_ahead(work: &[u16], ahead: &mut [u64; 128], targets: usize, size: usize, stage: usize)
    requires { HasNodes work.now (targets + size) × (targets + size ≤ 3200) × (size ≤ 128) × (stage < 6) × (length ahead.old ≡ 128) }
    ensures { AheadOf work.now stage targets size ahead.new }
{
    for code in 0..size {
        ahead[code] = front_counts(work, targets + code, stage);
    }
}

// ---- endings

// Tries the node by its ending, if it has one, by the two numbers of that.
pub fn try_ending(work: &mut [u16], ending: u64, rest: u64, node: usize, stage: usize)
    requires { NodePre work.old node stage × (node < 3200) }
    ensures { EndingTried work.old work.new (lane_ending ending rest) node stage }
{
    if ending >= NOWHERE {
        return;
    }
    let marks = marks_of(ending, rest);
    if !stage::ending_left(work, node, marks, stage) {
        return;
    }
    stage::lower(work, node, stage, stage::marks_at(marks, stage), 0);
}
