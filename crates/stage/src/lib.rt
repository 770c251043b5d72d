// A stage of the cull at one node: what the stages before kept of its arcs and of its ending, its label, and lowering that by an arc.
#![tactic(auto)]

ghost use Rattle.std.specs.Prelude.{◌≡◌, ◌+◌, ◌*◌, ◌^◌, ◌<◌};
ghost use Rattle.basics.specs.Words.{true, eqb};
ghost use Rattle.paths.specs.Ranked.{count_at};
ghost use Rattle.tables.specs.Marks.{marks_cost};
ghost use Rattle.tables.specs.Work.{HasNode};
ghost use Rattle.stage.specs.StageLabels.{count_of};
ghost use Rattle.stage.specs.Relaxing.{counts_of, no_counts, LeftTold, NodePre, Compared, Written, Lowered, ArcPre, ArcTried};

// The marks of the constraint at a place of the ranking, of those that a number stands for. Case by case, here and in `arc_left`: as one shift and a
// loop over the places, which were tried, the cull took 10 to 20 percent more instructions.
pub fn marks_at(marks: u32, place: usize) -> u16
    requires { (marks < 16 ^ 6) × (place < 6) }
    ensures { result ≡ count_at 6 place (marks_cost marks) }
{
    if place == 0 {
        return (marks / 1048576) as u16;
    }
    let five = marks % 1048576;
    if place == 1 {
        return (five / 65536) as u16;
    }
    let four = five % 65536;
    if place == 2 {
        return (four / 4096) as u16;
    }
    let three = four % 4096;
    if place == 3 {
        return (three / 256) as u16;
    }
    let two = three % 256;
    if place == 4 {
        return (two / 16) as u16;
    }
    (two % 16) as u16
}

// Whether the marks of the constraint at a place, with the target's fewest, make the node's.
fn makes(work: &[u16], node: usize, target: usize, place: usize, marks: u32) -> bool
    requires { HasNode work.now node × HasNode work.now target × (place < 6) × (marks < 65536) }
    ensures { result ≡ eqb (count_of work.now place node) (marks + count_of work.now place target) }
{
    u32::from(work[node * 8 + 1 + place]) == marks + u32::from(work[target * 8 + 1 + place])
}

// Whether the stages before kept an arc with those marks from the node to the target: with the target's fewest marks its marks make the node's.
fn arc_left(work: &[u16], node: usize, target: usize, marks: u32, stage: usize) -> bool
    requires { HasNode work.now node × HasNode work.now target × (marks < 16 ^ 6) × (stage < 6) }
    ensures { LeftTold work.now node marks stage (counts_of work.now target) result }
{
    if stage == 0 {
        return true;
    }
    if !makes(work, node, target, 0, marks / 1048576) {
        return false;
    }
    if stage == 1 {
        return true;
    }
    if !makes(work, node, target, 1, marks % 1048576 / 65536) {
        return false;
    }
    if stage == 2 {
        return true;
    }
    if !makes(work, node, target, 2, marks % 65536 / 4096) {
        return false;
    }
    if stage == 3 {
        return true;
    }
    if !makes(work, node, target, 3, marks % 4096 / 256) {
        return false;
    }
    if stage == 4 {
        return true;
    }
    if !makes(work, node, target, 4, marks % 256 / 16) {
        return false;
    }
    true
}

// Whether the stages before kept the node's ending, which has those marks: they are the node's fewest.
pub fn ending_left(work: &[u16], node: usize, marks: u32, stage: usize) -> bool
    requires { HasNode work.now node × (marks < 16 ^ 6) × (stage < 6) }
    ensures { LeftTold work.now node marks stage no_counts result }
{
    for place in 0..stage {
        if work[node * 8 + 1 + place] != marks_at(marks, place) {
            return false;
        }
    }
    true
}

// Whether so many marks and pairs are fewer than the node's in this stage, or it has none.
fn improves(work: &[u16], node: usize, stage: usize, count: u16, pairs: u16) -> bool
    requires { NodePre work.now node stage }
    ensures { Compared work.now node stage (count, pairs) result }
{
    work[node * 8] == 0 || (count, pairs) < (work[node * 8 + 1 + stage], work[node * 8 + 7])
}

// Writes the node's marks of the stage's constraint, and the number of pairs.
fn store(work: &mut [u16], node: usize, stage: usize, count: u16, pairs: u16)
    requires { NodePre work.old node stage }
    ensures { Written work.old work.new stage node (count, pairs) }
{
    work[node * 8] = 1;
    work[node * 8 + 1 + stage] = count;
    work[node * 8 + 7] = pairs;
}

// Takes so many marks and pairs for the node, where they are fewer than its own: whether they are.
pub fn lower(work: &mut [u16], node: usize, stage: usize, count: u16, pairs: u16) -> bool
    requires { NodePre work.old node stage }
    ensures { Lowered work.old work.new stage node (count, pairs) result }
{
    if improves(work, node, stage, count, pairs) {
        store(work, node, stage, count, pairs);
        return true;
    }
    false
}

// Tries the node by an arc with those marks to the target: whether that gave it fewer marks, or fewer pairs.
pub fn try_arc(work: &mut [u16], node: usize, target: usize, marks: u32, stage: usize) -> bool
    requires { ArcPre work.old node target marks stage }
    ensures { ArcTried work.old work.new node target marks stage result }
{
    if work[target * 8] == 0 {
        return false;
    }
    if !arc_left(work, node, target, marks, stage) {
        return false;
    }
    let count = marks_at(marks, stage) + work[target * 8 + 1 + stage];
    let pairs = 1 + work[target * 8 + 7];
    lower(work, node, stage, count, pairs)
}
