// Labels of nodes in a lent slice.
ghost use Rattle.std.specs.Prelude.{◌≡◌};
ghost use Rattle.tables.specs.LabelCost.{cost_of};
ghost use Rattle.tables.specs.Work.{HasNode, cost_at, Reached};

// The cost of a path: six counts in ranked order, the highest ranked first, and the number of pairs.
#[derive(Clone, Copy)]
pub struct Label {
    pub first: u16,
    pub second: u16,
    pub third: u16,
    pub fourth: u16,
    pub fifth: u16,
    pub sixth: u16,
    pub pairs: u16,
}

// Whether the node has a label.
pub fn reached(work: &[u16], node: usize) -> bool
    requires { HasNode work.now node }
    ensures { Reached work.now node result }
{
    work[node * 8] != 0
}

// The node's label, where it has one.
pub fn load(work: &[u16], node: usize) -> Label
    requires { HasNode work.now node }
    ensures { cost_of result ≡ cost_at work.now node }
{
    Label {
        first: work[node * 8 + 1],
        second: work[node * 8 + 2],
        third: work[node * 8 + 3],
        fourth: work[node * 8 + 4],
        fifth: work[node * 8 + 5],
        sixth: work[node * 8 + 6],
        pairs: work[node * 8 + 7],
    }
}
