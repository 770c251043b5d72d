// A lesson's tally: how its lines are counted, and the sums of their counts.
#![tactic(auto)]

ghost use Rattle.std.specs.Prelude.{◌≡◌, ◌+◌, ◌<◌, ◌≤◌};
ghost use Rattle.std.proofs.Math.Option.{some, none};
ghost use Rattle.tally.specs.Tally.{told, no_lines, counted, is_full, passed, Fits};

// What a lesson's lines come to: how many were answered, how many refused, of each machine the sum of its counts in the answered
// lines, and whether a line past the thousandth has come: a fact of its own, and no sign of another field.
#[derive(Clone, Copy)]
pub struct Tally {
    pub answered: u32,
    pub refused: u32,
    pub totals: [u32; 6],
    pub past: bool,
}

// What a line's answer is: the length of what is printed for it, and its counts; none where it was refused.
#[derive(Clone, Copy)]
pub struct Reply {
    pub size: usize,
    pub counts: Option<[u16; 6]>,
}

fn plus(total: u32, count: u16) -> u32
    requires { total ≤ 65469465 }
    ensures { (result ≡ total + count) × (result ≤ total + 65535) }
{
    total + u32::from(count)
}

impl Tally {
    // No line yet.
    pub fn none() -> Tally
        ensures { (result ≡ no_lines) × Fits result }
    {
        let totals = [0u32; 6];
        Tally {
            answered: 0,
            refused: 0,
            totals,
            past: false,
        }
    }

    // Whether a thousand lines are counted.
    pub fn is_full(self) -> bool
        requires { Fits self }
        ensures { result ≡ is_full self }
    {
        1000 <= self.answered + self.refused
    }

    // A line past the thousandth has come: it is not counted.
    pub fn passed(self) -> Tally
        requires { Fits self }
        ensures { (result ≡ passed self) × Fits result }
    {
        let totals = self.totals;
        Tally {
            answered: self.answered,
            refused: self.refused,
            totals,
            past: true,
        }
    }

    // A line that was refused.
    fn refuse(self) -> Tally
        requires { Fits self × (self.answered + self.refused < 1000) }
        ensures { (result ≡ counted self none) × Fits result }
    {
        let totals = self.totals;
        Tally {
            answered: self.answered,
            refused: self.refused + 1,
            totals,
            past: self.past,
        }
    }

    // A line that was answered: its counts are added to the totals.
    fn answer(self, counts: [u16; 6]) -> Tally
        requires { Fits self × (self.answered + self.refused < 1000) }
        ensures { (result ≡ counted self (some counts)) × Fits result }
    {
        let before = self.totals;
        let totals = [
            plus(before[0], counts[0]),
            plus(before[1], counts[1]),
            plus(before[2], counts[2]),
            plus(before[3], counts[3]),
            plus(before[4], counts[4]),
            plus(before[5], counts[5]),
        ];
        Tally {
            answered: self.answered + 1,
            refused: self.refused,
            totals,
            past: self.past,
        }
    }

    // One line more, answered or refused.
    pub fn count(self, reply: Reply) -> Tally
        requires { Fits self × (self.answered + self.refused < 1000) }
        ensures { (result ≡ counted self (told reply.counts)) × Fits result }
    {
        match reply.counts {
            Some(counts) => self.answer(counts),
            None => self.refuse(),
        }
    }
}
