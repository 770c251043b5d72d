// Violation profiles, rankings, harmonic comparison and ranking conditions.
#![tactic(auto)]

pub mod conditions;
pub mod harmony;
pub mod rankings;

ghost use Rattle.std.specs.Prelude.{◌≡◌, ◌<◌};
ghost use Rattle.basics.specs.Words.{get_or};
ghost use Rattle.ranking.specs.Profiles.{zero_profile};

// How often a candidate breaks each constraint, in card order; unused places are 0.
#[repr(C)]
#[derive(Clone, Copy)]
pub struct Profile {
    pub counts: [u16; 6],
}

impl Profile {
    // The profile of no violations: the one definition of it in code.
    pub const ZERO: Profile = Profile { counts: [0; 6] };

    pub fn zero() -> Profile
        ensures { result ≡ zero_profile }
    {
        Profile::ZERO
    }

    // The count of a machine.
    pub fn count(self, machine: usize) -> u16
        requires { machine < 6 }
        ensures { result ≡ get_or self.counts machine 0 }
    {
        self.counts[machine]
    }
}

// How one profile stands to another under a ranking: better or worse with the machine that decided, the highest ranked one where they differ, by its
// number in the card.
#[derive(Clone, Copy)]
pub enum Order {
    Better(u8),
    Equal,
    Worse(u8),
}

// What a comparison of two profiles asks of a ranking: W, the machines where the first has fewer, and L, where it has more.
// Bit i is machine i.
#[derive(Clone, Copy)]
pub struct Condition {
    pub fewer: u8,
    pub more: u8,
}
