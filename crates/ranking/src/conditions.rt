// Ranking conditions from two profiles.
ghost use Rattle.std.specs.Prelude.{◌≡◌, ◌≤◌};
ghost use Rattle.ranking.specs.Conditions.{fewer_in, derived, derived_from};

use super::{Condition, Profile, rankings};
use refusals::Refusal;

// The set of the machines where the first profile has fewer.
fn fewer_in(machines: u8, first: Profile, second: Profile) -> u8
    requires { machines ≤ 6 }
    ensures { result ≡ fewer_in machines first.counts second.counts }
{
    let mut set = 0;
    let mut bit: u8 = 1;
    for machine in 0..usize::from(machines) {
        if first.count(machine) < second.count(machine) {
            set += bit;
        }
        bit *= 2;
    }
    set
}

// The condition under which the first of two profiles of `machines` machines is not worse: refusal 1.
pub fn derive(machines: u8, first: Profile, second: Profile) -> Result<Condition, Refusal>
    ensures { derived result ≡ derived_from machines first second }
{
    rankings::check_machine_count(machines)?;
    Ok(Condition {
        fewer: fewer_in(machines, first, second),
        more: fewer_in(machines, second, first),
    })
}
