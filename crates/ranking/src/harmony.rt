// Harmonic comparison of two profiles.
ghost use Rattle.std.specs.Prelude.{◌≡◌, ◌≤◌};
ghost use Rattle.basics.specs.Words.{true, length};
ghost use Rattle.ranking.specs.Rankings.{is_ranking};
ghost use Rattle.ranking.specs.Harmony.{harmony, compared, comparing};

use super::{Order, Profile, rankings};
use refusals::Refusal;

// How the first profile stands to the second: goes down the ranking to the highest ranked machine where they differ, which decides.
pub fn harmony(ranking: &[u8], first: Profile, second: Profile) -> Order
    requires { (is_ranking (length ranking.now) ranking.now ≡ true) × (length ranking.now ≤ 6) }
    ensures { result ≡ harmony ranking.now first.counts second.counts }
{
    for &machine in ranking {
        let one = first.count(usize::from(machine));
        let other = second.count(usize::from(machine));
        if one < other {
            return Order::Better(machine);
        }
        if other < one {
            return Order::Worse(machine);
        }
    }
    Order::Equal
}

// Compares two profiles of `machines` machines under a ranking: refusals 1 and 7.
pub fn compare(
    machines: u8,
    ranking: &[u8],
    first: Profile,
    second: Profile,
) -> Result<Order, Refusal>
    ensures { compared result ≡ comparing machines ranking.now first second }
{
    rankings::check(machines, ranking)?;
    Ok(harmony(ranking, first, second))
}
