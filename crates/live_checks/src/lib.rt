// The checks of the live tableau's calls, and whether a row takes the lead.
#![tactic(auto)]

ghost use Rattle.std.specs.Prelude.{◌≡◌, ◌∷◌, ◌≤◌};
ghost use Rattle.basics.specs.Words.{true, not, [], length, eqb};
ghost use Rattle.refusals.specs.Refusals.{checked_number, refuse, first_of};
ghost use Rattle.ranking.specs.Rankings.{is_machine_count, is_ranking};
ghost use Rattle.ranking.specs.Harmony.{better};
ghost use Rattle.live_checks.specs.Room.{fits, has_room};

use ranking::{Order, Profile, harmony, rankings};
use refusals::{Refusal, tested};

// Whether a row takes the lead from one that arrived earlier: its profile is better under the ranking.
pub fn takes_lead(ranking: &[u8], profile: Profile, best: Profile) -> bool
    requires { (is_ranking (length ranking.now) ranking.now ≡ true) × (length ranking.now ≤ 6) }
    ensures { result ≡ better ranking.now profile.counts best.counts }
{
    let order = harmony::harmony(ranking, profile, best);
    match order {
        Order::Better(_) => true,
        Order::Equal => false,
        Order::Worse(_) => false,
    }
}

// The checks 1, 7 and 23, the test of the last of which is handed in.
fn check(machines: u8, ranking: &[u8], sound: bool) -> Result<(), Refusal>
    ensures { checked_number result ≡ first_of (refuse 1 (is_machine_count machines) ∷ refuse 7 (is_ranking machines ranking.now) ∷ refuse 23 sound ∷ []) }
{
    rankings::check(machines, ranking)?;
    tested(sound, Refusal::RowCount)
}

// The checks 1, 7 and 23 of a removal and of the leader's call.
pub fn check_rows(machines: u8, ranking: &[u8], count: usize, length: usize) -> Result<(), Refusal>
    ensures { checked_number result ≡ first_of (refuse 1 (is_machine_count machines) ∷ refuse 7 (is_ranking machines ranking.now) ∷ refuse 23 (fits count length) ∷ []) }
{
    check(machines, ranking, (count <= 32) & (count <= length))
}

// The checks 1, 7 and 23 of an add.
pub fn check_room(machines: u8, ranking: &[u8], count: usize, length: usize) -> Result<(), Refusal>
    ensures { checked_number result ≡ first_of (refuse 1 (is_machine_count machines) ∷ refuse 7 (is_ranking machines ranking.now) ∷ refuse 23 (has_room count length) ∷ []) }
{
    check(machines, ranking, (count < 32) & (count < length))
}

// Refusal 24 of an add: its id stands at no place among the rows.
pub fn check_absent(at: usize, count: usize) -> Result<(), Refusal>
    ensures { checked_number result ≡ refuse 24 (eqb at count) }
{
    tested(at == count, Refusal::Presence)
}

// Refusal 24 of a removal: its id stands at a place among the rows.
pub fn check_present(at: usize, count: usize) -> Result<(), Refusal>
    ensures { checked_number result ≡ refuse 24 (not (eqb at count)) }
{
    tested(at != count, Refusal::Presence)
}
