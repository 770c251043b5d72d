// The smallest ranking that fits a list of ranking conditions, by recursive constraint demotion.
#![tactic(auto)]

ghost use Rattle.std.specs.Prelude.{◌≡◌, ◌∷◌, ◌+◌, ◌<◌, ◌≤◌, ◌%◌};
ghost use Rattle.basics.specs.Words.{true, [], length, member};
ghost use Rattle.refusals.specs.Refusals.{refuse, first_of, checked_number};
ghost use Rattle.ranking.specs.Rankings.{is_machine_count};
ghost use Rattle.finder.specs.Finder.{disjoint, sound_condition, sound_list, conditions_of, smallest, found, finding_of, finding};
ghost use Rattle.finder.specs.Steps.{condition_at, blocks, may_stand, next_machine, next_of};

use ranking::{Condition, rankings};
use refusals::Refusal;

// What finding a ranking answers, as one record: the refusal's number, 0 where there is none, and the ranking, places from K on 0.
#[derive(Clone, Copy)]
pub struct Finding {
    pub number: u8,
    pub ranking: [u8; 6],
}

impl From<Result<[u8; 6], Refusal>> for Finding {
    ghost from_gives = { λ answer finding. finding ≡ found answer };

    fn from(answer: Result<[u8; 6], Refusal>) -> Finding
        ensures { result ≡ found answer }
    {
        match answer {
            Ok(ranking) => Finding { number: 0, ranking },
            Err(refusal) => Finding {
                number: u8::from(refusal),
                ranking: [0; 6],
            },
        }
    }
}

// Whether a machine is in a set.
fn has(set: u8, machine: u8) -> bool
    requires { machine < 8 }
    ensures { result ≡ member set machine }
{
    (set >> machine) % 2 == 1
}

// Whether two sets have no machine in common.
fn disjoint(a: u8, b: u8) -> bool
    ensures { result ≡ disjoint a b }
{
    a & b == 0
}

// The condition whose bytes stand at a place of a list, W before L.
fn condition_at(conditions: &[u8], at: usize) -> Condition
    requires { at + 1 < length conditions.now }
    ensures { result ≡ condition_at conditions.now at }
{
    Condition {
        fewer: conditions[at],
        more: conditions[at + 1],
    }
}

// Whether a condition's sets are disjoint and hold machines below `machines` alone.
fn sound(machines: u8, condition: Condition) -> bool
    requires { machines < 8 }
    ensures { result ≡ sound_condition machines condition }
{
    disjoint(condition.fewer, condition.more)
        & (condition.fewer >> machines == 0)
        & (condition.more >> machines == 0)
}

// Whether a condition keeps a machine from the next place: it is in L, and no machine placed is in W.
fn blocks(condition: Condition, placed: u8, machine: u8) -> bool
    requires { machine < 8 }
    ensures { result ≡ blocks placed machine condition }
{
    disjoint(condition.fewer, placed) & has(condition.more, machine)
}

// Refusal 15: whether the list is even, of at most 64 pairs, and sound in each.
fn check_conditions(machines: u8, conditions: &[u8]) -> Result<(), Refusal>
    requires { machines < 8 }
    ensures { checked_number result ≡ refuse 15 (sound_list machines conditions.now) }
{
    if conditions.len() % 2 != 0 {
        return Err(Refusal::Conditions);
    }
    if conditions.len() > 128 {
        return Err(Refusal::Conditions);
    }
    for i in 0..conditions.len() / 2 {
        if !sound(machines, condition_at(conditions, 2 * i)) {
            return Err(Refusal::Conditions);
        }
    }
    Ok(())
}

// Refusals 1 and 15.
fn check(machines: u8, conditions: &[u8]) -> Result<(), Refusal>
    ensures { checked_number result ≡ first_of (refuse 1 (is_machine_count machines) ∷ refuse 15 (sound_list machines conditions.now) ∷ []) }
{
    rankings::check_machine_count(machines)?;
    check_conditions(machines, conditions)
}

// Whether no condition keeps a machine from the next place.
fn may_stand(conditions: &[u8], placed: u8, machine: u8) -> bool
    requires { (length conditions.now % 2 ≡ 0) × (machine < 8) }
    ensures { result ≡ may_stand (conditions_of conditions.now) placed machine }
{
    for i in 0..conditions.len() / 2 {
        if blocks(condition_at(conditions, 2 * i), placed, machine) {
            return false;
        }
    }
    true
}

// The smallest machine that is not placed and may stand at the next place.
fn next_machine(machines: u8, conditions: &[u8], placed: u8) -> Option<u8>
    requires { (length conditions.now % 2 ≡ 0) × (machines < 8) }
    ensures { next_of result ≡ next_machine machines (conditions_of conditions.now) placed }
{
    for machine in 0..machines {
        if !has(placed, machine) & may_stand(conditions, placed, machine) {
            return Some(machine);
        }
    }
    None
}

// Fills the places from the highest down: refusal 16 where no machine may stand at one.
fn rank(machines: u8, conditions: &[u8]) -> Result<[u8; 6], Refusal>
    requires { (machines ≤ 6) × (sound_list machines conditions.now ≡ true) }
    ensures { found result ≡ finding_of machines (smallest machines (conditions_of conditions.now)) }
{
    let mut ranking = [0u8; 6];
    let mut placed: u8 = 0;
    for place in 0..machines {
        let Some(machine) = next_machine(machines, conditions, placed) else {
            return Err(Refusal::NoRanking);
        };
        ranking[usize::from(place)] = machine;
        placed = placed | (1 << machine);
    }
    Ok(ranking)
}

// The smallest ranking, as a byte string, that fits every condition of the list: refusals 1, 15 and 16.
pub fn find(machines: u8, conditions: &[u8]) -> Result<[u8; 6], Refusal>
    ensures { found result ≡ finding machines conditions.now }
{
    check(machines, conditions)?;
    rank(machines, conditions)
}
