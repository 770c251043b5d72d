// The checks of a machine count and of a ranking.
ghost use Rattle.std.specs.Prelude.{◌≡◌, ◌∷◌};
ghost use Rattle.basics.specs.Words.{[], eqb, occurrences};
ghost use Rattle.refusals.specs.Refusals.{refuse, first_of, checked_number};
ghost use Rattle.ranking.specs.Rankings.{is_machine_count, is_ranking};

use refusals::{Refusal, tested};

// Refusal 1: whether there are 1 to 6 machines.
pub fn check_machine_count(machines: u8) -> Result<(), Refusal>
    ensures { checked_number result ≡ refuse 1 (is_machine_count machines) }
{
    tested((1..=6).contains(&machines), Refusal::Counts)
}

// Whether a machine stands in a list once. It ends at a second time: a loop that only counts is laid out at great length by the compiler.
fn stands_once(list: &[u8], machine: u8) -> bool
    ensures { result ≡ eqb (occurrences machine list.now) 1 }
{
    let mut count: usize = 0;
    for &other in list {
        if other == machine {
            if count == 1 {
                return false;
            }
            count += 1;
        }
    }
    count == 1
}

// Refusal 7: whether a list has each machine once and nothing else.
pub fn check_ranking(machines: u8, ranking: &[u8]) -> Result<(), Refusal>
    ensures { checked_number result ≡ refuse 7 (is_ranking machines ranking.now) }
{
    if ranking.len() != usize::from(machines) {
        return Err(Refusal::Ranking);
    }
    for machine in 0..machines {
        if !stands_once(ranking, machine) {
            return Err(Refusal::Ranking);
        }
    }
    Ok(())
}

// Refusals 1 and 7. The ranking is looked at first, though 1 is answered first: of a number that is known to be at most 6 the compiler would lay the loop
// over the machines out six times.
pub fn check(machines: u8, ranking: &[u8]) -> Result<(), Refusal>
    ensures { checked_number result ≡ first_of (refuse 1 (is_machine_count machines) ∷ refuse 7 (is_ranking machines ranking.now) ∷ []) }
{
    let ranked = check_ranking(machines, ranking);
    check_machine_count(machines)?;
    ranked
}
