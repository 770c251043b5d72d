// How the static library writes evaluations and the answers of calls that have no engine behind them as numbers into the caller's array: each `give_`
// function answers the number of its call. It takes the record of an answer, or whatever becomes one: the `Result` that the call answered.
#![tactic(auto)]

ghost use Rattle.std.specs.Prelude.{◌≡◌, [], ◌∷◌};
ghost use Rattle.refusals.specs.Refusals.{number_of};
ghost use Rattle.ranking.specs.Harmony.{compared};
ghost use Rattle.ranking.specs.Conditions.{derived};
ghost use Rattle.finder.specs.declared.Finding.{Finding};
ghost use Rattle.card.specs.declared.PartPlace.{PartPlace};
ghost use Rattle.card.specs.declared.Packed.{Packed};
ghost use Rattle.candidate.specs.declared.Evaluation.{Evaluation};
ghost use Rattle.numbers.specs.Numbers.{evaluation_numbers, place_numbers, order_number, deciding_machine, order_numbers, condition_numbers, as_profile};

use candidate::Evaluation;
use card::{Packed, PartPlace};
use finder::Finding;
use ranking::{Condition, Order, Profile};
use refusals::Refusal;

// A refusal's number as the call's answer.
pub fn give_refusal(refusal: Refusal) -> u32
    ensures { result ≡ number_of refusal }
{
    u32::from(u8::from(refusal))
}

// Writes the counts, the pair count and the word length of an evaluation.
pub fn give_evaluation<A: Into<Evaluation>>(answer: A, res: &mut [u16; 8]) -> u32
    ensures { (evaluation : Evaluation) × A.converts answer evaluation × (result ≡ evaluation.number) × (res.new ≡ evaluation_numbers evaluation) }
{
    let evaluation: Evaluation = answer.into();
    let profile = evaluation.profile;
    *res = [
        profile.count(0),
        profile.count(1),
        profile.count(2),
        profile.count(3),
        profile.count(4),
        profile.count(5),
        evaluation.pairs,
        evaluation.word_length,
    ];
    u32::from(evaluation.number)
}

// Writes the offset and the length of a part.
pub fn give_place<A: Into<PartPlace>>(answer: A, res: &mut [usize; 2]) -> u32
    ensures { (place : PartPlace) × A.converts answer place × (result ≡ place.number) × (res.new ≡ place_numbers place) }
{
    let place: PartPlace = answer.into();
    *res = [place.offset, place.length];
    u32::from(place.number)
}

// Writes the length of a card that was made.
pub fn give_packed<A: Into<Packed>>(answer: A, res: &mut [usize; 1]) -> u32
    ensures { (packed : Packed) × A.converts answer packed × (result ≡ packed.number) × (res.new ≡ packed.length ∷ []) }
{
    let packed: Packed = answer.into();
    *res = [packed.length];
    u32::from(packed.number)
}

// The profile of six counts.
pub fn profile_of(counts: &[u16; 6]) -> Profile
    ensures { result ≡ as_profile counts.now }
{
    let counts = *counts;
    Profile { counts }
}

// The number of an order.
fn order_number(order: Order) -> u8
    ensures { result ≡ order_number order }
{
    match order {
        Order::Better(_) => 1,
        Order::Equal => 2,
        Order::Worse(_) => 3,
    }
}

// The machine that decided, 0 where none did.
fn deciding_machine(order: Order) -> u8
    ensures { result ≡ deciding_machine order }
{
    match order {
        Order::Better(machine) => machine,
        Order::Equal => 0,
        Order::Worse(machine) => machine,
    }
}

// Writes the order and the machine that decided.
pub fn give_comparison(answer: Result<Order, Refusal>, res: &mut [u8; 2]) -> u32
    ensures { (result ≡ (compared answer).number) × (res.new ≡ order_numbers (compared answer).order) }
{
    match answer {
        Ok(order) => {
            *res = [order_number(order), deciding_machine(order)];
            0
        }
        Err(refusal) => {
            *res = [0; 2];
            give_refusal(refusal)
        }
    }
}

// Writes W and L of a condition.
pub fn give_derived(answer: Result<Condition, Refusal>, res: &mut [u8; 2]) -> u32
    ensures { (result ≡ (derived answer).number) × (res.new ≡ condition_numbers (derived answer).condition) }
{
    match answer {
        Ok(condition) => {
            *res = [condition.fewer, condition.more];
            0
        }
        Err(refusal) => {
            *res = [0; 2];
            give_refusal(refusal)
        }
    }
}

// Writes the ranking that was found.
pub fn give_finding<A: Into<Finding>>(answer: A, res: &mut [u8; 6]) -> u32
    ensures { (found : Finding) × A.converts answer found × (result ≡ found.number) × (res.new ≡ found.ranking) }
{
    let found: Finding = answer.into();
    let ranking = found.ranking;
    *res = ranking;
    u32::from(found.number)
}
