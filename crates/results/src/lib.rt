// How the static library writes the answers of the other calls as numbers into the caller's array, and reads a caller's row: each `give_` function
// answers the number of its call.
#![tactic(auto)]

ghost use Rattle.std.specs.Prelude.{◌≡◌, [], ◌∷◌};
ghost use Rattle.tableau.specs.declared.Judged.{Judged};
ghost use Rattle.live.specs.declared.Counted.{Counted};
ghost use Rattle.live.specs.declared.Lead.{Lead};
ghost use Rattle.weights.specs.declared.Weighing.{Weighing};
ghost use Rattle.results.specs.Results.{weighing_numbers, judged_numbers, as_row, flag_number, lead_numbers};

use live::{Counted, Lead, Row};
pub use numbers::{
    give_comparison, give_derived, give_evaluation, give_finding, give_packed, give_place,
    give_refusal, profile_of,
};
use ranking::Profile;
use tableau::Judged;
use weights::Weighing;

// Writes the counts, the pair count, the word length and the sum of an answer by weights.
pub fn give_weighing<A: Into<Weighing>>(answer: A, res: &mut [u64; 9]) -> u32
    ensures { (weighing : Weighing) × A.converts answer weighing × (result ≡ weighing.evaluation.number) × (res.new ≡ weighing_numbers weighing) }
{
    let weighing: Weighing = answer.into();
    let evaluation = weighing.evaluation;
    let profile = evaluation.profile;
    *res = [
        u64::from(profile.count(0)),
        u64::from(profile.count(1)),
        u64::from(profile.count(2)),
        u64::from(profile.count(3)),
        u64::from(profile.count(4)),
        u64::from(profile.count(5)),
        u64::from(evaluation.pairs),
        u64::from(evaluation.word_length),
        weighing.sum,
    ];
    u32::from(evaluation.number)
}

// Writes the verdict and the row.
pub fn give_judged<A: Into<Judged>>(answer: A, res: &mut [u8; 2]) -> u32
    ensures { (judged : Judged) × A.converts answer judged × (result ≡ judged.number) × (res.new ≡ judged_numbers judged) }
{
    let judged: Judged = answer.into();
    *res = [judged.verdict, judged.row];
    u32::from(judged.number)
}

// The row of an id and six counts.
pub fn row_of(numbers: &[u16; 7]) -> Row
    ensures { result ≡ as_row numbers.now }
{
    let numbers = *numbers;
    let counts = [
        numbers[1], numbers[2], numbers[3], numbers[4], numbers[5], numbers[6],
    ];
    Row {
        id: numbers[0],
        profile: Profile { counts },
    }
}

// Writes a row count.
pub fn give_count<A: Into<Counted>>(answer: A, res: &mut [usize; 1]) -> u32
    ensures { (counted : Counted) × A.converts answer counted × (result ≡ counted.number) × (res.new ≡ counted.count ∷ []) }
{
    let counted: Counted = answer.into();
    *res = [counted.count];
    u32::from(counted.number)
}

// 1 for true, 0 for false.
fn flag(any: bool) -> u16
    ensures { result ≡ flag_number any }
{
    u16::from(any)
}

// Whether there is a leader, its id and its counts, as they are written.
fn numbers_of(lead: Lead) -> [u16; 8]
    ensures { result ≡ lead_numbers lead }
{
    let leader = lead.row.profile;
    [
        flag(lead.any),
        lead.row.id,
        leader.count(0),
        leader.count(1),
        leader.count(2),
        leader.count(3),
        leader.count(4),
        leader.count(5),
    ]
}

// Writes whether there is a leader, its id and its counts.
pub fn give_lead<A: Into<Lead>>(answer: A, res: &mut [u16; 8]) -> u32
    ensures { (lead : Lead) × A.converts answer lead × (result ≡ lead.number) × (res.new ≡ lead_numbers lead) }
{
    let lead: Lead = answer.into();
    *res = numbers_of(lead);
    u32::from(lead.number)
}
