// Candidates: their evaluation. What a candidate is, and which is the best, stands in specs/.
#![tactic(auto)]

ghost use Rattle.std.specs.Prelude.{◌≡◌, ◌+◌, ◌%◌, ◌<◌, ◌≤◌};
ghost use Rattle.basics.specs.Words.{true, length, eqb};
ghost use Rattle.machine.specs.Symbols.{empty_symbol};
ghost use Rattle.machine.specs.Part.{machine_of};
ghost use Rattle.refusals.specs.Refusals.{refuse, checked_number};
ghost use Rattle.card.specs.Layout.{symbol_count};
ghost use Rattle.card.specs.Card.{card_refusal, machines_of};
ghost use Rattle.candidate.specs.Scoring.{RunPre, Scores};
ghost use Rattle.candidate.specs.Candidates.{pair_at, pairs_of, spelled, marks_of};
ghost use Rattle.candidate.specs.Evaluating.{marked, sound_pair, sound_candidate, as_evaluation, evaluating};

use machine::{Pair, Position};
use ranking::Profile;
use refusals::Refusal;

// What evaluation says of a candidate, and the optimizer of the best one: the profile, unused places 0; the pair count; the length of the word
// spelled.
#[derive(Clone, Copy)]
pub struct Evaluated {
    pub profile: Profile,
    pub pairs: u16,
    pub word_length: u16,
}

// The same as one record, for what is written of it: the refusal's number, 0 where there is none; the profile, unused places 0; the pair count; the
// length of the word spelled. A refusal's record has zeros beside its number.
#[derive(Clone, Copy)]
pub struct Evaluation {
    pub number: u8,
    pub profile: Profile,
    pub pairs: u16,
    pub word_length: u16,
}

impl From<Result<Evaluated, Refusal>> for Evaluation {
    ghost from_gives = { λ answer evaluation. evaluation ≡ as_evaluation answer };

    fn from(answer: Result<Evaluated, Refusal>) -> Evaluation
        ensures { result ≡ as_evaluation answer }
    {
        match answer {
            Ok(evaluated) => Evaluation {
                number: 0,
                profile: evaluated.profile,
                pairs: evaluated.pairs,
                word_length: evaluated.word_length,
            },
            Err(refusal) => Evaluation {
                number: u8::from(refusal),
                profile: Profile::zero(),
                pairs: 0,
                word_length: 0,
            },
        }
    }
}

// The pair whose two bytes start at a place.
pub fn pair_at(candidate: &[u8], at: usize) -> Pair
    requires { at + 2 ≤ length candidate.now }
    ensures { result ≡ pair_at candidate.now at }
{
    Pair::new(candidate[at], candidate[at + 1])
}

// Takes a candidate's pairs in turn on one machine, and ends: its marks; none where it does not take every pair or does not end.
fn run(part: &[u8], candidate: &[u8]) -> Option<u16>
    requires { RunPre part.now candidate.now }
    ensures { marked result ≡ marks_of (pairs_of candidate.now) (machine_of part.now) }
{
    let mut position = Position::start();
    let mut marks: u16 = 0;
    for at in (0..candidate.len()).step_by(2) {
        let (next, more) = position.step(part, pair_at(candidate, at))?;
        position = next;
        marks += u16::from(more);
    }
    let more = position.ending(part)?;
    Some(marks + u16::from(more))
}

// Whether the bytes at a place are a pair of the card's symbols.
fn is_sound_at(candidate: &[u8], at: usize, symbols: u8) -> bool
    requires { at + 2 ≤ length candidate.now }
    ensures { result ≡ sound_pair symbols (pair_at candidate.now at) }
{
    let pair = pair_at(candidate, at);
    pair.is_pair() & pair.is_within(symbols)
}

// Whether the pair at a place inserts, so that it spells nothing.
fn inserts_at(candidate: &[u8], at: usize) -> bool
    requires { at + 2 ≤ length candidate.now }
    ensures { result ≡ eqb (pair_at candidate.now at).input empty_symbol }
{
    pair_at(candidate, at).inserts()
}

// Refusal 13: whether the bytes are at most 3,199 pairs of the card's symbols.
pub fn check_candidate(candidate: &[u8], symbols: u8) -> Result<(), Refusal>
    ensures { checked_number result ≡ refuse 13 (sound_candidate symbols candidate.now) }
{
    if candidate.len() % 2 != 0 {
        return Err(Refusal::Candidate);
    }
    if candidate.len() > 6398 {
        return Err(Refusal::Candidate);
    }
    for at in (0..candidate.len()).step_by(2) {
        if !is_sound_at(candidate, at, symbols) {
            return Err(Refusal::Candidate);
        }
    }
    Ok(())
}

// The length of the word that a candidate spells.
fn spelled_length(candidate: &[u8]) -> u16
    requires { (length candidate.now % 2 ≡ 0) × (length candidate.now ≤ 6398) }
    ensures { result ≡ length (spelled (pairs_of candidate.now)) }
{
    let mut symbols: u16 = 0;
    for at in (0..candidate.len()).step_by(2) {
        if !inserts_at(candidate, at) {
            symbols += 1;
        }
    }
    symbols
}

// Each machine's marks, in card order: refusal 14 where some machine does not complete the candidate.
pub fn score(card: &[u8], candidate: &[u8]) -> Result<Profile, Refusal>
    requires { (card_refusal card.now ≡ 0) × (sound_candidate (symbol_count card.now) candidate.now ≡ true) }
    ensures { Scores (machines_of card.now) (pairs_of candidate.now) result }
{
    let mut counts = Profile::ZERO.counts;
    let machines = card::machine_count(card);
    for machine in 0..machines {
        let Some(marks) = run(card::part(card, machine), candidate) else {
            return Err(Refusal::NotComplete);
        };
        counts[machine] = marks;
    }
    Ok(Profile { counts })
}

// Evaluates a candidate on a card: 1 to 6, 13, 14.
pub fn evaluate(card: &[u8], candidate: &[u8]) -> Result<Evaluated, Refusal>
    ensures { as_evaluation result ≡ evaluating card.now candidate.now }
{
    card::check(card)?;
    check_candidate(candidate, card::symbol_count(card))?;
    let profile = score(card, candidate)?;
    Ok(Evaluated {
        profile,
        pairs: (candidate.len() / 2) as u16,
        word_length: spelled_length(candidate),
    })
}
