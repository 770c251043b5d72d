// The refusal table. A check answers a Result: the refusal is its error.
#![tactic(auto)]

ghost use Rattle.std.specs.Prelude.{◌≡◌};
ghost use Rattle.refusals.specs.Refusals.{number_of, checked_number, refuse};

// Why a call is refused, in the order of the refusal table.
#[derive(Clone, Copy)]
pub enum Refusal {
    // 1: the card has no counts, or K or S is out of range.
    Counts,
    // 2: the parts do not lie in the card as laid down.
    Layout,
    // 3: a part has not the length that its counts say, or Q is out of range.
    PartLength,
    // 4: a state byte or a field of an arc is out of range.
    Field,
    // 5: two arcs of a state take one pair.
    Clash,
    // 6: P is over 128.
    Product,
    // 7: not a ranking.
    Ranking,
    // 8: the word's length, or one of its symbols, is out of range.
    Word,
    // 9: the work slice is too short.
    Work,
    // 10: there is no complete candidate.
    NoCandidate,
    // 12: the answer slice is too short.
    Answer,
    // 13: the candidate's bytes are no list of pairs.
    Candidate,
    // 14: the candidate is not complete.
    NotComplete,
    // 15: the list of conditions is not sound.
    Conditions,
    // 16: no ranking fits.
    NoRanking,
    // 17: the lengths do not add up to the joined parts, or no machine has the number.
    Parts,
    // 18: the target is too short.
    Target,
    // 19: the tableau's layout is broken, or no row has the claimed number.
    Tableau,
    // 20: a row's candidate meets 13 or 14, or spells another word.
    RowCandidate,
    // 21: a row's counts are not its profile.
    RowCounts,
    // 22: the line is past the thousandth.
    Line,
    // 23: the row count is out of range.
    RowCount,
    // 24: an added id is present, or a removed one is not.
    Presence,
    // 25: a set is empty, holds the empty symbol, or has a bit over S.
    Sets,
    // 26: not K weights, or one is above the limit.
    Weights,
    // 27: not two different machines of the card, or both have marks.
    Machines,
    // 28: the joined machine has more than 32 states or 255 arcs.
    JoinedSize,
}

impl From<Refusal> for u8 {
    ghost from_gives = { λ refusal number. number ≡ number_of refusal };

    // Its number in the refusal table; 11 was struck.
    fn from(refusal: Refusal) -> u8
        ensures { result ≡ number_of refusal }
    {
        match refusal {
            Refusal::Counts => 1,
            Refusal::Layout => 2,
            Refusal::PartLength => 3,
            Refusal::Field => 4,
            Refusal::Clash => 5,
            Refusal::Product => 6,
            Refusal::Ranking => 7,
            Refusal::Word => 8,
            Refusal::Work => 9,
            Refusal::NoCandidate => 10,
            Refusal::Answer => 12,
            Refusal::Candidate => 13,
            Refusal::NotComplete => 14,
            Refusal::Conditions => 15,
            Refusal::NoRanking => 16,
            Refusal::Parts => 17,
            Refusal::Target => 18,
            Refusal::Tableau => 19,
            Refusal::RowCandidate => 20,
            Refusal::RowCounts => 21,
            Refusal::Line => 22,
            Refusal::RowCount => 23,
            Refusal::Presence => 24,
            Refusal::Sets => 25,
            Refusal::Weights => 26,
            Refusal::Machines => 27,
            Refusal::JoinedSize => 28,
        }
    }
}

// Passes where the test does, and refuses with the refusal where not.
pub fn tested(ok: bool, refusal: Refusal) -> Result<(), Refusal>
    ensures { checked_number result ≡ refuse (number_of refusal) ok }
{
    if ok { Ok(()) } else { Err(refusal) }
}
