// A tableau's rows: their layout, their candidates and their counts, and the verdict for the best candidate's profile.
#![tactic(auto)]

ghost use Rattle.std.specs.Prelude.{◌≡◌, ◌∷◌, ◌+◌, ◌%◌, ◌<◌, ◌≤◌};
ghost use Rattle.basics.specs.Words.{[], ℕ, length};
ghost use Rattle.refusals.specs.Refusals.{refuse, first_of, checked_number};
ghost use Rattle.layout.specs.Layout.{short_at};
ghost use Rattle.layout.specs.LaidOut.{LaidOut};
ghost use Rattle.card.specs.Layout.{machine_count};
ghost use Rattle.card.specs.Card.{card_refusal};
ghost use Rattle.candidate.specs.Candidates.{pairs_of, spelled};
ghost use Rattle.product.specs.Best.{same_word};
ghost use Rattle.rows.specs.Tableau.{row_count, row_of, counts_of, every_row, sound_row, sound_tableau};
ghost use Rattle.rows.specs.Reading.{Readable, CompleteRow};
ghost use Rattle.rows.specs.Judging.{is_for_word, same_counts, counts_are_profile, verdict_of};

use basics::index;
use machine::Pair;
use ranking::Profile;
use refusals::Refusal;

// What a tableau is said to be.
#[derive(Clone, Copy)]
pub enum Verdict {
    // The claimed row wins.
    Right,
    // Another row wins: the first that does.
    AnotherRow(u8),
    // No row wins.
    NotInTable,
}

// The number of two bytes from a place, little-endian.
fn short(bytes: &[u8], at: usize) -> u16
    requires { at + 2 ≤ length bytes.now }
    ensures { result ≡ short_at bytes.now at }
{
    u16::from_le_bytes([bytes[at], bytes[at + 1]])
}

// A row's counts.
fn counts(row: &[u8]) -> Profile
    requires { 12 ≤ length row.now }
    ensures { result.counts ≡ counts_of row.now }
{
    let counts = [
        short(row, 0),
        short(row, 2),
        short(row, 4),
        short(row, 6),
        short(row, 8),
        short(row, 10),
    ];
    Profile { counts }
}

// Whether two profiles have the same counts.
fn same_counts(first: Profile, second: Profile) -> bool
    ensures { result ≡ same_counts first.counts second.counts }
{
    first.counts == second.counts
}

// Whether a candidate spells a word. The candidate and the word go on by steps of their own: a chain would be no plainer.
fn spells(candidate: &[u8], word: &[u8]) -> bool
    requires { length candidate.now % 2 ≡ 0 }
    ensures { result ≡ same_word (spelled (pairs_of candidate.now)) word.now }
{
    let mut at = 0;
    let mut place = 0;
    while at < candidate.len() {
        let symbol = candidate[at];
        if symbol != Pair::EMPTY {
            if word.len() <= place {
                return false;
            }
            if symbol != word[place] {
                return false;
            }
            place += 1;
        }
        at += 2;
    }
    word.len() <= place
}

// Whether a row has at least 12 bytes and no count from `machines` on.
fn is_sound_row(row: &[u8], machines: usize) -> bool
    requires { machines ≤ 6 }
    ensures { result ≡ sound_row machines row.now }
{
    if row.len() < 12 {
        return false;
    }
    let profile = counts(row);
    for machine in machines..6 {
        if profile.count(machine) != 0 {
            return false;
        }
    }
    true
}

// Refusal 19, of the rows: each has its counts, unused ones 0.
fn check_rows(tableau: &[u8], machines: usize) -> Result<(), Refusal>
    requires { (2 ≤ length tableau.now) × LaidOut (row_count tableau.now) tableau.now × (machines ≤ 6) }
    ensures { checked_number result ≡ refuse 19 (every_row (sound_row machines) tableau.now) }
{
    let rows = index(tableau[0]);
    for i in 0..rows {
        if !is_sound_row(layout::part(tableau, i), machines) {
            return Err(Refusal::Tableau);
        }
    }
    Ok(())
}

// Refusal 19: the layout, and the claimed row.
fn check_layout(tableau: &[u8], machines: usize) -> Result<(), Refusal>
    requires { machines ≤ 6 }
    ensures { checked_number result ≡ refuse 19 (sound_tableau machines tableau.now) }
{
    if tableau.len() < 2 {
        return Err(Refusal::Tableau);
    }
    let count = tableau[0];
    let claimed = tableau[1];
    if !((1 <= count) & (count <= 32) & (claimed < count)) {
        return Err(Refusal::Tableau);
    }
    if !layout::is_laid_out(tableau, count) {
        return Err(Refusal::Tableau);
    }
    check_rows(tableau, machines)
}

// Whether a row's candidate meets neither 13 nor 14 and spells the word.
fn is_for_word(card: &[u8], word: &[u8], row: &[u8]) -> bool
    requires { (card_refusal card.now ≡ 0) × (12 ≤ length row.now) }
    ensures { result ≡ is_for_word card.now word.now row.now }
{
    let bytes = &row[12..];
    candidate::check_candidate(bytes, card::symbol_count(card)).is_ok()
        && candidate::score(card, bytes).is_ok()
        && spells(bytes, word)
}

// Refusal 20: each row's candidate.
fn check_candidates(card: &[u8], word: &[u8], tableau: &[u8]) -> Result<(), Refusal>
    requires { (card_refusal card.now ≡ 0) × Readable tableau.now }
    ensures { checked_number result ≡ refuse 20 (every_row (is_for_word card.now word.now) tableau.now) }
{
    let candidates = index(tableau[0]);
    for i in 0..candidates {
        if !is_for_word(card, word, layout::part(tableau, i)) {
            return Err(Refusal::RowCandidate);
        }
    }
    Ok(())
}

// Whether a row's counts are its candidate's profile.
fn are_its_profile(card: &[u8], row: &[u8]) -> bool
    requires { (card_refusal card.now ≡ 0) × (12 ≤ length row.now) × CompleteRow card.now row.now }
    ensures { result ≡ counts_are_profile card.now row.now }
{
    candidate::score(card, &row[12..]).is_ok_and(|profile| same_counts(counts(row), profile))
}

// Refusal 21: each row's counts.
fn check_profiles(card: &[u8], tableau: &[u8]) -> Result<(), Refusal>
    requires { (card_refusal card.now ≡ 0) × Readable tableau.now × ((i : ℕ) → i < row_count tableau.now → CompleteRow card.now (row_of tableau.now i)) }
    ensures { checked_number result ≡ refuse 21 (every_row (counts_are_profile card.now) tableau.now) }
{
    let profiles = index(tableau[0]);
    for i in 0..profiles {
        if !are_its_profile(card, layout::part(tableau, i)) {
            return Err(Refusal::RowCounts);
        }
    }
    Ok(())
}

// Whether a row has the profile.
fn has_profile(tableau: &[u8], i: usize, profile: Profile) -> bool
    requires { Readable tableau.now × (i < row_count tableau.now) }
    ensures { result ≡ same_counts (counts_of (row_of tableau.now i)) profile.counts }
{
    same_counts(counts(layout::part(tableau, i)), profile)
}

// The verdict, for the best candidate's profile.
pub fn verdict_of(tableau: &[u8], best: Profile) -> Verdict
    requires { Readable tableau.now }
    ensures { result ≡ verdict_of (λ row. same_counts (counts_of row) best.counts) tableau.now }
{
    let claimed = index(tableau[1]);
    if has_profile(tableau, claimed, best) {
        return Verdict::Right;
    }
    let rows = index(tableau[0]);
    for row in 0..rows {
        if has_profile(tableau, row, best) {
            return Verdict::AnotherRow(row as u8);
        }
    }
    Verdict::NotInTable
}

// The first of refusals 19, 20 and 21 that a tableau meets, each for all rows before the next, for an accepted card.
pub fn check_tableau(card: &[u8], word: &[u8], tableau: &[u8]) -> Result<(), Refusal>
    requires { card_refusal card.now ≡ 0 }
    ensures { checked_number result ≡ first_of (refuse 19 (sound_tableau (machine_count card.now) tableau.now) ∷ refuse 20 (every_row (is_for_word card.now word.now) tableau.now) ∷ refuse 21 (every_row (counts_are_profile card.now) tableau.now) ∷ []) }
{
    check_layout(tableau, card::machine_count(card))?;
    check_candidates(card, word, tableau)?;
    check_profiles(card, tableau)
}
