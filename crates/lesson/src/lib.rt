// One line's answer: what is printed for a line, what it adds to the lesson's tally, and what is printed after the last one.
#![tactic(auto)]

ghost use Rattle.std.specs.Prelude.{◌≡◌, ◌≤◌};
ghost use Rattle.basics.specs.Words.{false, length};
ghost use Rattle.card.specs.Layout.{machine_count};
ghost use Rattle.lesson.specs.Printed.{best_line, printed, Prints};
ghost use Rattle.lesson.specs.Tally.{best_counts, line_counts, told, line_tally, line_text, shown_machines, closing_text, Fits};

use refusals::Refusal;
use tally::{Reply, Tally};

// What the optimizer is lent.
const WORK_NUMBERS: usize = 25600;

const ANSWER_BYTES: usize = 6398;

// The card's machine count; of the empty card 0.
fn machine_count(card: &[u8]) -> u8
    ensures { result ≡ machine_count card.now }
{
    if card.len() == 0 { 0 } else { card[0] }
}

// Writes the line of the optimizer's answer to the front of a slice.
fn write_best(card: &[u8], ranking: &[u8], word: &[u8], out: &mut [u8]) -> Reply
    requires { 25628 ≤ length out.old }
    ensures text { Prints (best_line card.now ranking.now word.now) out.old out.new result.size }
    ensures counts { told result.counts ≡ best_counts card.now ranking.now word.now }
{
    let mut work = [0u16; WORK_NUMBERS];
    let mut answer = [0u8; ANSWER_BYTES];
    let best = optimizer::optimize(card, ranking, word, &mut work, &mut answer);
    let size = writing::write_answer(best, machine_count(card), &answer, out);
    let counts = match best {
        Ok(evaluated) => {
            let profile = evaluated.profile;
            Some(profile.counts)
        }
        Err(_) => None,
    };
    Reply { size, counts }
}

// Writes what is printed for a line to the front of a slice.
fn answer_line(card: &[u8], line: &[u8], out: &mut [u8]) -> Reply
    requires { 25628 ≤ length out.old }
    ensures text { Prints (printed card.now line.now) out.old out.new result.size }
    ensures counts { told result.counts ≡ line_counts card.now line.now }
{
    let mut ranking = [0u8; 9];
    let mut word = [0u8; 100];
    let Some(parsed) = lines::parse(line, &mut ranking, &mut word) else {
        let size = writing::write_bad_line(out);
        return Reply { size, counts: None };
    };
    write_best(card, &ranking[..parsed.ranking], &word[..parsed.word], out)
}

// What a line leads to: the length of what is printed for it, and the tally after it.
#[derive(Clone, Copy)]
pub struct Turn {
    pub size: usize,
    pub tally: Tally,
}

// Writes what is printed for the next line to the front of a slice: past the thousandth the refusal, before its form is looked at.
pub fn answer_next(card: &[u8], line: &[u8], tally: Tally, out: &mut [u8]) -> Turn
    requires { (25628 ≤ length out.old) × Fits tally × (tally.past ≡ false) }
    ensures text { Prints (line_text card.now tally line.now) out.old out.new result.size }
    ensures tally { (result.tally ≡ line_tally card.now tally line.now) × Fits result.tally }
{
    if tally.is_full() {
        let size = writing::write_refused(u8::from(Refusal::Line), out);
        let tally = tally.passed();
        return Turn { size, tally };
    }
    let reply = answer_line(card, line, out);
    let size = reply.size;
    let tally = tally.count(reply);
    Turn { size, tally }
}

// How many totals are printed: one for each machine, and none of a refused card.
fn shown_machines(card: &[u8]) -> usize
    ensures { (result ≡ shown_machines card.now) × (result ≤ 6) }
{
    if card::check(card).is_err() {
        return 0;
    }
    card::machine_count(card)
}

// Writes the closing lines to the front of a slice, and answers their length.
pub fn write_closing(card: &[u8], tally: Tally, out: &mut [u8]) -> usize
    requires { 120 ≤ length out.old }
    ensures { Prints (closing_text card.now tally) out.old out.new result }
{
    let totals = tally.totals;
    let shown = shown_machines(card);
    writing::write_closing(tally.answered, tally.refused, &totals[..shown], out)
}
