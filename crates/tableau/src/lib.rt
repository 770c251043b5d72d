// Tableaux from the textbooks: whether one is right for a card, a ranking and a word.
#![tactic(auto)]

ghost use Rattle.std.specs.Prelude.{◌≡◌};
ghost use Rattle.tableau.specs.Judging.{verdict_numbers, judged_of};
ghost use Rattle.tableau.specs.Judges.{Judges};

use refusals::Refusal;
use rows::Verdict;

// What judging answers, as one record: the refusal's number, 0 where there is none; the verdict, 1 right, 2 another row, 3 not in the table; the first row
// that wins, for another row.
#[derive(Clone, Copy)]
pub struct Judged {
    pub number: u8,
    pub verdict: u8,
    pub row: u8,
}

// The record of a verdict.
fn numbers(verdict: Verdict) -> Judged
    ensures { result ≡ verdict_numbers verdict }
{
    match verdict {
        Verdict::Right => Judged {
            number: 0,
            verdict: 1,
            row: 0,
        },
        Verdict::AnotherRow(row) => Judged {
            number: 0,
            verdict: 2,
            row,
        },
        Verdict::NotInTable => Judged {
            number: 0,
            verdict: 3,
            row: 0,
        },
    }
}

impl From<Result<Verdict, Refusal>> for Judged {
    ghost from_gives = { λ answer judged. judged ≡ judged_of answer };

    fn from(answer: Result<Verdict, Refusal>) -> Judged
        ensures { result ≡ judged_of answer }
    {
        match answer {
            Ok(verdict) => numbers(verdict),
            Err(refusal) => Judged {
                number: u8::from(refusal),
                verdict: 0,
                row: 0,
            },
        }
    }
}

// Judges a tableau for a card, a ranking and a word: 1 to 9, 19, 20, 21. Each row's candidate is one for the word, so
// there is a best.
pub fn judge(
    card: &[u8],
    ranking: &[u8],
    word: &[u8],
    work: &mut [u16],
    tableau: &[u8],
) -> Result<Verdict, Refusal>
    ensures { Judges card.now ranking.now word.now work.old work.new tableau.now (judged_of result) }
{
    let grid = input::check_input(card, ranking, word, work.len())?;
    rows::check_tableau(card, word, tableau)?;
    let best = optimizer::best_profile(card, grid, ranking, word, work);
    Ok(rows::verdict_of(tableau, best))
}
