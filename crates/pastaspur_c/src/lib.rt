// The static library: the public calls as C names them, each a call of the library `pastaspur` with its clauses. include/pastaspur.h says what each is lent
// and answers.
#![tactic(auto)]

ghost use Rattle.std.specs.Prelude.{◌≡◌, [], ◌∷◌, length};
ghost use Rattle.ranking.specs.Harmony.{comparing};
ghost use Rattle.ranking.specs.Conditions.{derived_from};
ghost use Rattle.finder.specs.Finder.{finding};
ghost use Rattle.card.specs.Reading.{reading};
ghost use Rattle.card.specs.Packing.{packing, packed_target};
ghost use Rattle.candidate.specs.Evaluating.{evaluating};
ghost use Rattle.product.specs.Optimizing.{optimized};
ghost use Rattle.product.specs.OptimizingSets.{optimized_sets};
ghost use Rattle.optimizer.specs.Optimizes.{Optimizes, OptimizesSets};
ghost use Rattle.tableau.specs.Judging.{judging};
ghost use Rattle.tableau.specs.Judges.{Judges};
ghost use Rattle.join.specs.JoinedCard.{joining_answer, joining_target};
ghost use Rattle.live.specs.Calls.{adding, added_list, removing, removed_list, leading};
ghost use Rattle.weights.specs.Searching;
ghost use Rattle.weights.specs.Weighing.{weighed};
ghost use Rattle.results.specs.Results.{evaluation_numbers, weighing_numbers, place_numbers, order_numbers, condition_numbers, judged_numbers, as_profile, as_row, lead_numbers};

use live::Row;

// The best candidate for a word under a ranking: 1 to 10, 12.
#[unsafe(no_mangle)]
pub extern "C" fn pastaspur_optimize(
    card: &[u8],
    ranking: &[u8],
    word: &[u8],
    work: &mut [u16],
    answer: &mut [u8],
    res: &mut [u16; 8],
) -> u32
    ensures value { result ≡ (optimized card.now ranking.now word.now (length work.old) (length answer.old)).number }
    ensures res_after { res.new ≡ evaluation_numbers (optimized card.now ranking.now word.now (length work.old) (length answer.old)) }
    ensures optimizes { Optimizes card.now ranking.now word.now work.old work.new answer.old answer.new (optimized card.now ranking.now word.now (length work.old) (length answer.old)) }
{
    pastaspur::pastaspur_optimize(card, ranking, word, work, answer, res)
}

// The same by Ellison's cull.
#[unsafe(no_mangle)]
pub extern "C" fn pastaspur_cull(
    card: &[u8],
    ranking: &[u8],
    word: &[u8],
    work: &mut [u16],
    answer: &mut [u8],
    res: &mut [u16; 8],
) -> u32
    ensures value { result ≡ (optimized card.now ranking.now word.now (length work.old) (length answer.old)).number }
    ensures res_after { res.new ≡ evaluation_numbers (optimized card.now ranking.now word.now (length work.old) (length answer.old)) }
    ensures optimizes { Optimizes card.now ranking.now word.now work.old work.new answer.old answer.new (optimized card.now ranking.now word.now (length work.old) (length answer.old)) }
{
    pastaspur::pastaspur_cull(card, ranking, word, work, answer, res)
}

// The best candidate over all words with one symbol from each set: 1 to 8, 25, 9, 10, 12.
#[unsafe(no_mangle)]
pub extern "C" fn pastaspur_optimize_sets(
    card: &[u8],
    ranking: &[u8],
    sets: &[u64],
    work: &mut [u16],
    answer: &mut [u8],
    res: &mut [u16; 8],
) -> u32
    ensures value { result ≡ (optimized_sets card.now ranking.now sets.now (length work.old) (length answer.old)).number }
    ensures res_after { res.new ≡ evaluation_numbers (optimized_sets card.now ranking.now sets.now (length work.old) (length answer.old)) }
    ensures optimizes_sets { OptimizesSets card.now ranking.now sets.now work.old work.new answer.old answer.new (optimized_sets card.now ranking.now sets.now (length work.old) (length answer.old)) }
{
    pastaspur::pastaspur_optimize_sets(card, ranking, sets, work, answer, res)
}

// The best candidate for a word by weights: 1 to 6, 26, 8, 9, 10, 12.
#[unsafe(no_mangle)]
pub extern "C" fn pastaspur_optimize_weights(
    card: &[u8],
    weights: &[u32],
    word: &[u8],
    work: &mut [u64],
    answer: &mut [u8],
    res: &mut [u64; 9],
) -> u32
    ensures value { result ≡ (weighed card.now weights.now word.now (length work.old) (length answer.old)).evaluation.number }
    ensures res_after { res.new ≡ weighing_numbers (weighed card.now weights.now word.now (length work.old) (length answer.old)) }
    ensures optimizes { Searching.Optimizes card.now weights.now word.now work.old work.new answer.old answer.new (weighed card.now weights.now word.now (length work.old) (length answer.old)) }
{
    pastaspur::pastaspur_optimize_weights(card, weights, word, work, answer, res)
}

// The best candidate over all words with one symbol from each set, by Ellison's cull: 1 to 8, 25, 9, 10, 12.
#[unsafe(no_mangle)]
pub extern "C" fn pastaspur_cull_sets(
    card: &[u8],
    ranking: &[u8],
    sets: &[u64],
    work: &mut [u16],
    answer: &mut [u8],
    res: &mut [u16; 8],
) -> u32
    ensures value { result ≡ (optimized_sets card.now ranking.now sets.now (length work.old) (length answer.old)).number }
    ensures res_after { res.new ≡ evaluation_numbers (optimized_sets card.now ranking.now sets.now (length work.old) (length answer.old)) }
    ensures optimizes_sets { OptimizesSets card.now ranking.now sets.now work.old work.new answer.old answer.new (optimized_sets card.now ranking.now sets.now (length work.old) (length answer.old)) }
{
    pastaspur::pastaspur_cull_sets(card, ranking, sets, work, answer, res)
}

// Judges a tableau for a card, a ranking and a word: 1 to 9, 19, 20, 21.
#[unsafe(no_mangle)]
pub extern "C" fn pastaspur_judge(
    card: &[u8],
    ranking: &[u8],
    word: &[u8],
    work: &mut [u16],
    tableau: &[u8],
    res: &mut [u8; 2],
) -> u32
    ensures value { result ≡ (judging card.now ranking.now word.now (length work.old) tableau.now).number }
    ensures res_after { res.new ≡ judged_numbers (judging card.now ranking.now word.now (length work.old) tableau.now) }
    ensures judges { Judges card.now ranking.now word.now work.old work.new tableau.now (judging card.now ranking.now word.now (length work.old) tableau.now) }
{
    pastaspur::pastaspur_judge(card, ranking, word, work, tableau, res)
}

// Evaluates a candidate on a card: 1 to 6, 13, 14.
#[unsafe(no_mangle)]
pub extern "C" fn pastaspur_evaluate(card: &[u8], candidate: &[u8], res: &mut [u16; 8]) -> u32
    ensures value { result ≡ (evaluating card.now candidate.now).number }
    ensures res_after { res.new ≡ evaluation_numbers (evaluating card.now candidate.now) }
{
    pastaspur::pastaspur_evaluate(card, candidate, res)
}

// Reads a part of a card, its offset and length: 1 to 6, 17.
#[unsafe(no_mangle)]
pub extern "C" fn pastaspur_read_part(card: &[u8], machine: u8, res: &mut [usize; 2]) -> u32
    ensures value { result ≡ (reading card.now machine).number }
    ensures res_after { res.new ≡ place_numbers (reading card.now machine) }
{
    pastaspur::pastaspur_read_part(card, machine, res)
}

// Packs parts, joined, into a card, and answers its length: 1, 17, 3 to 6, 18.
#[unsafe(no_mangle)]
pub extern "C" fn pastaspur_pack(
    symbols: u8,
    lengths: &[u16],
    parts: &[u8],
    target: &mut [u8],
    res: &mut [usize; 1],
) -> u32
    ensures value { result ≡ (packing symbols lengths.now parts.now target.old).number }
    ensures res_after { res.new ≡ (packing symbols lengths.now parts.now target.old).length ∷ [] }
    ensures target_after { target.new ≡ packed_target symbols lengths.now parts.now target.old }
{
    pastaspur::pastaspur_pack(symbols, lengths, parts, target, res)
}

// Joins two machines of a card, and answers the new card's length: 1 to 6, 27, 28, 18.
#[unsafe(no_mangle)]
pub extern "C" fn pastaspur_join(
    card: &[u8],
    first: u8,
    second: u8,
    target: &mut [u8],
    res: &mut [usize; 1],
) -> u32
    ensures value { result ≡ (joining_answer card.now first second (length target.old)).number }
    ensures res_after { res.new ≡ (joining_answer card.now first second (length target.old)).length ∷ [] }
    ensures target_after { target.new ≡ joining_target card.now first second target.old }
{
    pastaspur::pastaspur_join(card, first, second, target, res)
}

// Compares two profiles under a ranking, the order and the machine that decided: 1, 7.
#[unsafe(no_mangle)]
pub extern "C" fn pastaspur_compare(
    machines: u8,
    ranking: &[u8],
    first: &[u16; 6],
    second: &[u16; 6],
    res: &mut [u8; 2],
) -> u32
    ensures value { result ≡ (comparing machines ranking.now (as_profile first.now) (as_profile second.now)).number }
    ensures res_after { res.new ≡ order_numbers (comparing machines ranking.now (as_profile first.now) (as_profile second.now)).order }
{
    pastaspur::pastaspur_compare(machines, ranking, first, second, res)
}

// Derives the condition from two profiles: 1.
#[unsafe(no_mangle)]
pub extern "C" fn pastaspur_condition(
    machines: u8,
    first: &[u16; 6],
    second: &[u16; 6],
    res: &mut [u8; 2],
) -> u32
    ensures value { result ≡ (derived_from machines (as_profile first.now) (as_profile second.now)).number }
    ensures res_after { res.new ≡ condition_numbers (derived_from machines (as_profile first.now) (as_profile second.now)).condition }
{
    pastaspur::pastaspur_condition(machines, first, second, res)
}

// The smallest ranking that fits every condition of a list: 1, 15, 16.
#[unsafe(no_mangle)]
pub extern "C" fn pastaspur_find_ranking(machines: u8, conditions: &[u8], res: &mut [u8; 6]) -> u32
    ensures value { result ≡ (finding machines conditions.now).number }
    ensures res_after { res.new ≡ (finding machines conditions.now).ranking }
{
    pastaspur::pastaspur_find_ranking(machines, conditions, res)
}

// Adds a row to a live tableau, and answers the new row count: 1, 7, 23, 24.
#[unsafe(no_mangle)]
pub extern "C" fn pastaspur_add_row(
    machines: u8,
    ranking: &[u8],
    count: usize,
    rows: &mut [Row],
    row: &[u16; 7],
    res: &mut [usize; 1],
) -> u32
    ensures { (result ≡ (adding machines ranking.now count rows.old (as_row row.now)).number)
        × ((res.new ≡ (adding machines ranking.now count rows.old (as_row row.now)).count ∷ [])
        × (rows.new ≡ added_list machines ranking.now count rows.old (as_row row.now))) }
{
    pastaspur::pastaspur_add_row(machines, ranking, count, rows, row, res)
}

// Removes a row from a live tableau, and answers the new row count: 1, 7, 23, 24.
#[unsafe(no_mangle)]
pub extern "C" fn pastaspur_remove_row(
    machines: u8,
    ranking: &[u8],
    count: usize,
    rows: &mut [Row],
    id: u16,
    res: &mut [usize; 1],
) -> u32
    ensures { (result ≡ (removing machines ranking.now count rows.old id).number)
        × ((res.new ≡ (removing machines ranking.now count rows.old id).count ∷ [])
        × (rows.new ≡ removed_list machines ranking.now count rows.old id)) }
{
    pastaspur::pastaspur_remove_row(machines, ranking, count, rows, id, res)
}

// The leader of a live tableau: 1, 7, 23.
#[unsafe(no_mangle)]
pub extern "C" fn pastaspur_leader(
    machines: u8,
    ranking: &[u8],
    count: usize,
    rows: &[Row],
    res: &mut [u16; 8],
) -> u32
    ensures { (result ≡ (leading machines ranking.now count rows.now).number)
        × (res.new ≡ lead_numbers (leading machines ranking.now count rows.now)) }
{
    pastaspur::pastaspur_leader(machines, ranking, count, rows, res)
}
