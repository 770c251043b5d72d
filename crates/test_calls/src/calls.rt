// The calls. Each writes its line but for the end: the call's name, the refusal's number, and the rest of what it answers. A lent slice is written in
// short, as it is after the call; a work slice, lent filled with 7s, by how many there still are where the call has to keep it.
use crate::printing::{write, write_spaced_byte, write_spaced_number, write_spaced_size};
use crate::slices::sevens;
use crate::writing::{
    number_of, wide_sevens, write_best, write_evaluation, write_finding, write_kept, write_order,
    write_slice, write_three,
};
use ranking::Profile;
use rows::Verdict;

// What there is to lend.
const WORK_NUMBERS: usize = 25600;

const WEIGHTS_WORK_NUMBERS: usize = 6401;

const ANSWER_BYTES: usize = 6398;

const TARGET_BYTES: usize = 32000;

fn search(
    rt: &impl Print,
    culls: bool,
    card: &[u8],
    ranking: &[u8],
    word: &[u8],
    work: &mut [u16],
    answer: &mut [u8],
) {
    if culls {
        write(rt, b"cull");
        let evaluation = cull::cull(card, ranking, word, work, answer);
        write_best(rt, evaluation, work, answer);
    } else {
        write(rt, b"optimize");
        let evaluation = optimizer::optimize(card, ranking, word, work, answer);
        write_best(rt, evaluation, work, answer);
    }
}

// By the engine that culls, or by the first one, with so many numbers of work, and an answer of so many bytes, each `fill`. Answers whether there is as
// much to lend.
pub fn lend_and_search(
    rt: &impl Print,
    culls: bool,
    card: &[u8],
    ranking: &[u8],
    word: &[u8],
    room: usize,
    bytes: usize,
    fill: u8,
) -> bool {
    if room > WORK_NUMBERS {
        return false;
    }
    if bytes > ANSWER_BYTES {
        return false;
    }
    let mut work = [7u16; WORK_NUMBERS];
    let mut answer = [fill; ANSWER_BYTES];
    search(
        rt,
        culls,
        card,
        ranking,
        word,
        &mut work[0..room],
        &mut answer[0..bytes],
    );
    true
}

fn search_sets(
    rt: &impl Print,
    culls: bool,
    card: &[u8],
    ranking: &[u8],
    sets: &[u64],
    work: &mut [u16],
    answer: &mut [u8],
) {
    if culls {
        write(rt, b"cull sets");
        let evaluation = cull::cull_sets(card, ranking, sets, work, answer);
        write_best(rt, evaluation, work, answer);
    } else {
        write(rt, b"optimize sets");
        let evaluation = optimizer::optimize_sets(card, ranking, sets, work, answer);
        write_best(rt, evaluation, work, answer);
    }
}

// As `lend_and_search`, with the first sets, as many as `positions`.
pub fn lend_and_search_sets(
    rt: &impl Print,
    culls: bool,
    card: &[u8],
    ranking: &[u8],
    sets: [u64; 32],
    positions: usize,
    room: usize,
    bytes: usize,
    fill: u8,
) -> bool {
    if positions > 32 {
        return false;
    }
    if room > WORK_NUMBERS {
        return false;
    }
    if bytes > ANSWER_BYTES {
        return false;
    }
    let mut work = [7u16; WORK_NUMBERS];
    let mut answer = [fill; ANSWER_BYTES];
    search_sets(
        rt,
        culls,
        card,
        ranking,
        &sets[0..positions],
        &mut work[0..room],
        &mut answer[0..bytes],
    );
    true
}

fn optimize_weights(
    rt: &impl Print,
    card: &[u8],
    weights: &[u32],
    word: &[u8],
    work: &mut [u64],
    answer: &mut [u8],
) {
    let best = weights::optimize(card, weights, word, work, answer);
    write(rt, b"optimize weights");
    write_evaluation(rt, best.map(|weighed| weighed.evaluated));
    write_spaced_number(rt, best.map_or(0, |weighed| weighed.sum));
    write_slice(rt, answer);
    write_kept(rt, number_of(&best), wide_sevens(work));
}

// With the first weights, as many as `machines`, so many numbers of work, and an answer of so many bytes, each `fill`. Answers whether there is as much to
// lend.
pub fn lend_and_weigh(
    rt: &impl Print,
    card: &[u8],
    weights: [u32; 8],
    machines: usize,
    word: &[u8],
    room: usize,
    bytes: usize,
    fill: u8,
) -> bool {
    if machines > 8 {
        return false;
    }
    if room > WEIGHTS_WORK_NUMBERS {
        return false;
    }
    if bytes > ANSWER_BYTES {
        return false;
    }
    let mut work = [7u64; WEIGHTS_WORK_NUMBERS];
    let mut answer = [fill; ANSWER_BYTES];
    optimize_weights(
        rt,
        card,
        &weights[0..machines],
        word,
        &mut work[0..room],
        &mut answer[0..bytes],
    );
    true
}

fn judge(
    rt: &impl Print,
    card: &[u8],
    ranking: &[u8],
    word: &[u8],
    work: &mut [u16],
    tableau: &[u8],
) {
    write(rt, b"judge");
    let judged = tableau::judge(card, ranking, word, work, tableau);
    match judged {
        Ok(Verdict::Right) => write_three(rt, 0, 1, 0),
        Ok(Verdict::AnotherRow(row)) => write_three(rt, 0, 2, row),
        Ok(Verdict::NotInTable) => write_three(rt, 0, 3, 0),
        Err(refusal) => write_three(rt, u8::from(refusal), 0, 0),
    }
    write_kept(rt, number_of(&judged), sevens(work));
}

// With so many numbers of work. Answers whether there is as much to lend.
pub fn lend_and_judge(
    rt: &impl Print,
    card: &[u8],
    ranking: &[u8],
    word: &[u8],
    room: usize,
    tableau: &[u8],
) -> bool {
    if room > WORK_NUMBERS {
        return false;
    }
    let mut work = [7u16; WORK_NUMBERS];
    judge(rt, card, ranking, word, &mut work[0..room], tableau);
    true
}

pub fn evaluate(rt: &impl Print, card: &[u8], candidate: &[u8]) {
    write(rt, b"evaluate");
    write_evaluation(rt, candidate::evaluate(card, candidate));
}

pub fn read_part(rt: &impl Print, card: &[u8], machine: u8) {
    let place = card::read_part(card, machine);
    write(rt, b"part");
    write_spaced_byte(rt, number_of(&place));
    write_spaced_size(rt, place.map_or(0, |stretch| stretch.offset));
    write_spaced_size(rt, place.map_or(0, |stretch| stretch.length));
}

fn pack(rt: &impl Print, symbols: u8, lengths: &[u16], parts: &[u8], target: &mut [u8]) {
    let packed = card::pack(symbols, lengths, parts, target);
    write(rt, b"pack");
    write_spaced_byte(rt, number_of(&packed));
    write_spaced_size(rt, packed.unwrap_or(0));
    write_slice(rt, target);
}

// With the first lengths, as many as `machines`, and a target of so many bytes, each `fill`. Answers whether there is as much to lend.
pub fn lend_and_pack(
    rt: &impl Print,
    symbols: u8,
    lengths: [u16; 7],
    machines: usize,
    parts: &[u8],
    bytes: usize,
    fill: u8,
) -> bool {
    if machines > 7 {
        return false;
    }
    if bytes > TARGET_BYTES {
        return false;
    }
    let mut target = [fill; TARGET_BYTES];
    pack(
        rt,
        symbols,
        &lengths[0..machines],
        parts,
        &mut target[0..bytes],
    );
    true
}

fn join(rt: &impl Print, card: &[u8], first: u8, second: u8, target: &mut [u8]) {
    let joined = join::join(card, first, second, target);
    write(rt, b"join");
    write_spaced_byte(rt, number_of(&joined));
    write_spaced_size(rt, joined.unwrap_or(0));
    write_slice(rt, target);
}

// With a target of so many bytes, each `fill`. Answers whether there is as much to lend.
pub fn lend_and_join(
    rt: &impl Print,
    card: &[u8],
    first: u8,
    second: u8,
    bytes: usize,
    fill: u8,
) -> bool {
    if bytes > TARGET_BYTES {
        return false;
    }
    let mut target = [fill; TARGET_BYTES];
    join(rt, card, first, second, &mut target[0..bytes]);
    true
}

pub fn compare(rt: &impl Print, machines: u8, ranking: &[u8], first: Profile, second: Profile) {
    write(rt, b"compare");
    match ranking::harmony::compare(machines, ranking, first, second) {
        Ok(order) => write_order(rt, order),
        Err(refusal) => write_three(rt, u8::from(refusal), 0, 0),
    }
}

pub fn derive(rt: &impl Print, machines: u8, first: Profile, second: Profile) {
    write(rt, b"condition");
    match ranking::conditions::derive(machines, first, second) {
        Ok(condition) => write_three(rt, 0, condition.fewer, condition.more),
        Err(refusal) => write_three(rt, u8::from(refusal), 0, 0),
    }
}

pub fn find(rt: &impl Print, machines: u8, conditions: &[u8]) {
    write(rt, b"ranking");
    write_finding(rt, finder::find(machines, conditions));
}
