// Runs the corpus: makes the call that each case of the file `cases` asks, and writes a line with what it answers, as `test_calls` has it. The second
// implementation, in reference/, makes the cases and the lines that are expected; those of tests/calls are written by hand.
//
// A case is a byte that says its kind, and its fields (`test_calls`, fields.rt):
//
//     1 optimize    card, ranking, word: bytes; numbers of work, bytes of answer: a number each; what the answer is filled with: a byte
//     2 evaluate    card, candidate: bytes
//     3 read part   card: bytes; machine: a byte
//     4 pack        symbols: a byte; lengths: numbers; parts: bytes; bytes of target: a number; what it is filled with: a byte
//     5 compare     machines: a byte; ranking: bytes; two profiles
//     6 derive      machines: a byte; two profiles
//     7 find        machines: a byte; conditions: bytes
//     8 judge       card, ranking, word: bytes; numbers of work: a number; tableau: bytes
//     9 cull        as optimize
//    13 optimize sets, 14 cull sets    as optimize, but sets for the word
//    15 optimize weights    as optimize, but weights for the ranking
//    16 join        card: bytes; two machines: a byte each; bytes of target: a number; what it is filled with: a byte
//
// A case of another kind, one that the file ends in and one that asks to be lent more than there is are faulty. 10 to 12, the live tableau's calls, are not
// in the file: `test_live` makes them. Each of the functions for a kind goes from the place of the first field to the place after the last, which is nowhere
// for a faulty case.
#![tactic(auto)]

use std::rt::Files;
use test_calls::calls::{
    compare, derive, evaluate, find, lend_and_join, lend_and_judge, lend_and_pack, lend_and_search,
    lend_and_search_sets, lend_and_weigh, read_part,
};
use test_calls::fields::{
    NOWHERE, after, after_bytes, after_numbers, after_sets, after_weights, byte_at, bytes_at,
    numbers_at, profile_at, sets_at, size_at, weights_at,
};
use test_calls::slices::read_file;
use test_calls::writing::{end_line, write_bad_case};

// One byte more than the file may have.
const FILE_BYTES: usize = 409601;

fn search_case(rt: &impl Print, file: &[u8], culls: bool, card: usize) -> usize {
    let ranking = after_bytes(file, card);
    let word = after_bytes(file, ranking);
    let room = after_bytes(file, word);
    let bytes = after(file, room, 2);
    let fill = after(file, bytes, 2);
    let end = after(file, fill, 1);
    if end == NOWHERE {
        return NOWHERE;
    }
    let lent = lend_and_search(
        rt,
        culls,
        bytes_at(file, card),
        bytes_at(file, ranking),
        bytes_at(file, word),
        size_at(file, room),
        size_at(file, bytes),
        byte_at(file, fill),
    );
    if lent { end } else { NOWHERE }
}

fn search_sets_case(rt: &impl Print, file: &[u8], culls: bool, card: usize) -> usize {
    let ranking = after_bytes(file, card);
    let sets = after_bytes(file, ranking);
    let room = after_sets(file, sets);
    let bytes = after(file, room, 2);
    let fill = after(file, bytes, 2);
    let end = after(file, fill, 1);
    if end == NOWHERE {
        return NOWHERE;
    }
    let lent = lend_and_search_sets(
        rt,
        culls,
        bytes_at(file, card),
        bytes_at(file, ranking),
        sets_at(file, sets),
        size_at(file, sets),
        size_at(file, room),
        size_at(file, bytes),
        byte_at(file, fill),
    );
    if lent { end } else { NOWHERE }
}

fn weigh_case(rt: &impl Print, file: &[u8], card: usize) -> usize {
    let weights = after_bytes(file, card);
    let word = after_weights(file, weights);
    let room = after_bytes(file, word);
    let bytes = after(file, room, 2);
    let fill = after(file, bytes, 2);
    let end = after(file, fill, 1);
    if end == NOWHERE {
        return NOWHERE;
    }
    let lent = lend_and_weigh(
        rt,
        bytes_at(file, card),
        weights_at(file, weights),
        size_at(file, weights),
        bytes_at(file, word),
        size_at(file, room),
        size_at(file, bytes),
        byte_at(file, fill),
    );
    if lent { end } else { NOWHERE }
}

fn evaluate_case(rt: &impl Print, file: &[u8], card: usize) -> usize {
    let candidate = after_bytes(file, card);
    let end = after_bytes(file, candidate);
    if end != NOWHERE {
        evaluate(rt, bytes_at(file, card), bytes_at(file, candidate));
    }
    end
}

fn read_part_case(rt: &impl Print, file: &[u8], card: usize) -> usize {
    let machine = after_bytes(file, card);
    let end = after(file, machine, 1);
    if end != NOWHERE {
        read_part(rt, bytes_at(file, card), byte_at(file, machine));
    }
    end
}

fn pack_case(rt: &impl Print, file: &[u8], symbols: usize) -> usize {
    let lengths = after(file, symbols, 1);
    let parts = after_numbers(file, lengths);
    let bytes = after_bytes(file, parts);
    let fill = after(file, bytes, 2);
    let end = after(file, fill, 1);
    if end == NOWHERE {
        return NOWHERE;
    }
    let lent = lend_and_pack(
        rt,
        byte_at(file, symbols),
        numbers_at(file, lengths),
        size_at(file, lengths),
        bytes_at(file, parts),
        size_at(file, bytes),
        byte_at(file, fill),
    );
    if lent { end } else { NOWHERE }
}

fn join_case(rt: &impl Print, file: &[u8], card: usize) -> usize {
    let first = after_bytes(file, card);
    let second = after(file, first, 1);
    let bytes = after(file, second, 1);
    let fill = after(file, bytes, 2);
    let end = after(file, fill, 1);
    if end == NOWHERE {
        return NOWHERE;
    }
    let lent = lend_and_join(
        rt,
        bytes_at(file, card),
        byte_at(file, first),
        byte_at(file, second),
        size_at(file, bytes),
        byte_at(file, fill),
    );
    if lent { end } else { NOWHERE }
}

fn compare_case(rt: &impl Print, file: &[u8], machines: usize) -> usize {
    let ranking = after(file, machines, 1);
    let first = after_bytes(file, ranking);
    let second = after(file, first, 12);
    let end = after(file, second, 12);
    if end != NOWHERE {
        compare(
            rt,
            byte_at(file, machines),
            bytes_at(file, ranking),
            profile_at(file, first),
            profile_at(file, second),
        );
    }
    end
}

fn derive_case(rt: &impl Print, file: &[u8], machines: usize) -> usize {
    let first = after(file, machines, 1);
    let second = after(file, first, 12);
    let end = after(file, second, 12);
    if end != NOWHERE {
        derive(
            rt,
            byte_at(file, machines),
            profile_at(file, first),
            profile_at(file, second),
        );
    }
    end
}

fn find_case(rt: &impl Print, file: &[u8], machines: usize) -> usize {
    let conditions = after(file, machines, 1);
    let end = after_bytes(file, conditions);
    if end != NOWHERE {
        find(rt, byte_at(file, machines), bytes_at(file, conditions));
    }
    end
}

fn judge_case(rt: &impl Print, file: &[u8], card: usize) -> usize {
    let ranking = after_bytes(file, card);
    let word = after_bytes(file, ranking);
    let room = after_bytes(file, word);
    let tableau = after(file, room, 2);
    let end = after_bytes(file, tableau);
    if end == NOWHERE {
        return NOWHERE;
    }
    let lent = lend_and_judge(
        rt,
        bytes_at(file, card),
        bytes_at(file, ranking),
        bytes_at(file, word),
        size_at(file, room),
        bytes_at(file, tableau),
    );
    if lent { end } else { NOWHERE }
}

// The case at a place: its first byte is its kind.
fn case(rt: &impl Print, file: &[u8], at: usize) -> usize {
    let start = after(file, at, 1);
    match byte_at(file, at) {
        1 => search_case(rt, file, false, start),
        2 => evaluate_case(rt, file, start),
        3 => read_part_case(rt, file, start),
        4 => pack_case(rt, file, start),
        5 => compare_case(rt, file, start),
        6 => derive_case(rt, file, start),
        7 => find_case(rt, file, start),
        8 => judge_case(rt, file, start),
        9 => search_case(rt, file, true, start),
        13 => search_sets_case(rt, file, false, start),
        14 => search_sets_case(rt, file, true, start),
        15 => weigh_case(rt, file, start),
        16 => join_case(rt, file, start),
        _ => NOWHERE,
    }
}

// Every case, up to the first that is faulty. A case has a byte at least, so there are not more cases than bytes.
fn cases(rt: &impl Print, file: &[u8]) {
    let mut at = 0;
    for _ in 0..file.len() {
        if at == file.len() {
            return;
        }
        at = case(rt, file, at);
        if at > file.len() {
            write_bad_case(rt);
            return;
        }
        end_line(rt);
    }
}

// Runs the file, read into a buffer that is longer than it: one that fills the buffer is too long.
fn run(rt: &(impl Files + Print), file: &mut [u8]) {
    let n = read_file(rt, "cases", file);
    if n == file.len() {
        write_bad_case(rt);
        return;
    }
    cases(rt, &file[..n]);
}

fn main(rt: HostRuntime) {
    let mut file = [0u8; FILE_BYTES];
    run(&rt, &mut file);
}
