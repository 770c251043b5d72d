// The words of a line: numbers in decimal, each with a space before it or, in a list, a comma.
ghost use Rattle.std.specs.Prelude.{◌<◌};

use crate::printing::{
    write, write_byte, write_count, write_spaced_byte, write_spaced_count, write_spaced_number,
    write_spaced_size,
};
use crate::slices::sevens;
use candidate::Evaluation;
use finder::Finding;
use ranking::{Order, Profile};
use refusals::Refusal;

// What slices are written modulo.
const PRIME: u64 = 1000000007;

pub fn end_line(rt: &impl Print) {
    write(rt, b"\n");
}

// The line of a faulty case.
pub fn write_bad_case(rt: &impl Print) {
    write(rt, b"bad case\n");
}

fn write_next_count(rt: &impl Print, count: u16) {
    write(rt, b",");
    write_count(rt, count);
}

fn write_next_machine(rt: &impl Print, machine: u8) {
    write(rt, b",");
    write_byte(rt, machine);
}

fn write_profile(rt: &impl Print, profile: Profile) {
    write_spaced_count(rt, profile.counts[0]);
    write_next_count(rt, profile.counts[1]);
    write_next_count(rt, profile.counts[2]);
    write_next_count(rt, profile.counts[3]);
    write_next_count(rt, profile.counts[4]);
    write_next_count(rt, profile.counts[5]);
}

// An answer's number: 0 where nothing is refused.
pub fn number_of<T>(answer: &Result<T, Refusal>) -> u8 {
    match answer {
        Ok(_) => 0,
        Err(refusal) => u8::from(*refusal),
    }
}

// Number, profile, pair count, word length.
pub fn write_evaluation(rt: &impl Print, answer: impl Into<Evaluation>) {
    let evaluation: Evaluation = answer.into();
    write_spaced_byte(rt, evaluation.number);
    write_profile(rt, evaluation.profile);
    write_spaced_count(rt, evaluation.pairs);
    write_spaced_count(rt, evaluation.word_length);
}

// Number and ranking.
pub fn write_finding(rt: &impl Print, answer: impl Into<Finding>) {
    let finding: Finding = answer.into();
    let ranking = finding.ranking;
    write_spaced_byte(rt, finding.number);
    write_spaced_byte(rt, ranking[0]);
    write_next_machine(rt, ranking[1]);
    write_next_machine(rt, ranking[2]);
    write_next_machine(rt, ranking[3]);
    write_next_machine(rt, ranking[4]);
    write_next_machine(rt, ranking[5]);
}

// A number, and the two fields of a result.
pub fn write_three(rt: &impl Print, number: u8, first: u8, second: u8) {
    write_spaced_byte(rt, number);
    write_spaced_byte(rt, first);
    write_spaced_byte(rt, second);
}

// Better is 1, equal 2, worse 3, and then the machine that decided, 0 with equal.
pub fn write_order(rt: &impl Print, order: Order) {
    match order {
        Order::Better(machine) => write_three(rt, 0, 1, machine),
        Order::Equal => write_three(rt, 0, 2, 0),
        Order::Worse(machine) => write_three(rt, 0, 3, machine),
    }
}

// A slice in short: its bytes as the digits of a number to base 257, modulo a prime.
pub fn write_slice(rt: &impl Print, bytes: &[u8]) {
    let mut sum: u64 = 0;
    for &byte in bytes {
        sum = (257 * sum + u64::from(byte)) % PRIME;
    }
    write_spaced_number(rt, sum);
}

// How many numbers are 7.
pub fn wide_sevens(numbers: &[u64]) -> usize {
    numbers.iter().filter(|&&number| number == 7).count()
}

// How many numbers of the work slice are still 7, where the call has to keep it: it is left open once check 9 is passed.
pub fn write_kept(rt: &impl Print, number: u8, count: usize) {
    if ((1 <= number) & (number <= 9)) | (number == 25) | (number == 26) {
        write_spaced_size(rt, count);
    }
}

// What a search answers, and the slices that it was lent.
pub fn write_best(rt: &impl Print, best: impl Into<Evaluation>, work: &[u16], answer: &[u8]) {
    let evaluation: Evaluation = best.into();
    write_evaluation(rt, evaluation);
    write_slice(rt, answer);
    write_kept(rt, evaluation.number, sevens(work));
}
