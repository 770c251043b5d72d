// Parsing an input line.
ghost use Rattle.std.specs.Prelude.{◌≡◌, ◌≤◌};
ghost use Rattle.basics.specs.Words.{true, map, length, all_of};
ghost use Rattle.writing.specs.Decimal.{is_digit, digit_value, value_of};
ghost use Rattle.lines.specs.Parsing.{is_ranking_text, is_symbol_text, symbols_in, is_word_text, parsed_line, parsed_answer, ranking_of, word_of};
ghost use Rattle.writing.specs.Buffers.{at_front};

use crate::Parsed;
use writing::decimal::{are_digits, value};
use writing::text::length_before;

// A longer line is a bad line.
const LINE_BYTES: usize = 200;

fn is_ranking_text(text: &[u8]) -> bool
    ensures { result ≡ is_ranking_text text.now }
{
    (1 <= text.len()) & (text.len() <= 9) & are_digits(text)
}

fn is_symbol_text(text: &[u8]) -> bool
    ensures { result ≡ is_symbol_text text.now }
{
    (1 <= text.len()) & (text.len() <= 3) & are_digits(text) && value(text) <= 255
}

fn is_word_text(text: &[u8]) -> bool
    ensures { result ≡ is_word_text text.now }
{
    if text.len() == 0 {
        return true;
    }
    let mut rest = text;
    loop {
        let n = length_before(rest, b',');
        if !is_symbol_text(&rest[..n]) {
            return false;
        }
        if n == rest.len() {
            return true;
        }
        rest = &rest[n + 1..];
    }
}

// Writes the digits' values to the front of a slice.
fn write_ranking(digits: &[u8], ranking: &mut [u8])
    requires { (all_of is_digit digits.now ≡ true) × (length digits.now ≤ length ranking.old) }
    ensures { ranking.new ≡ at_front (map digit_value digits.now) ranking.old }
{
    for (at, &digit) in digits.iter().enumerate() {
        ranking[at] = digit - b'0';
    }
}

// Writes the symbols to the front of a slice, and answers how many there are.
fn write_word(text: &[u8], word: &mut [u8]) -> usize
    requires { (is_word_text text.now ≡ true) × (length (symbols_in text.now) ≤ length word.old) }
    ensures value { result ≡ length (symbols_in text.now) }
    ensures word_after { word.new ≡ at_front (map value_of (symbols_in text.now)) word.old }
{
    if text.len() == 0 {
        return 0;
    }
    let mut rest = text;
    let mut count = 0;
    loop {
        let n = length_before(rest, b',');
        word[count] = value(&rest[..n]) as u8;
        count += 1;
        if n == rest.len() {
            return count;
        }
        rest = &rest[n + 1..];
    }
}

// Parses a line, given without its line end. A bad line is none, and of it nothing is written.
pub fn parse(line: &[u8], ranking: &mut [u8], word: &mut [u8]) -> Option<Parsed>
    requires { (9 ≤ length ranking.old) × (100 ≤ length word.old) }
    ensures answer { result ≡ parsed_answer (parsed_line line.now) }
    ensures ranking { ranking.new ≡ at_front (ranking_of (parsed_line line.now)) ranking.old }
    ensures word { word.new ≡ at_front (word_of (parsed_line line.now)) word.old }
{
    if line.len() > LINE_BYTES {
        return None;
    }
    let space = length_before(line, b' ');
    if space == line.len() {
        return None;
    }
    let digits = &line[..space];
    let symbols = &line[space + 1..];
    if !is_ranking_text(digits) {
        return None;
    }
    if !is_word_text(symbols) {
        return None;
    }
    write_ranking(digits, ranking);
    let count = write_word(symbols, word);
    Some(Parsed {
        ranking: space,
        word: count,
    })
}
