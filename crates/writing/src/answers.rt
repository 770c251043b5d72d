// Writing the lines that the program prints.
ghost use Rattle.std.specs.Prelude.{◌≡◌, ◌+◌, ◌*◌, ◌<◌, ◌≤◌};
ghost use Rattle.basics.specs.Words.{length, joined};
ghost use Rattle.candidate.specs.declared.Evaluation.{Evaluation};
ghost use Rattle.writing.specs.Buffers.{Written, Below, at_front};
ghost use Rattle.writing.specs.Writing.{next_count, with_commas, pair_text, pairs_text, bad_line, refused_line, accepted_line, line_of, total_line, closing_lines};

use crate::decimal::write_number;
use crate::text::{least, write_byte, write_text};
use candidate::Evaluation;
use ranking::Profile;

// Writes a comma and a count from a place on, and answers the place after them.
fn write_next_count(count: u32, out: &mut [u8], at: usize) -> usize
    requires { at + length (next_count count) ≤ length out.old }
    ensures { Written (next_count count) at out.old out.new result }
{
    let next = write_byte(b',', out, at);
    write_number(count, out, next)
}

// Writes a comma and a count, for each count, from a place on, and answers the place after them.
fn write_next_counts(counts: &[u32], out: &mut [u8], at: usize) -> usize
    requires { at + length (joined next_count counts.now) ≤ length out.old }
    ensures { Written (joined next_count counts.now) at out.old out.new result }
{
    let mut next = at;
    for &count in counts {
        next = write_next_count(count, out, next);
    }
    next
}

// Writes counts with commas between them from a place on, and answers the place after them.
fn write_counts(counts: &[u32], out: &mut [u8], at: usize) -> usize
    requires { at + length (with_commas counts.now) ≤ length out.old }
    ensures { Written (with_commas counts.now) at out.old out.new result }
{
    if counts.len() == 0 {
        return at;
    }
    let next = write_number(counts[0], out, at);
    write_next_counts(&counts[1..], out, next)
}

// Writes a space and a pair from a place on, and answers the place after them.
fn write_pair(input: u8, output: u8, out: &mut [u8], at: usize) -> usize
    requires { at + length (pair_text input output) ≤ length out.old }
    ensures { Written (pair_text input output) at out.old out.new result }
{
    let next = write_byte(b' ', out, at);
    let next = write_number(u32::from(input), out, next);
    let next = write_byte(b':', out, next);
    write_number(u32::from(output), out, next)
}

// Writes the pairs of a byte string from a place on, and answers the place after them.
fn write_pairs(bytes: &[u8], out: &mut [u8], at: usize) -> usize
    requires { at + length (pairs_text bytes.now) ≤ length out.old }
    ensures { Written (pairs_text bytes.now) at out.old out.new result }
{
    let mut next = at;
    for &[input, output] in bytes.as_chunks::<2>().0 {
        next = write_pair(input, output, out, next);
    }
    next
}

// Writes `bad line` to the front of a slice, and answers the line's length.
pub fn write_bad_line(out: &mut [u8]) -> usize
    requires { 9 ≤ length out.old }
    ensures length { result ≡ length bad_line }
    ensures out { out.new ≡ at_front bad_line out.old }
{
    write_text(b"bad line\n", out, 0)
}

// Writes `refused N` to the front of a slice, and answers the line's length.
pub fn write_refused(number: u8, out: &mut [u8]) -> usize
    requires { 12 ≤ length out.old }
    ensures length { result ≡ length (refused_line number) }
    ensures out { out.new ≡ at_front (refused_line number) out.old }
{
    let next = write_text(b"refused ", out, 0);
    let next = write_number(u32::from(number), out, next);
    write_byte(b'\n', out, next)
}

// Writes an accepted answer's line to the front of a slice, and answers the line's length.
fn write_accepted(counts: &[u32], bytes: &[u8], out: &mut [u8]) -> usize
    requires { (length counts.now ≤ 6) × Below 65536 counts.now × (36 + 4 * length bytes.now ≤ length out.old) }
    ensures length { result ≡ length (accepted_line counts.now bytes.now) }
    ensures out { out.new ≡ at_front (accepted_line counts.now bytes.now) out.old }
{
    let next = write_counts(counts, out, 0);
    let next = write_pairs(bytes, out, next);
    write_byte(b'\n', out, next)
}

// A profile's counts as the numbers that are written.
fn wide_counts(profile: Profile) -> [u32; 6]
    ensures { (result ≡ profile.counts) × Below 65536 result }
{
    profile.counts.map(u32::from)
}

// Writes an answer's line to the front of a slice, and answers the line's length. The counts are those of `machines`
// machines; the pairs stand at the front of `answer`.
pub fn write_answer<A: Into<Evaluation>>(
    best: A,
    machines: u8,
    answer: &[u8],
    out: &mut [u8],
) -> usize
    requires { 36 + 4 * length answer.now ≤ length out.old }
    ensures { (evaluation : Evaluation) × A.converts best evaluation × (result ≡ length (line_of machines evaluation answer.now)) × (out.new ≡ at_front (line_of machines evaluation answer.now) out.old) }
{
    let evaluation: Evaluation = best.into();
    let number = evaluation.number;
    if number != 0 {
        return write_refused(number, out);
    }
    let profile = evaluation.profile;
    let counts = wide_counts(profile);
    let shown = least(machines as usize, 6);
    let used = least(2 * (evaluation.pairs as usize), answer.len());
    write_accepted(&counts[..shown], &answer[..used], out)
}

// Writes `total` and the totals, if there are any, from a place on, and answers the place after them.
fn write_total(totals: &[u32], out: &mut [u8], at: usize) -> usize
    requires { at + length (total_line totals.now) ≤ length out.old }
    ensures { Written (total_line totals.now) at out.old out.new result }
{
    let next = write_text(b"total", out, at);
    if totals.len() == 0 {
        return write_byte(b'\n', out, next);
    }
    let next = write_byte(b' ', out, next);
    let next = write_counts(totals, out, next);
    write_byte(b'\n', out, next)
}

// Writes the two lines under a lesson's lines to the front of a slice, and answers their length.
pub fn write_closing(answered: u32, refused: u32, totals: &[u32], out: &mut [u8]) -> usize
    requires { (length totals.now ≤ 6) × (120 ≤ length out.old) }
    ensures length { result ≡ length (closing_lines answered refused totals.now) }
    ensures out { out.new ≡ at_front (closing_lines answered refused totals.now) out.old }
{
    let next = write_text(b"answered ", out, 0);
    let next = write_number(answered, out, next);
    let next = write_text(b" refused ", out, next);
    let next = write_number(refused, out, next);
    let next = write_byte(b'\n', out, next);
    write_total(totals, out, next)
}
