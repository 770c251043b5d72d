// The board's work from its first byte to its last: the card from `card.bin`, lines from standard input, and for each a line on
// standard output, then the lesson's totals. What a line says and how lines are taken from pieces are proved in the crate lines, how a line
// is counted in tally, what is printed for it in lesson, for a piece and after the last one in pieces; what is kept between two pieces, here.
// No contract can speak of what is read and written.
#![tactic(auto)]

ghost use Rattle.std.specs.Prelude.{◌≡◌, ◌<◌, ◌≤◌, IfSome};
ghost use Rattle.basics.specs.Words.{false, length, take};
ghost use Rattle.lesson.specs.Tally.{Fits};
ghost use Rattle.session.specs.Output.{Reads, Finishes};

use pieces::Progress;
use std::fs::File;
use std::io::Read;
use std::rt::Files;
use tally::Tally;

// More bytes than any accepted card has: of a longer file the first ones are used.
const CARD_BYTES: usize = 30831;

// What is kept of a line: one byte more than it may have.
const LINE_BYTES: usize = 201;

// Room for a line's text and the closing lines.
const LAST_BYTES: usize = 25748;

// The input is read in pieces of at most so many bytes.
const PIECE_BYTES: usize = 4096;

// Reads a piece of the input, and answers its length: 0 where the input ends or fails.
fn read_piece(input: &mut impl Read, piece: &mut [u8]) -> usize
    ensures { (result ≤ length piece.new) × (result ≡ length (take result piece.new)) }
{
    input.read(piece).unwrap_or(0)
}

// Prints the answers to the lines of the rest of the input that end, up to the first past the thousandth. The first one's bytes so
// far stand at the front of `line`, `held` of them, and in the end those of the last one. A proved loop has to end, and nothing says
// that an input does: the loop counts its turns, up to a number that no run comes to, since a thousand million readings a second
// take 584 years for it.
fn answer_pieces(
    rt: &impl Print,
    input: &mut impl Read,
    card: &[u8],
    line: &mut [u8],
    held: usize,
    tally: Tally,
    out: &mut [u8],
) -> Progress
    requires { (held ≤ 201) × (length line.old ≡ 201) × Fits tally × (tally.past ≡ false) × (25628 ≤ length out.old) }
    ensures { Reads card.now (take held line.old) tally line.new result.held result.tally result.written }
{
    let mut piece = [0u8; PIECE_BYTES];
    let mut bytes = held;
    let mut so_far = tally;
    for _ in 0..u64::MAX {
        let n = read_piece(input, &mut piece);
        if n == 0 {
            break;
        }
        let progress = pieces::answer_piece(rt, card, &piece[..n], line, bytes, so_far, out);
        let after = progress.tally;
        let written = progress.written;
        if after.past | !written {
            return progress;
        }
        bytes = progress.held;
        so_far = after;
    }
    Progress {
        held: bytes,
        tally: so_far,
        written: true,
    }
}

// Prints the answers to the lines of the rest of the input that end, writes what is printed after them to the front of `out`, and
// answers its length: none where a write failed.
fn answer_rest(
    rt: &impl Print,
    input: &mut impl Read,
    card: &[u8],
    line: &mut [u8],
    held: usize,
    tally: Tally,
    out: &mut [u8],
) -> Option<usize>
    requires { (held ≤ 201) × (length line.old ≡ 201) × Fits tally × (tally.past ≡ false) × (length out.old ≡ 25748) }
    ensures { IfSome result (λ n. (0 < n) × Finishes card.now (take held line.old) tally out.new n) }
{
    let progress = answer_pieces(rt, input, card, line, held, tally, out);
    let printed = progress.written;
    if !printed {
        return None;
    }
    let bytes = progress.held;
    Some(pieces::finish(card, &line[..bytes], progress.tally, out))
}

// Prints the answers to the lines of the input, the last of which may lack its line end, and the closing lines.
fn answer_input(rt: &impl Print, input: &mut impl Read, card: &[u8]) {
    let mut line = [0u8; LINE_BYTES];
    let mut out = [0u8; LAST_BYTES];
    if let Some(size) = answer_rest(rt, input, card, &mut line, 0, Tally::none(), &mut out) {
        let _ = rt.write_all(&out[..size]);
    }
}

// Reads until the buffer is full, the file ends or a read fails, and answers how many bytes it put at the front.
fn read_full(file: &mut impl Read, bytes: &mut [u8]) -> usize
    ensures { (result ≤ length bytes.new) × (result ≡ length (take result bytes.new)) }
{
    let mut done = 0;
    while done < bytes.len() {
        let n = read_piece(file, &mut bytes[done..]);
        if n == 0 {
            break;
        }
        done += n;
    }
    done
}

// Reads the card, and answers its length: 0 where there is none, or it cannot be read.
fn read_card(rt: &impl Files, card: &mut [u8]) -> usize
    ensures { (result ≤ length card.new) × (result ≡ length (take result card.new)) }
{
    match File::open(rt, "card.bin") {
        Ok(mut file) => read_full(&mut file, card),
        Err(_) => 0,
    }
}

// The whole program.
pub fn run(rt: &(impl Files + Print), input: &mut impl Read) {
    let mut card = [0u8; CARD_BYTES];
    let n = read_card(rt, &mut card);
    answer_input(rt, input, &card[..n]);
}
