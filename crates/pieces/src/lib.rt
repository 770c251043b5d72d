// What is printed for a piece of the input, and after the last one: the answers to the lines that end in it, what is held of the line that goes on, the
// lesson's closing lines. No contract can speak of what is written to standard output.
#![tactic(auto)]

ghost use Rattle.std.specs.Prelude.{◌≡◌, ◌≤◌};
ghost use Rattle.basics.specs.Words.{true, false, [], length, take};
ghost use Rattle.writing.specs.Buffers.{at_front};
ghost use Rattle.lesson.specs.Printed.{Prints};
ghost use Rattle.lesson.specs.Tally.{is_full, line_tally, line_text, Fits};
ghost use Rattle.pieces.specs.Pieces.{Answers, printed_pieces};

use lines::Next;
use tally::Tally;

// Room for the longest line: six counts and the pairs of all answer bytes.
const OUT_BYTES: usize = 25628;

// What printing the answer to a line leads to: the tally after it, and whether everything was written. A flag, as in `Progress`.
#[derive(Clone, Copy)]
struct Printed {
    tally: Tally,
    written: bool,
}

// Prints the answer to the next line: its text, which is left at the front of `out`. Where it was not written, nothing is promised
// of the tally: so a caller that goes on after a write that failed cannot keep its own contract.
fn print_answer(rt: &impl Print, card: &[u8], line: &[u8], tally: Tally, out: &mut [u8]) -> Printed
    requires { (25628 ≤ length out.old) × Fits tally × (tally.past ≡ false) }
    ensures tally { (result.written ≡ true → result.tally ≡ line_tally card.now tally line.now) × Fits result.tally }
    ensures text { out.new ≡ at_front (line_text card.now tally line.now) out.old }
{
    let turn = lesson::answer_next(card, line, tally, out);
    let size = turn.size;
    let written = rt.write_all(&out[..size]).is_ok();
    let tally = turn.tally;
    Printed { tally, written }
}

// How far the input is answered: how many bytes are held of the line that goes on, the tally, and whether everything was written.
// After a write that failed nothing more is read or written. No `Result`: both cases have the same two fields, so it is no plainer
// (docs/DECISIONS.md, 160).
#[derive(Clone, Copy)]
pub struct Progress {
    pub held: usize,
    pub tally: Tally,
    pub written: bool,
}

// Prints the answers to the lines that end in a piece of the input, up to the first past the thousandth. The first one's bytes so
// far stand at the front of `line`, `held` of them.
pub fn answer_piece(
    rt: &impl Print,
    card: &[u8],
    piece: &[u8],
    line: &mut [u8],
    held: usize,
    tally: Tally,
    out: &mut [u8],
) -> Progress
    requires { (held ≤ 201) × (length line.old ≡ 201) × Fits tally × (tally.past ≡ false) × (25628 ≤ length out.old) }
    ensures { Answers card.now (take held line.old) piece.now tally line.new result.held result.tally result.written }
{
    let mut at = 0;
    let mut length = held;
    let mut so_far = tally;
    loop {
        let next = lines::next_line(piece, at, line, length);
        match next {
            Next::Line {
                length: whole,
                at: after,
            } => {
                let printed = print_answer(rt, card, &line[..whole], so_far, out);
                let written = printed.written;
                let tally = printed.tally;
                if tally.past | !written {
                    return Progress {
                        held: 0,
                        tally,
                        written,
                    };
                }
                so_far = tally;
                length = 0;
                at = after;
            }
            Next::Open { length: bytes } => {
                return Progress {
                    held: bytes,
                    tally: so_far,
                    written: true,
                };
            }
        }
    }
}

// Writes what is printed after the last piece to the front of a slice, and answers its length: the answer to the line that is held,
// if there is one, and the closing lines.
pub fn finish(card: &[u8], line: &[u8], tally: Tally, out: &mut [u8]) -> usize
    requires { (length out.old ≡ 25748) × Fits tally × (tally.past ≡ true → is_full tally ≡ true) }
    ensures { Prints (printed_pieces card.now tally line.now []) out.old out.new result }
{
    if tally.past | (line.len() == 0) {
        return lesson::write_closing(card, tally, out);
    }
    let room = OUT_BYTES;
    let turn = lesson::answer_next(card, line, tally, &mut out[..room]);
    let size = turn.size;
    let n = lesson::write_closing(card, turn.tally, &mut out[size..]);
    size + n
}
