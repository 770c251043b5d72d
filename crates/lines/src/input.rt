// Taking the lines out of the input, which comes in pieces.
ghost use Rattle.std.specs.Prelude.{◌≡◌, ◌++◌, ◌≤◌};
ghost use Rattle.basics.specs.Words.{length, take, drop};
ghost use Rattle.writing.specs.Text.{line_end, before};
ghost use Rattle.writing.specs.Buffers.{at_front};
ghost use Rattle.lines.specs.Input.{kept, next_of};

use crate::Next;
use writing::text::{length_before, write_text};

// Takes a line's bytes from a piece of the input, from `from` to the line's end or the piece's. The line's bytes from earlier
// pieces stand at the front of `line`, `held` of them.
pub fn next_line(piece: &[u8], from: usize, line: &mut [u8], held: usize) -> Next
    requires { (from ≤ length piece.now) × (held ≤ 201) × (201 ≤ length line.old) }
    ensures answer { result ≡ next_of (take held line.old) from (drop from piece.now) }
    ensures line { line.new ≡ at_front (kept (take held line.old ++ before line_end (drop from piece.now))) line.old }
{
    let rest = &piece[from..];
    let n = length_before(rest, b'\n');
    let taken = n.min(201 - held);
    let length = write_text(&rest[..taken], line, held);
    if n == rest.len() {
        Next::Open { length }
    } else {
        Next::Line {
            length,
            at: from + n + 1,
        }
    }
}
