// A machine part: its arcs.
ghost use Rattle.std.specs.Prelude.{◌≡◌, ◌+◌, ◌^◌, ◌≤◌};
ghost use Rattle.basics.specs.Words.{length};
ghost use Rattle.machine.specs.Machine.{takes_from};
ghost use Rattle.machine.specs.Part.{eight_bytes_at, arc_at};

use crate::{Arc, Pair};

// The number of eight bytes from a place, little-endian.
fn eight_bytes(part: &[u8], at: usize) -> u64
    requires { at + 8 ≤ length part.now }
    ensures { result ≡ eight_bytes_at part.now at }
{
    u64::from_le_bytes([
        part[at],
        part[at + 1],
        part[at + 2],
        part[at + 3],
        part[at + 4],
        part[at + 5],
        part[at + 6],
        part[at + 7],
    ])
}

// The arc whose 20 bytes start at a place.
pub fn read_arc(part: &[u8], at: usize) -> Arc
    requires { at + 20 ≤ length part.now }
    ensures { result ≡ arc_at part.now at }
{
    Arc {
        from: part[at],
        to: part[at + 1],
        marks: part[at + 2],
        kind: part[at + 3],
        inputs: eight_bytes(part, at + 4),
        outputs: eight_bytes(part, at + 12),
    }
}

// Whether the arc at a place leaves the state and takes a pair, by the set of its input and the set of its output; the arc's sets are
// read only if it leaves the state.
pub fn takes_from(part: &[u8], at: usize, state: u8, input: u64, output: u64) -> bool
    requires { at + 20 ≤ length part.now }
    ensures { (pair : Pair) → input ≡ 2 ^ pair.input → output ≡ 2 ^ pair.output → result ≡ takes_from (arc_at part.now at) state pair }
{
    if part[at] != state {
        return false;
    }
    read_arc(part, at).takes(input, output)
}
