// The writing of the joined part.
ghost use Rattle.std.specs.Prelude.{◌≡◌, ◌+◌, ◌≤◌};
ghost use Rattle.basics.specs.Words.{true, map, length};
ghost use Rattle.machine.specs.Part.{state_count, state_bytes, arcs_of, shaped, sound_states};
ghost use Rattle.joined.specs.JoinedMachine.{joined_arcs, crossed};
ghost use Rattle.joined.specs.MachineBytes.{little_endian, arc_bytes, joined_part};
ghost use Rattle.joined.specs.Writing.{placed, joined_byte, shared_bytes, row_bytes, rows_bytes, ArcsFit, RowFits, PartsJoin};

use machine::Arc;

// Writes a number as eight bytes from a place on, little-endian. Byte by byte: what `copy_from_slice` compiles to compares addresses, which
// targets/portable.py refuses.
fn write_number(target: &mut [u8], at: usize, value: u64)
    requires { at + 8 ≤ length target.old }
    ensures { target.new ≡ placed at (little_endian 8 value) target.old }
{
    let mut left = value;
    for i in 0..8 {
        target[at + i] = (left % 256) as u8;
        left /= 256;
    }
}

// Writes an arc as 20 bytes from a place on.
fn write_arc(target: &mut [u8], at: usize, arc: Arc)
    requires { at + 20 ≤ length target.old }
    ensures { target.new ≡ placed at (arc_bytes arc) target.old }
{
    target[at] = arc.from;
    target[at + 1] = arc.to;
    target[at + 2] = arc.marks;
    target[at + 3] = arc.kind;
    write_number(target, at + 4, arc.inputs);
    write_number(target, at + 12, arc.outputs);
}

// Writes the arc that two give from a place on, if they take a common pair, and answers the place behind it.
fn write_shared(target: &mut [u8], at: usize, states: usize, first: Arc, second: Arc) -> usize
    requires { (states ≤ 32) × ArcsFit states first second × (at + length (shared_bytes states first second) ≤ length target.old) }
    ensures { (target.new ≡ placed at (shared_bytes states first second) target.old) × (result ≡ at + length (shared_bytes states first second)) }
{
    if !crate::share_pair(first, second) {
        return at;
    }
    write_arc(target, at, crate::joined_arc(states, first, second));
    at + 20
}

// Writes the arcs that an arc gives with each of a part, in their order, and answers the place behind them.
fn write_row(target: &mut [u8], at: usize, arc: Arc, second: &[u8]) -> usize
    requires { RowFits second.now arc × (at + length (row_bytes second.now arc) ≤ length target.old) }
    ensures { (target.new ≡ placed at (row_bytes second.now arc) target.old) × (result ≡ at + length (row_bytes second.now arc)) }
{
    let states = machine::state_count(second);
    let arcs = machine::arc_count(second);
    let mut next = at;
    for i in 0..arcs {
        let other = machine::nth_arc(second, states, i);
        next = write_shared(target, next, states, arc, other);
    }
    next
}

// Writes the arcs of two parts as one from a place on, by the first, then the second.
fn write_rows(target: &mut [u8], at: usize, first: &[u8], second: &[u8])
    requires { PartsJoin first.now second.now × (at + length (rows_bytes first.now second.now) ≤ length target.old) }
    ensures { target.new ≡ placed at (rows_bytes first.now second.now) target.old }
{
    let states = machine::state_count(first);
    let arcs = machine::arc_count(first);
    let mut next = at;
    for i in 0..arcs {
        let arc = machine::nth_arc(first, states, i);
        next = write_row(target, next, arc, second);
    }
}

// Writes the bytes that a state byte gives with each of a part's from a place on.
fn write_ending(target: &mut [u8], at: usize, byte: u8, second: &[u8])
    requires { (shaped second.now ≡ true) × (sound_states second.now ≡ true) × (byte ≤ 16) × (at + state_count second.now ≤ length target.old) }
    ensures { target.new ≡ placed at (map (joined_byte byte) (state_bytes second.now)) target.old }
{
    for i in 0..machine::state_count(second) {
        target[at + i] = crate::joined_byte(byte, crate::state_byte(second, i));
    }
}

// Writes the state bytes of two parts as one from a place on, by the first, then the second.
fn write_endings(target: &mut [u8], at: usize, first: &[u8], second: &[u8])
    requires { PartsJoin first.now second.now × (at + length (crossed joined_byte (state_bytes first.now) (state_bytes second.now)) ≤ length target.old) }
    ensures { target.new ≡ placed at (crossed joined_byte (state_bytes first.now) (state_bytes second.now)) target.old }
{
    let states = machine::state_count(second);
    let mut next = at;
    for i in 0..machine::state_count(first) {
        write_ending(target, next, crate::state_byte(first, i), second);
        next += states;
    }
}

// Writes two parts as one to its stretch of the target, which then holds the joined part; it has `arcs` arcs.
pub fn write_joined(stretch: &mut [u8], first: &[u8], second: &[u8], arcs: usize)
    requires { PartsJoin first.now second.now × (length stretch.old ≡ length (joined_part first.now second.now)) × (arcs ≡ length (joined_arcs (state_count second.now) (arcs_of first.now) (arcs_of second.now))) }
    ensures { stretch.new ≡ joined_part first.now second.now }
{
    let states = machine::state_count(first) * machine::state_count(second);
    stretch[0] = states as u8;
    stretch[1] = arcs as u8;
    write_endings(stretch, 2, first, second);
    write_rows(stretch, 2 + states, first, second);
}
