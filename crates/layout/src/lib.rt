// The layout of parts: byte strings that start with a table of the places of their parts, one part after another to the end. A card's
// machines lie so.
#![tactic(auto)]

ghost use Rattle.std.specs.Prelude.{◌≡◌, ◌+◌, ◌*◌, ◌<◌, ◌≤◌};
ghost use Rattle.basics.specs.Words.{length};
ghost use Rattle.layout.specs.Layout.{short_at, offset_of, length_of, laid_out, part_of};
ghost use Rattle.layout.specs.LaidOut.{PartWithin};

use basics::index;

pub mod packing; // packing.rt: the lengths of parts, their sum, and the writing of a card

// The number of two bytes from a place, little-endian.
fn short(bytes: &[u8], at: usize) -> usize
    requires { at + 2 ≤ length bytes.now }
    ensures { (result ≡ short_at bytes.now at) × (result < 65536) }
{
    usize::from(u16::from_le_bytes([bytes[at], bytes[at + 1]]))
}

// Where part i starts, as the table says.
pub fn part_offset(bytes: &[u8], i: usize) -> usize
    requires { 6 + 4 * i ≤ length bytes.now }
    ensures { (result ≡ offset_of bytes.now i) × (result < 65536) }
{
    short(bytes, 2 + 4 * i)
}

// How many bytes part i has, as the table says.
pub fn part_length(bytes: &[u8], i: usize) -> usize
    requires { 6 + 4 * i ≤ length bytes.now }
    ensures { (result ≡ length_of bytes.now i) × (result < 65536) }
{
    short(bytes, 4 + 4 * i)
}

// Part i: the slice from its offset, as long as it is.
pub fn part(bytes: &[u8], i: usize) -> &[u8]
    requires { PartWithin bytes.now i }
    ensures { result.now ≡ part_of bytes.now i }
{
    let offset = part_offset(bytes, i);
    let end = offset + part_length(bytes, i);
    &bytes[offset..end]
}

// Whether `count` parts are laid out: there is room for the table, each part starts where the one before it ends, and the last ends at
// the end.
pub fn is_laid_out(bytes: &[u8], count: u8) -> bool
    ensures { result ≡ laid_out count bytes.now }
{
    let count = index(count);
    let mut due = 2 + 4 * count;
    if bytes.len() < due {
        return false;
    }
    for i in 0..count {
        if part_offset(bytes, i) != due {
            return false;
        }
        due += part_length(bytes, i);
    }
    due == bytes.len()
}
