// Packing: the sum of the lengths, and the writing of a card.
ghost use Rattle.std.specs.Prelude.{◌≡◌, ◌++◌, ◌+◌, ◌*◌, ◌/◌, ◌%◌, ◌<◌, ◌≤◌};
ghost use Rattle.basics.specs.Words.{length, take, drop, set};
ghost use Rattle.layout.specs.Packing.{total, table};

// The sum of the lengths.
pub fn sum(lengths: &[u16]) -> usize
    requires { length lengths.now ≤ 6 }
    ensures { result ≡ total lengths.now }
{
    lengths.iter().map(|&length| usize::from(length)).sum()
}

// Writes a number as two bytes, little-endian.
fn write_short(target: &mut [u8], at: usize, value: usize)
    requires { (at + 2 ≤ length target.old) × (value < 65536) }
    ensures { target.new ≡ set (set target.old at (value % 256)) (at + 1) (value / 256) }
{
    let [low, high] = (value as u16).to_le_bytes();
    target[at] = low;
    target[at + 1] = high;
}

// Writes the counts and the places of the parts, by the index: it says where in the table.
pub fn write_table(target: &mut [u8], symbols: u8, lengths: &[u16])
    requires { (length lengths.now ≤ 6) × (2 + 4 * length lengths.now ≤ length target.old) × (2 + 4 * length lengths.now + total lengths.now < 65536) }
    ensures { target.new ≡ table symbols lengths.now ++ drop (2 + 4 * length lengths.now) target.old }
{
    target[0] = lengths.len() as u8;
    target[1] = symbols;
    let mut start = 2 + 4 * lengths.len();
    for i in 0..lengths.len() {
        let length = usize::from(lengths[i]);
        write_short(target, 2 + 4 * i, start);
        write_short(target, 4 + 4 * i, length);
        start += length;
    }
}

// Writes a part to its stretch of the target, which then holds the part. Byte by byte: `copy_from_slice` is a call of memmove, and of other libraries
// the archive needs memcpy and memset alone.
pub fn write_part(stretch: &mut [u8], part: &[u8])
    requires { length stretch.old ≡ length part.now }
    ensures { stretch.new ≡ part.now }
{
    for i in 0..part.len() {
        stretch[i] = part[i];
    }
}

// Writes each part to its own stretch of the target, from the part's offset and as long as the part.
pub fn write_parts(target: &mut [u8], lengths: &[u16], parts: &[u8])
    requires { (length lengths.now ≤ 6) × (total lengths.now ≡ length parts.now) × (2 + 4 * length lengths.now + length parts.now ≤ length target.old) }
    ensures { target.new ≡ take (2 + 4 * length lengths.now) target.old ++ parts.now ++ drop (2 + 4 * length lengths.now + length parts.now) target.old }
{
    let mut offset = 2 + 4 * lengths.len();
    let mut from = 0;
    for &length in lengths {
        let length = usize::from(length);
        let end = offset + length;
        let next = from + length;
        write_part(&mut target[offset..end], &parts[from..next]);
        offset = end;
        from = next;
    }
}
