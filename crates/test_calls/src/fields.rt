// The fields of the file's cases. A number has 16 bits, the low byte first, a weight 32, a set 64; bytes, numbers, weights and sets have a number before them
// that says how many they are; a profile is six numbers. A field is known by its place. What the file is too short for is nowhere, and so is what comes after it.
ghost use Rattle.std.specs.Prelude.{◌<◌};

use ranking::Profile;

// Past the end of every file.
pub const NOWHERE: usize = usize::MAX;

// The place so many bytes on.
pub fn after(file: &[u8], at: usize, bytes: usize) -> usize {
    if at > file.len() {
        return NOWHERE;
    }
    if bytes > file.len() - at {
        return NOWHERE;
    }
    at + bytes
}

// The byte at a place, 0 past the end.
pub fn byte_at(file: &[u8], at: usize) -> u8 {
    if at < file.len() { file[at] } else { 0 }
}

fn wide(byte: u8) -> u16
    ensures { result < 256 }
{
    byte as u16
}

// The number at a place.
pub fn number_at(file: &[u8], at: usize) -> u16 {
    wide(byte_at(file, at)) + 256 * wide(byte_at(file, after(file, at, 1)))
}

// The number at a place, as a size.
pub fn size_at(file: &[u8], at: usize) -> usize {
    number_at(file, at) as usize
}

// The place after the bytes at a place.
pub fn after_bytes(file: &[u8], at: usize) -> usize {
    after(file, after(file, at, 2), size_at(file, at))
}

// The place after the numbers at a place.
pub fn after_numbers(file: &[u8], at: usize) -> usize {
    let halfway = after_bytes(file, at);
    after(file, halfway, size_at(file, at))
}

// The place after the weights at a place.
pub fn after_weights(file: &[u8], at: usize) -> usize {
    after(file, after(file, at, 2), 4 * number_at(file, at) as usize)
}

// The place after the sets at a place.
pub fn after_sets(file: &[u8], at: usize) -> usize {
    after(file, after(file, at, 2), 8 * number_at(file, at) as usize)
}

// The bytes at a place, none where they are not whole.
pub fn bytes_at(file: &[u8], at: usize) -> &[u8] {
    let start = after(file, at, 2);
    let end = after_bytes(file, at);
    if end > file.len() {
        return &file[..0];
    }
    if start > end {
        return &file[..0];
    }
    &file[start..end]
}

// The first seven of the numbers at a place, and what stands in the file after them where they are fewer.
pub fn numbers_at(file: &[u8], at: usize) -> [u16; 7] {
    [
        number_at(file, after(file, at, 2)),
        number_at(file, after(file, at, 4)),
        number_at(file, after(file, at, 6)),
        number_at(file, after(file, at, 8)),
        number_at(file, after(file, at, 10)),
        number_at(file, after(file, at, 12)),
        number_at(file, after(file, at, 14)),
    ]
}

// The weight at a place.
fn weight_at(file: &[u8], at: usize) -> u32 {
    let low = number_at(file, at) as u32;
    let high = number_at(file, after(file, at, 2)) as u32;
    low | (high << 16)
}

// The first eight of the weights at a place, and what stands in the file after them where they are fewer.
pub fn weights_at(file: &[u8], at: usize) -> [u32; 8] {
    [
        weight_at(file, after(file, at, 2)),
        weight_at(file, after(file, at, 6)),
        weight_at(file, after(file, at, 10)),
        weight_at(file, after(file, at, 14)),
        weight_at(file, after(file, at, 18)),
        weight_at(file, after(file, at, 22)),
        weight_at(file, after(file, at, 26)),
        weight_at(file, after(file, at, 30)),
    ]
}

// The set at a place.
fn set_at(file: &[u8], at: usize) -> u64 {
    let low = number_at(file, at) as u64;
    let next = number_at(file, after(file, at, 2)) as u64;
    let third = number_at(file, after(file, at, 4)) as u64;
    let high = number_at(file, after(file, at, 6)) as u64;
    low | (next << 16) | (third << 32) | (high << 48)
}

// The first 32 of the sets at a place, and what stands in the file after them where they are fewer.
pub fn sets_at(file: &[u8], at: usize) -> [u64; 32] {
    let mut sets = [0u64; 32];
    let mut place = after(file, at, 2);
    for position in 0..32 {
        sets[position] = set_at(file, place);
        place = after(file, place, 8);
    }
    sets
}

// The six counts at a place.
pub fn profile_at(file: &[u8], at: usize) -> Profile {
    Profile {
        counts: [
            number_at(file, at),
            number_at(file, after(file, at, 2)),
            number_at(file, after(file, at, 4)),
            number_at(file, after(file, at, 6)),
            number_at(file, after(file, at, 8)),
            number_at(file, after(file, at, 10)),
        ],
    }
}
