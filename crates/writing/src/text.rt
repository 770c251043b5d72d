// Texts as slices of bytes.
ghost use Rattle.std.specs.Prelude.{◌≡◌, ◌∷◌, ◌+◌, ◌<◌, ◌≤◌};
ghost use Rattle.basics.specs.Words.{[], min, length};
ghost use Rattle.writing.specs.Text.{before};
ghost use Rattle.writing.specs.Buffers.{Written};

// How many bytes stand before the first byte `b`: all of them where there is none.
pub fn length_before(text: &[u8], b: u8) -> usize
    ensures { (result ≡ length (before b text.now)) × (result ≤ length text.now) }
{
    text.iter().position(|&x| x == b).unwrap_or(text.len())
}

// Writes a byte at a place, and answers the place after it.
pub fn write_byte(b: u8, out: &mut [u8], at: usize) -> usize
    requires { at < length out.old }
    ensures { Written (b ∷ []) at out.old out.new result }
{
    out[at] = b;
    at + 1
}

// Writes a text from a place on, and answers the place after it. Byte by byte: what `copy_from_slice` compiles to compares addresses, which
// targets/portable.py refuses.
pub fn write_text(text: &[u8], out: &mut [u8], at: usize) -> usize
    requires { at + length text.now ≤ length out.old }
    ensures { Written text.now at out.old out.new result }
{
    for i in 0..text.len() {
        out[at + i] = text[i];
    }
    at + text.len()
}

// The smaller of two numbers.
pub fn least(a: usize, b: usize) -> usize
    ensures { (result ≡ min a b) × (result ≤ a) × (result ≤ b) }
{
    a.min(b)
}
