// Numbers in decimal.
ghost use Rattle.std.specs.Prelude.{◌≡◌, ◌+◌, ◌≤◌, ◌<◌};
ghost use Rattle.basics.specs.Words.{true, length, all_of};
ghost use Rattle.writing.specs.Decimal.{is_digit, value_of};
ghost use Rattle.writing.specs.Decimal.{decimal as Decimal·decimal};
ghost use Rattle.writing.specs.Buffers.{Written};

// Whether each byte is a digit.
pub fn are_digits(text: &[u8]) -> bool
    ensures { result ≡ all_of is_digit text.now }
{
    text.iter().all(u8::is_ascii_digit)
}

// The number that at most three digits say.
pub fn value(digits: &[u8]) -> u16
    requires { (length digits.now ≤ 3) × (all_of is_digit digits.now ≡ true) }
    ensures { result ≡ value_of digits.now }
{
    let mut n = 0;
    for &digit in digits {
        n = n * 10 + u16::from(digit - b'0');
    }
    n
}

// Writes a number from a place on, and answers the place after it.
pub fn write_number(n: u32, out: &mut [u8], at: usize) -> usize
    requires { at + length (Decimal·decimal n) ≤ length out.old }
    ensures { Written (Decimal·decimal n) at out.old out.new result }
{
    if n < 10 {
        out[at] = b'0' + n as u8;
        return at + 1;
    }
    let last = write_number(n / 10, out, at);
    out[last] = b'0' + (n % 10) as u8;
    last + 1
}
