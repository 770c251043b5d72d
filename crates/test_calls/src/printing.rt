// Text, and numbers in decimal, to standard output.
pub fn write(rt: &impl Print, text: &[u8]) {
    let _ = rt.write_all(text);
}

pub fn write_number(rt: &impl Print, number: u64) {
    let _ = rt.print(number);
}

pub fn write_byte(rt: &impl Print, byte: u8) {
    write_number(rt, byte as u64);
}

pub fn write_count(rt: &impl Print, count: u16) {
    write_number(rt, count as u64);
}

// The same with a space before.
pub fn write_spaced_number(rt: &impl Print, number: u64) {
    write(rt, b" ");
    write_number(rt, number);
}

pub fn write_spaced_byte(rt: &impl Print, byte: u8) {
    write_spaced_number(rt, byte as u64);
}

pub fn write_spaced_count(rt: &impl Print, count: u16) {
    write_spaced_number(rt, count as u64);
}

pub fn write_spaced_size(rt: &impl Print, size: usize) {
    write_spaced_number(rt, size as u64);
}
