// Files read into slices, and how much of a slice still holds what it was filled with.
ghost use Rattle.std.specs.Prelude.{◌≡◌, ◌≤◌, length, take};

use std::fs::File;
use std::io::Read;
use std::rt::Files;

// Reads until the slice is full, the file ends or a read fails, and answers how many bytes it put at the front.
fn read_full(file: &mut impl Read, bytes: &mut [u8]) -> usize
    ensures { (result ≤ length bytes.new) × (result ≡ length (take result bytes.new)) }
{
    let mut done = 0;
    while done < bytes.len() {
        let n = file.read(&mut bytes[done..]).unwrap_or(0);
        if n == 0 {
            break;
        }
        done += n;
    }
    done
}

// Reads a file, and answers its length: 0 where there is none, or it cannot be read.
pub fn read_file(rt: &impl Files, name: &str, bytes: &mut [u8]) -> usize
    ensures { (result ≤ length bytes.new) × (result ≡ length (take result bytes.new)) }
{
    match File::open(rt, name) {
        Ok(mut file) => read_full(&mut file, bytes),
        Err(_) => 0,
    }
}

// How many numbers are 7: what work slices are filled with.
pub fn sevens(numbers: &[u16]) -> usize {
    numbers.iter().filter(|&&number| number == 7).count()
}
