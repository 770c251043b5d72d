// The outputs worth trying: of outputs with the same column the first at least.
#![tactic(auto)]

ghost use Rattle.std.specs.Prelude.{◌≡◌, ◌<◌, ◌≤◌};
ghost use Rattle.basics.specs.Words.{true, ℕ, length, member};
ghost use Rattle.outputs.specs.Outputs.{SameColumn, Told, Worth, Wide};

use basics::index;
use machine::sets;

// Whether two outputs have the same column.
fn is_same(steps: &[u16], width: usize, a: usize, b: usize) -> bool
    requires { Wide steps.now width × (a < 64) × (b < 64) }
    ensures { result ≡ true → SameColumn steps.now width a b }
{
    steps[a * width..][..width] == steps[b * width..][..width]
}

// The key of an output's column: outputs with the same column have the same key.
fn key_of(steps: &[u16], width: usize, output: usize) -> usize
    requires { Wide steps.now width × (output < 64) }
    ensures { result < 256 }
{
    let mut sum = 0;
    for (place, &step) in steps[output * width..][..width].iter().enumerate() {
        sum += usize::from(step) * (2 * place + 1);
    }
    sum % 256
}

// Whether an output has the column of one that is kept, none of which is behind it. `last` has at each key the last output that was kept with it: with
// that one alone the output is compared, so of outputs with the same column two may be kept.
fn is_known(steps: &[u16], width: usize, kept: u64, output: usize, last: &mut [u8]) -> bool
    requires { Wide steps.now width × (output < 64) × ((k : ℕ) → member kept k ≡ true → k ≤ output) × (length last.old ≡ 256) }
    ensures { result ≡ true → Told steps.now width kept output }
{
    let key = key_of(steps, width, output);
    let other = last[key] % 64;
    if sets::holds(kept, sets::set_of(other)) {
        if is_same(steps, width, index(other), output) {
            return true;
        }
    }
    last[key] = output as u8;
    false
}

// Of some outputs those worth trying: without those whose column is found to be that of a smaller one.
pub fn worth(steps: &[u16], width: usize, outputs: u64) -> u64
    requires { Wide steps.now width }
    ensures { Worth steps.now width outputs result }
{
    let mut last = [63u8; 256];
    let mut kept: u64 = 0;
    let mut left = outputs;
    while left > 0 {
        let output = sets::least(left);
        let rest = sets::without_least(left);
        if !is_known(steps, width, kept, output, &mut last) {
            kept |= sets::set_of(output as u8);
        }
        left = rest;
    }
    kept
}
