// What a state of each machine counts in a code.
ghost use Rattle.std.specs.Prelude.{◌*◌, ◌≤◌};
ghost use Rattle.basics.specs.Words.{length};
ghost use Rattle.tables.specs.Tables.{CountsOfSome};
ghost use Rattle.cells.specs.Scales.{ScalesWritten};

// Writes the scales, the first of three numbers for each machine: the product of the state counts behind it.
pub fn write_scales(weights: &mut [u64], counts: &[u8])
    requires { CountsOfSome counts.now × (3 * length counts.now ≤ length weights.old) }
    ensures { ScalesWritten counts.now weights.old weights.new 0 }
{
    let mut scale = 1;
    for m in (0..counts.len()).rev() {
        weights[3 * m] = scale;
        scale *= u64::from(counts[m]);
    }
}
