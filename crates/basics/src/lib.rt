// Definitions that the specifications of every crate share, in specs/, and the one function that their code shares.
#![tactic(auto)]

ghost use Rattle.std.specs.Prelude.{◌≡◌, ◌<◌};

// A byte as a number to index with. Called where `usize::from` would do, so that the edit `high_bit_lost` makes programs wrong (docs/DECISIONS.md, 204).
pub fn index(x: u8) -> usize
    ensures { (result ≡ x) × (result < 256) }
{
    x as usize
}
