// The check of a machine part.
#![tactic(auto)]

ghost use Rattle.std.specs.Prelude.{◌≡◌, ◌<◌};
ghost use Rattle.basics.specs.Words.{true};
ghost use Rattle.refusals.specs.Refusals.{refuse, checked_number};
ghost use Rattle.machine.specs.Part.{shaped, sound_states, sound_arcs, part_refusal};

use basics::index;
use machine::{part, sets};
use refusals::{Refusal, tested};

mod clashes; // clashes.rt: no two arcs of a state take one pair

// Refusal 3: the length is what the first bytes say.
fn check_length(part: &[u8]) -> Result<(), Refusal>
    ensures { checked_number result ≡ refuse 3 (shaped part.now) }
{
    if part.len() < 2 {
        return Err(Refusal::PartLength);
    }
    let states = index(part[0]);
    let arcs = index(part[1]);
    tested(
        (1 <= states) & (states <= 32) & (part.len() == 2 + states + 20 * arcs),
        Refusal::PartLength,
    )
}

// Refusal 4, the states: no state byte is over 16.
fn check_states(part: &[u8]) -> Result<(), Refusal>
    requires { shaped part.now ≡ true }
    ensures { checked_number result ≡ refuse 4 (sound_states part.now) }
{
    let end = 2 + index(part[0]);
    for &byte in &part[2..end] {
        if byte > 16 {
            return Err(Refusal::Field);
        }
    }
    Ok(())
}

// Refusal 4, the arcs: the fields of each are in range.
fn check_arcs(part: &[u8], symbols: u8) -> Result<(), Refusal>
    requires { (shaped part.now ≡ true) × (symbols < 64) }
    ensures { checked_number result ≡ refuse 4 (sound_arcs symbols part.now) }
{
    let states = part[0];
    let last = sets::set_of(symbols);
    let first = 2 + index(states);
    for i in 0..index(part[1]) {
        if !part::read_arc(part, first + 20 * i).is_sound(states, last) {
            return Err(Refusal::Field);
        }
    }
    Ok(())
}

// The first of refusals 3, 4 and 5 that applies to a part, on a card of `symbols` symbols.
pub fn check(part: &[u8], symbols: u8) -> Result<(), Refusal>
    requires { symbols < 64 }
    ensures { checked_number result ≡ part_refusal symbols part.now }
{
    check_length(part)?;
    check_states(part)?;
    check_arcs(part, symbols)?;
    clashes::check_clashes(part)
}
