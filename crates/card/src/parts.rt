// The check of machine parts that lie one after another in a card, or joined.
ghost use Rattle.std.specs.Prelude.{◌≡◌, ◌+◌, ◌<◌, ◌≤◌};
ghost use Rattle.basics.specs.Words.{true, length, drop};
ghost use Rattle.refusals.specs.Refusals.{checked_number};
ghost use Rattle.layout.specs.Layout.{laid_out};
ghost use Rattle.card.specs.Layout.{machine_count, symbol_count, counted, parts_of};
ghost use Rattle.card.specs.Card.{machines_refusal};
ghost use Rattle.card.specs.Packing.{total, split};

use crate::head::read_lengths;
use basics::index;
use refusals::{Refusal, tested};

// Refusals 3 to 5 of each part in turn, then 6. The parts lie in `bytes` from `start` on, one after another.
pub fn check_parts(bytes: &[u8], start: usize, lengths: &[u16], symbols: u8) -> Result<(), Refusal>
    requires { (start + total lengths.now ≤ length bytes.now) × (length lengths.now ≤ 6) × (symbols < 64) }
    ensures { checked_number result ≡ machines_refusal symbols (split lengths.now (drop start bytes.now)) }
{
    let mut offset = start;
    let mut states = 1;
    for &length in lengths {
        let end = offset + usize::from(length);
        let part = &bytes[offset..end];
        part_check::check(part, symbols)?;
        states *= machine::state_count(part);
        offset = end;
    }
    tested(states <= 128, Refusal::Product)
}

// Refusals 3 to 6 of a card whose counts and layout are right.
pub fn check_card(card: &[u8]) -> Result<(), Refusal>
    requires { (counted card.now ≡ true) × (laid_out (machine_count card.now) card.now ≡ true) }
    ensures { checked_number result ≡ machines_refusal (symbol_count card.now) (parts_of card.now) }
{
    let lengths = read_lengths(card);
    let machines = index(card[0]);
    check_parts(card, 2 + 4 * machines, &lengths[..machines], card[1])
}
