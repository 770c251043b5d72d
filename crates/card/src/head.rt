// The front of a card: K, S and the lengths of the parts.
ghost use Rattle.std.specs.Prelude.{◌≡◌, ◌+◌, ◌*◌, ◌<◌, ◌≤◌};
ghost use Rattle.basics.specs.Words.{true, ℕ, length, get_or};
ghost use Rattle.refusals.specs.Refusals.{refuse, checked_number};
ghost use Rattle.layout.specs.Layout.{length_of, laid_out};
ghost use Rattle.card.specs.Layout.{machine_count, sound_counts, counted};

use basics::index;
use refusals::{Refusal, tested};

// Refusal 1: K is 1 to 6 and S is 1 to 63.
pub fn check_counts(machines: usize, symbols: u8) -> Result<(), Refusal>
    ensures { checked_number result ≡ refuse 1 (sound_counts machines symbols) }
{
    tested(
        (1 <= machines) & (machines <= 6) & (1 <= symbols) & (symbols <= 63),
        Refusal::Counts,
    )
}

// Refusal 1 of a card: it has both counts, and they are in range.
pub fn check_head(card: &[u8]) -> Result<(), Refusal>
    ensures { checked_number result ≡ refuse 1 (counted card.now) }
{
    if card.len() < 2 {
        return Err(Refusal::Counts);
    }
    check_counts(index(card[0]), card[1])
}

// Refusal 2: the parts follow one another to the card's end.
pub fn check_layout(card: &[u8]) -> Result<(), Refusal>
    requires { counted card.now ≡ true }
    ensures { checked_number result ≡ refuse 2 (laid_out (machine_count card.now) card.now) }
{
    tested(layout::is_laid_out(card, card[0]), Refusal::Layout)
}

// The length of a part, 0 where the card has no such part.
fn length_at(card: &[u8], machine: u8) -> u16
    requires { 2 + 4 * machine_count card.now ≤ length card.now }
    ensures { machine < machine_count card.now → result ≡ length_of card.now machine }
{
    if machine < card[0] {
        return layout::part_length(card, index(machine)) as u16;
    }
    0
}

// The lengths of a card's parts; places from K on are 0. Six calls, and no loop: the check of a card is then long enough to be laid out once.
pub fn read_lengths(card: &[u8]) -> [u16; 6]
    requires { (machine_count card.now ≤ 6) × (2 + 4 * machine_count card.now ≤ length card.now) }
    ensures { (length result ≡ 6) × ((i : ℕ) → i < machine_count card.now → get_or result i 0 ≡ length_of card.now i) }
{
    [
        length_at(card, 0),
        length_at(card, 1),
        length_at(card, 2),
        length_at(card, 3),
        length_at(card, 4),
        length_at(card, 5),
    ]
}
