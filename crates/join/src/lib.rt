// Joining two machines of a card, by Ellison's product.
#![tactic(auto)]

ghost use Rattle.std.specs.Prelude.{◌≡◌, ◌<◌};
ghost use Rattle.basics.specs.Words.{min, max, length};
ghost use Rattle.refusals.specs.Refusals.{checked_number};
ghost use Rattle.layout.specs.Layout.{part_of};
ghost use Rattle.machine.specs.Part.{machine_of};
ghost use Rattle.card.specs.Layout.{machine_count};
ghost use Rattle.card.specs.Card.{card_refusal};
ghost use Rattle.card.specs.Packing.{packed_of};
ghost use Rattle.join.specs.JoinedMachine.{joined_machine};
ghost use Rattle.join.specs.JoinedCard.{fits_part, joinable, machines_refusal, joining_answer, joining_target};

mod card_parts; // card_parts.rt: the parts of the new card

use basics::index;
use refusals::{Refusal, tested};

// Refusal 27: two different machines of the card, one of them without marks.
fn is_joinable(card: &[u8], first: usize, second: usize) -> bool
    requires { card_refusal card.now ≡ 0 }
    ensures { result ≡ joinable card.now first second }
{
    let machines = card::machine_count(card);
    if (first == second) | (machines <= first) | (machines <= second) {
        return false;
    }
    joined::has_no_marks(card::part(card, first)) | joined::has_no_marks(card::part(card, second))
}

// Refusal 28: the joined machine has at most 32 states and 255 arcs.
fn fits_part(card: &[u8], lower: usize, other: usize) -> bool
    requires { (card_refusal card.now ≡ 0) × (lower < machine_count card.now) × (other < machine_count card.now) }
    ensures { result ≡ fits_part (joined_machine (machine_of (part_of card.now lower)) (machine_of (part_of card.now other))) }
{
    let first = card::part(card, lower);
    let second = card::part(card, other);
    let states = machine::state_count(first) * machine::state_count(second);
    (states <= 32) & (joined::arc_count(first, second) <= 255)
}

// The first of refusals 1 to 6, 27 and 28 that joining two machines meets.
fn check_joining(card: &[u8], first: usize, second: usize) -> Result<(), Refusal>
    ensures { checked_number result ≡ machines_refusal card.now first second }
{
    card::check(card)?;
    tested(is_joinable(card, first, second), Refusal::Machines)?;
    let lower = first.min(second);
    let other = first.max(second);
    tested(fits_part(card, lower, other), Refusal::JoinedSize)
}

// Joins two machines of a card, in either order. The new card fills the front of the target, whose other bytes stay, and its length is
// answered.
pub fn join(card: &[u8], first: u8, second: u8, target: &mut [u8]) -> Result<usize, Refusal>
    ensures { (packed_of result ≡ joining_answer card.now first second (length target.old)) × (target.new ≡ joining_target card.now first second target.old) }
{
    let first = index(first);
    let second = index(second);
    check_joining(card, first, second)?;
    let lower = first.min(second);
    let other = first.max(second);
    let length = card_parts::new_card_length(card, lower, other);
    tested(length <= target.len(), Refusal::Target)?;
    card_parts::write_card(target, card, lower, other);
    Ok(length)
}
