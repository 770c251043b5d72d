// Grammar cards: the layout, the check of a card, reading a part, packing.
#![tactic(auto)]

ghost use Rattle.std.specs.Prelude.{◌≡◌, ◌<◌};
ghost use Rattle.refusals.specs.Refusals.{checked_number};
ghost use Rattle.layout.specs.Layout.{part_of};
ghost use Rattle.card.specs.Layout.{machine_count, symbol_count};
ghost use Rattle.card.specs.Card.{card_refusal};
ghost use Rattle.card.specs.Reading.{reading_refusal, part_place_of, reading};
ghost use Rattle.card.specs.Packing.{packing_refusal, packed_of, packing, packed_target};

mod head; // head.rt: K, S and the lengths of the parts
mod parts; // parts.rt: the check of the machine parts

use basics::index;
pub use layout::packing;
use refusals::{Refusal, tested};

// Where a part lies in its card.
#[derive(Clone, Copy)]
pub struct Stretch {
    pub offset: usize,
    pub length: usize,
}

// What reading a part answers, as one record: the refusal's number, 0 where there is none, and where the part lies.
#[derive(Clone, Copy)]
pub struct PartPlace {
    pub number: u8,
    pub offset: usize,
    pub length: usize,
}

impl From<Result<Stretch, Refusal>> for PartPlace {
    ghost from_gives = { λ answer place. place ≡ part_place_of answer };

    fn from(answer: Result<Stretch, Refusal>) -> PartPlace
        ensures { result ≡ part_place_of answer }
    {
        match answer {
            Ok(stretch) => PartPlace {
                number: 0,
                offset: stretch.offset,
                length: stretch.length,
            },
            Err(refusal) => PartPlace {
                number: u8::from(refusal),
                offset: 0,
                length: 0,
            },
        }
    }
}

// What packing answers, as one record: the refusal's number, 0 where there is none, and the card's length.
#[derive(Clone, Copy)]
pub struct Packed {
    pub number: u8,
    pub length: usize,
}

impl From<Result<usize, Refusal>> for Packed {
    ghost from_gives = { λ answer packed. packed ≡ packed_of answer };

    fn from(answer: Result<usize, Refusal>) -> Packed
        ensures { result ≡ packed_of answer }
    {
        match answer {
            Ok(length) => Packed { number: 0, length },
            Err(refusal) => Packed {
                number: u8::from(refusal),
                length: 0,
            },
        }
    }
}

// The first of refusals 1 to 6 that applies to a card.
pub fn check(card: &[u8]) -> Result<(), Refusal>
    ensures { checked_number result ≡ card_refusal card.now }
{
    head::check_head(card)?;
    head::check_layout(card)?;
    parts::check_card(card)
}

// K, the number of machines of an accepted card.
pub fn machine_count(card: &[u8]) -> usize
    requires { card_refusal card.now ≡ 0 }
    ensures { result ≡ machine_count card.now }
{
    index(card[0])
}

// S, the number of symbols of an accepted card.
pub fn symbol_count(card: &[u8]) -> u8
    requires { card_refusal card.now ≡ 0 }
    ensures { result ≡ symbol_count card.now }
{
    card[1]
}

// A part of an accepted card: the card's slice from its offset, as long as it is.
pub fn part(card: &[u8], machine: usize) -> &[u8]
    requires { (card_refusal card.now ≡ 0) × (machine < machine_count card.now) }
    ensures { result.now ≡ part_of card.now machine }
{
    layout::part(card, machine)
}

// The first of refusals 1 to 6 and 17 that reading part `machine` meets.
fn check_reading(card: &[u8], machine: u8) -> Result<(), Refusal>
    ensures { checked_number result ≡ reading_refusal card.now machine }
{
    check(card)?;
    tested(machine < card[0], Refusal::Parts)
}

// Reading part `machine`: where it lies in the card.
pub fn read_part(card: &[u8], machine: u8) -> Result<Stretch, Refusal>
    ensures { part_place_of result ≡ reading card.now machine }
{
    check_reading(card, machine)?;
    let machine = index(machine);
    Ok(Stretch {
        offset: layout::part_offset(card, machine),
        length: layout::part_length(card, machine),
    })
}

// The first of refusals 1, 17, 3 to 6 and 18 that packing meets, for a target of `room` bytes.
fn check_packing(symbols: u8, lengths: &[u16], parts: &[u8], room: usize) -> Result<(), Refusal>
    ensures { checked_number result ≡ packing_refusal symbols lengths.now parts.now room }
{
    head::check_counts(lengths.len(), symbols)?;
    tested(packing::sum(lengths) == parts.len(), Refusal::Parts)?;
    parts::check_parts(parts, 0, lengths, symbols)?;
    tested(2 + 4 * lengths.len() + parts.len() <= room, Refusal::Target)
}

// Packs parts, joined, into a card at the front of the target, whose other bytes stay. The card's length.
pub fn pack(symbols: u8, lengths: &[u16], parts: &[u8], target: &mut [u8]) -> Result<usize, Refusal>
    ensures { (packed_of result ≡ packing symbols lengths.now parts.now target.old) × (target.new ≡ packed_target symbols lengths.now parts.now target.old) }
{
    check_packing(symbols, lengths, parts, target.len())?;
    packing::write_table(target, symbols, lengths);
    packing::write_parts(target, lengths, parts);
    Ok(2 + 4 * lengths.len() + parts.len())
}
