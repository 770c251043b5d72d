// The parts of the new card: their lengths, and the writing of the card.
ghost use Rattle.std.specs.Prelude.{◌≡◌, ◌+◌, ◌-◌, ◌<◌, ◌≤◌};
ghost use Rattle.basics.specs.Words.{[], map, length, get_or, take};
ghost use Rattle.card.specs.Layout.{machine_count, parts_of};
ghost use Rattle.join.specs.JoinedCard.{joined_parts, joined_card};
ghost use Rattle.join.specs.Writing.{placed, table_length, joined_bytes, old_number, CardJoins, JoinedArcCount};

// The number that a machine had, where the machine `gone` has gone.
fn old_number(gone: usize, machine: usize) -> usize
    requires { machine < 6 }
    ensures { result ≡ old_number gone machine }
{
    if machine < gone {
        return machine;
    }
    machine + 1
}

// The arcs of the joined machine.
fn arc_count(card: &[u8], lower: usize, other: usize) -> usize
    requires { CardJoins card.now lower other }
    ensures { JoinedArcCount card.now lower other result }
{
    joined::arc_count(card::part(card, lower), card::part(card, other))
}

// How many bytes the new card's part i has.
fn part_length(card: &[u8], lower: usize, other: usize, arcs: usize, i: usize) -> usize
    requires { CardJoins card.now lower other × JoinedArcCount card.now lower other arcs × (i + 1 < machine_count card.now) }
    ensures { (result ≡ length (get_or (joined_parts lower other (parts_of card.now)) i [])) × (result < 65536) }
{
    if i == lower {
        let first = card::part(card, lower);
        let second = card::part(card, other);
        return 2 + machine::state_count(first) * machine::state_count(second) + 20 * arcs;
    }
    layout::part_length(card, old_number(other, i))
}

// The lengths of the new card's parts; places past them are 0.
fn part_lengths(card: &[u8], lower: usize, other: usize, arcs: usize) -> [u16; 6]
    requires { CardJoins card.now lower other × JoinedArcCount card.now lower other arcs }
    ensures { (length result ≡ 6) × (take (machine_count card.now - 1) result ≡ map length (joined_parts lower other (parts_of card.now))) }
{
    let mut lengths = [0u16; 6];
    let machines = card::machine_count(card) - 1;
    for i in 0..machines {
        lengths[i] = part_length(card, lower, other, arcs, i) as u16;
    }
    lengths
}

// The new card's length.
pub fn new_card_length(card: &[u8], lower: usize, other: usize) -> usize
    requires { CardJoins card.now lower other }
    ensures { result ≡ length (joined_card lower other card.now) }
{
    let lengths = part_lengths(card, lower, other, arc_count(card, lower, other));
    let machines = card::machine_count(card) - 1;
    2 + 4 * machines + card::packing::sum(&lengths[..machines])
}

// Writes the new card's part i to its stretch of the target.
fn write_part(stretch: &mut [u8], card: &[u8], lower: usize, other: usize, arcs: usize, i: usize)
    requires { CardJoins card.now lower other × JoinedArcCount card.now lower other arcs × (i + 1 < machine_count card.now) × (length stretch.old ≡ length (get_or (joined_parts lower other (parts_of card.now)) i [])) }
    ensures { stretch.new ≡ get_or (joined_parts lower other (parts_of card.now)) i [] }
{
    if i == lower {
        joined::writing::write_joined(
            stretch,
            card::part(card, lower),
            card::part(card, other),
            arcs,
        );
    } else {
        card::packing::write_part(stretch, card::part(card, old_number(other, i)));
    }
}

// Writes each part of the new card to its own stretch of the target, behind the table.
fn write_parts(target: &mut [u8], card: &[u8], lower: usize, other: usize, arcs: usize)
    requires { CardJoins card.now lower other × JoinedArcCount card.now lower other arcs × (length (joined_card lower other card.now) ≤ length target.old) }
    ensures { target.new ≡ placed (table_length card.now) (joined_bytes lower other card.now) target.old }
{
    let machines = card::machine_count(card) - 1;
    let mut offset = 2 + 4 * machines;
    for i in 0..machines {
        let end = offset + part_length(card, lower, other, arcs, i);
        write_part(&mut target[offset..end], card, lower, other, arcs, i);
        offset = end;
    }
}

// Writes the new card to the front of a target that is long enough.
pub fn write_card(target: &mut [u8], card: &[u8], lower: usize, other: usize)
    requires { CardJoins card.now lower other × (length (joined_card lower other card.now) ≤ length target.old) }
    ensures { target.new ≡ placed 0 (joined_card lower other card.now) target.old }
{
    let arcs = arc_count(card, lower, other);
    let lengths = part_lengths(card, lower, other, arcs);
    let machines = card::machine_count(card) - 1;
    card::packing::write_table(target, card::symbol_count(card), &lengths[..machines]);
    write_parts(target, card, lower, other, arcs);
}
