// What two arcs and two parts have in common, and what they are as one, by Ellison's product.
#![tactic(auto)]

ghost use Rattle.std.specs.Prelude.{◌≡◌, ◌+◌, ◌*◌, ◌<◌, ◌≤◌};
ghost use Rattle.basics.specs.Words.{true, length, get_or, eqb, all_of};
ghost use Rattle.machine.specs.Machine.{take_one_pair};
ghost use Rattle.machine.specs.Part.{state_count, state_bytes, ending_byte, arcs_of, machine_of, shaped};
ghost use Rattle.joined.specs.JoinedMachine.{joined_kind, joined_arc, arcs_with, joined_arcs, ends_free, markless};
ghost use Rattle.joined.specs.CommonPairs.{kinds_clash, HasPair};
ghost use Rattle.joined.specs.Writing.{joined_byte, ArcsFit};

use machine::{Arc, sets};

pub mod writing; // writing.rt: the joined part, written

// The byte of a state of a part.
pub fn state_byte(part: &[u8], state: usize) -> u8
    requires { (shaped part.now ≡ true) × (state < state_count part.now) }
    ensures { result ≡ get_or (state_bytes part.now) state 0 }
{
    part[2 + state]
}

// The state byte of two: final if both are, with the marks of both.
pub fn joined_byte(first: u8, second: u8) -> u8
    requires { (first ≤ 16) × (second ≤ 16) }
    ensures { result ≡ joined_byte first second }
{
    if (first == 0) | (second == 0) {
        return 0;
    }
    first + second - 1
}

// Whether no arc of a part has marks.
fn arcs_are_free(part: &[u8]) -> bool
    requires { shaped part.now ≡ true }
    ensures { result ≡ all_of (λ a. eqb a.marks 0) (arcs_of part.now) }
{
    let states = machine::state_count(part);
    for i in 0..machine::arc_count(part) {
        let arc = machine::nth_arc(part, states, i);
        if arc.marks != 0 {
            return false;
        }
    }
    true
}

// Whether no ending of a part has marks.
fn endings_are_free(part: &[u8]) -> bool
    requires { shaped part.now ≡ true }
    ensures { result ≡ all_of (λ b. ends_free (ending_byte b)) (state_bytes part.now) }
{
    for i in 0..machine::state_count(part) {
        if state_byte(part, i) > 1 {
            return false;
        }
    }
    true
}

// Whether a part has no marks at all, arcs and endings both.
pub fn has_no_marks(part: &[u8]) -> bool
    requires { shaped part.now ≡ true }
    ensures { result ≡ markless (machine_of part.now) }
{
    arcs_are_free(part) & endings_are_free(part)
}

// Whether no pair is of both kinds: of one in is equal to out, of the other unlike.
fn kinds_clash(first: u8, second: u8) -> bool
    ensures { result ≡ kinds_clash first second }
{
    ((first == 1) & (1 < second)) | ((1 < first) & (second == 1))
}

// Whether a pair of a kind has in and out in two sets.
fn has_pair(kind: u8, inputs: u64, outputs: u64) -> bool
    ensures { HasPair kind inputs outputs result }
{
    if (inputs == 0) | (outputs == 0) {
        return false;
    }
    let all = inputs | outputs;
    if kind == 0 {
        return sets::without_empty(all) != 0;
    }
    if kind == 1 {
        return sets::without_empty(inputs & outputs) != 0;
    }
    sets::without_least(all) != 0
}

// Whether two arcs take a common pair.
pub fn share_pair(first: Arc, second: Arc) -> bool
    ensures { result ≡ take_one_pair first second }
{
    let clash = kinds_clash(first.kind, second.kind);
    let inputs = first.inputs & second.inputs;
    let outputs = first.outputs & second.outputs;
    !clash & has_pair(joined_kind(first.kind, second.kind), inputs, outputs)
}

// The kind of two arcs that take a common pair: theirs, or the one that is not 0.
fn joined_kind(first: u8, second: u8) -> u8
    ensures { result ≡ joined_kind first second }
{
    if first == 0 {
        return second;
    }
    first
}

// Two arcs as one, in machines of which the second has `states` states.
pub fn joined_arc(states: usize, first: Arc, second: Arc) -> Arc
    requires { (states ≤ 32) × ArcsFit states first second }
    ensures { result ≡ joined_arc states first second }
{
    let states = states as u8;
    Arc {
        from: first.from * states + second.from,
        to: first.to * states + second.to,
        marks: first.marks + second.marks,
        kind: joined_kind(first.kind, second.kind),
        inputs: first.inputs & second.inputs,
        outputs: first.outputs & second.outputs,
    }
}

// How many arcs of a part take a common pair with an arc.
fn row_count(arc: Arc, second: &[u8]) -> usize
    requires { shaped second.now ≡ true }
    ensures { (result ≡ length (arcs_with (state_count second.now) (arcs_of second.now) arc)) × (result ≤ 255) }
{
    let states = machine::state_count(second);
    let arcs = machine::arc_count(second);
    let mut count: usize = 0;
    for i in 0..arcs {
        let other = machine::nth_arc(second, states, i);
        if share_pair(arc, other) {
            count += 1;
        }
    }
    count
}

// How many arcs two parts have as one.
pub fn arc_count(first: &[u8], second: &[u8]) -> usize
    requires { (shaped first.now ≡ true) × (shaped second.now ≡ true) }
    ensures { (result ≡ length (joined_arcs (state_count second.now) (arcs_of first.now) (arcs_of second.now))) × (result ≤ 65025) }
{
    let states = machine::state_count(first);
    let arcs = machine::arc_count(first);
    let mut count: usize = 0;
    for i in 0..arcs {
        let arc = machine::nth_arc(first, states, i);
        count += row_count(arc, second);
    }
    count
}
