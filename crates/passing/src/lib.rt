// Passing a pair: the places of the states at hand, the states that its steps lead to, their marks added, the pair written; the ending's marks.
#![tactic(auto)]

ghost use Rattle.std.specs.Prelude.{◌≡◌, ◌<◌};
ghost use Rattle.basics.specs.Words.{true, some, ℕ, length};
ghost use Rattle.machine.specs.Machine.{ending_of};
ghost use Rattle.machine.specs.Part.{shaped, machine_of};
ghost use Rattle.passing.specs.Places.{PlacesPre, Placed, MarksPre, MarksAdded, MovedPre, Moved};
ghost use Rattle.passing.specs.Going.{GoPre, GoesOn, EndsPre, EndingAdded};

use basics::index;
use machine::Position;
use ranking::Profile;

// Writes the places of some states in a column, a place for each machine.
pub fn places_of(places: &mut [u8], states: &[u8], counts: &[u8])
    requires { PlacesPre counts.now states.now places.old }
    ensures { Placed counts.now states.now places.new }
{
    let mut first = 0;
    for (m, &count) in counts.iter().enumerate() {
        places[m] = first + states[m];
        first += count;
    }
}

// Passes the steps of a column at these places: the states that they lead to, their marks added.
pub fn pass(
    states: &mut [u8],
    marks: &mut [u16],
    steps: &[u16],
    width: usize,
    places: &[u8],
    output: usize,
)
    requires { MovedPre steps.now places.now width output × MarksPre marks.old × (length states.old ≡ 6) }
    ensures { Moved steps.now places.now width output states.new × MarksAdded marks.old steps.now places.now width output marks.new }
{
    for (m, &place) in places.iter().enumerate() {
        let step = steps[output * width + index(place)];
        states[m] = (step / 16) as u8;
        marks[m] += step % 16;
    }
}

// Goes on by the pair of an input and an output, whose steps stand at these places: the states and the marks passed change in place, and the pair is
// written after `written` pairs.
pub fn go_on(
    states: &mut [u8],
    marks: &mut [u16],
    steps: &[u16],
    width: usize,
    places: &[u8],
    input: u8,
    output: usize,
    written: usize,
    answer: &mut [u8],
)
    requires { GoPre states.old marks.old steps.now places.now answer.old width output written }
    ensures { GoesOn marks.old steps.now places.now answer.old states.new marks.new answer.new width input output written }
{
    pass(states, marks, steps, width, places, output);
    answer[2 * written] = input;
    answer[2 * written + 1] = output as u8;
}

// The marks of ending in a state, 0 where it is not final.
fn ending_marks(part: &[u8], state: u8) -> u16
    requires { shaped part.now ≡ true }
    ensures { ((n : ℕ) → ending_of (machine_of part.now) state ≡ some n → result ≡ n) × (result < 256) }
{
    let Some(marks) = Position { state }.ending(part) else {
        return 0;
    };
    marks as u16
}

// The profile with the marks of the machines' endings in these states.
pub fn with_ending(profile: Profile, card: &[u8], states: &[u8]) -> Profile
    requires { EndsPre card.now states.now profile }
    ensures { EndingAdded card.now states.now profile result }
{
    let mut sums = profile.counts;
    for (m, &state) in states.iter().enumerate() {
        sums[m] += ending_marks(card::part(card, m), state);
    }
    Profile { counts: sums }
}
