// Constraint machines: pairs of symbols, arcs, steps and endings.
#![tactic(auto)]

ghost use Rattle.std.specs.Prelude.{◌≡◌, ◌<◌, ◌^◌};
ghost use Rattle.basics.specs.Words.{true, ℕ, get_or, eqb, member};
ghost use Rattle.machine.specs.Symbols.{empty_symbol, pair_of, is_pair, within_symbols};
ghost use Rattle.machine.specs.Machine.{start_state, takes, step_of, stepped, ending_of, ended};
ghost use Rattle.machine.specs.Part.{state_count, arc_count, arcs_of, machine_of, shaped, sound_arc};

pub mod part; // part.rt: what a part's bytes say

use basics::index;
pub use symbols::sets;

// A pair of symbols, in and out.
#[derive(Clone, Copy)]
pub struct Pair {
    pub input: u8,
    pub output: u8,
}

impl Pair {
    // The empty symbol.
    pub const EMPTY: u8 = symbols::EMPTY;

    // The first of the other symbols; a cast, since a const calls no `from`.
    pub const FIRST: usize = Pair::EMPTY as usize + 1;

    // The pair of an in and an out.
    pub fn new(input: u8, output: u8) -> Self
        ensures { result ≡ pair_of input output }
    {
        Pair { input, output }
    }

    // Whether in and out are not both empty.
    pub fn is_pair(self) -> bool
        ensures { result ≡ is_pair self }
    {
        !((self.input == Pair::EMPTY) & (self.output == Pair::EMPTY))
    }

    // Whether in is empty.
    pub fn inserts(self) -> bool
        ensures { result ≡ eqb self.input empty_symbol }
    {
        self.input == Pair::EMPTY
    }

    // Whether in and out are empty or among `symbols` symbols.
    pub fn is_within(self, symbols: u8) -> bool
        ensures { result ≡ within_symbols symbols self }
    {
        (self.input <= symbols) & (self.output <= symbols)
    }
}

// An arc of a machine: the states that it joins, its marks, its kind, its sets of symbols.
#[derive(Clone, Copy)]
pub struct Arc {
    pub from: u8,
    pub to: u8,
    pub marks: u8,
    pub kind: u8,
    pub inputs: u64,
    pub outputs: u64,
}

impl Arc {
    // Whether the arc takes a pair, by the set of its input and the set of its output.
    pub fn takes(self, input: u64, output: u64) -> bool
        ensures { (pair : Pair) → input ≡ 2 ^ pair.input → output ≡ 2 ^ pair.output → result ≡ takes self pair }
    {
        sets::holds(self.outputs_for(input), output)
    }

    // The outputs with which the arc takes an input, as a set, by the set of the input.
    pub fn outputs_for(self, input: u64) -> u64
        ensures { (x y : ℕ) → input ≡ 2 ^ x → member result y ≡ takes self (record { input = x; output = y }) }
    {
        if sets::holds(self.inputs, input) {
            sets::of_kind(self.outputs, self.kind, input)
        } else {
            0
        }
    }

    // Whether the fields are in range, in a machine of `states` states and for S symbols; `last` is the set of S.
    pub fn is_sound(self, states: u8, last: u64) -> bool
        ensures { (S : ℕ) → last ≡ 2 ^ S → result ≡ sound_arc S states self }
    {
        (self.from < states)
            & (self.to < states)
            & (self.marks <= 15)
            & (self.kind <= 2)
            & sets::is_sound(self.inputs, last)
            & sets::is_sound(self.outputs, last)
    }
}

// Q, the number of states of a part.
pub fn state_count(part: &[u8]) -> usize
    requires { shaped part.now ≡ true }
    ensures { result ≡ state_count part.now }
{
    index(part[0])
}

// A, the number of arcs of a part.
pub fn arc_count(part: &[u8]) -> usize
    requires { shaped part.now ≡ true }
    ensures { result ≡ arc_count part.now }
{
    index(part[1])
}

// The arc i of a part of `states` states.
pub fn nth_arc(part: &[u8], states: usize, i: usize) -> Arc
    requires { (shaped part.now ≡ true) × (states ≡ state_count part.now) × (i < arc_count part.now) }
    ensures { (d : Arc) → get_or (arcs_of part.now) i d ≡ result }
{
    part::read_arc(part, 2 + states + 20 * i)
}

// A place in a machine: the state that it is in.
#[derive(Clone, Copy)]
pub struct Position {
    pub state: u8,
}

impl Position {
    // Where a machine starts.
    pub const START: Position = Position { state: 0 };

    pub fn start() -> Self
        ensures { result.state ≡ start_state }
    {
        Position::START
    }

    // Takes a pair: the arc of this state that takes it moves the state on and hands back its marks; none where nothing takes it.
    pub fn step(self, part: &[u8], pair: Pair) -> Option<(Position, u8)>
        requires { (shaped part.now ≡ true) × (pair.input < 64) × (pair.output < 64) }
        ensures { stepped result ≡ step_of (machine_of part.now) self.state pair }
    {
        let state = self.state;
        let input = sets::set_of(pair.input);
        let output = sets::set_of(pair.output);
        let first = 2 + index(part[0]);
        for i in 0..index(part[1]) {
            let at = first + 20 * i;
            if part::takes_from(part, at, state, input, output) {
                let next = Position {
                    state: part[at + 1],
                };
                return Some((next, part[at + 2]));
            }
        }
        None
    }

    // Ends here: the marks of a state that the machine has, none where it is not final; no other is.
    pub fn ending(self, part: &[u8]) -> Option<u8>
        requires { shaped part.now ≡ true }
        ensures { ended result ≡ ending_of (machine_of part.now) self.state }
    {
        let state = index(self.state);
        if index(part[0]) <= state {
            return None;
        }
        let byte = part[2 + state];
        if byte == 0 { None } else { Some(byte - 1) }
    }
}
