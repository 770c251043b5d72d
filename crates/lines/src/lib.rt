// The program's lines: parsing an input line, and taking the lines out of the input.
#![tactic(auto)]

mod input;
mod parsing;

pub use input::next_line;
pub use parsing::parse;

// A line that is parsed: how many bytes of ranking and of word stand at the front of the lent slices.
#[derive(Clone, Copy)]
pub struct Parsed {
    pub ranking: usize,
    pub word: usize,
}

// What looking for the end of a line in a piece of the input answers. `length` is how many bytes of the line are held.
#[derive(Clone, Copy)]
pub enum Next {
    // The line ends, and the next one starts at `at`.
    Line { length: usize, at: usize },
    // The piece ends before the line does.
    Open { length: usize },
}
