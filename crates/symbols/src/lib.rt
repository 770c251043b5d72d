// Symbols as bytes, and sets of symbols.
#![tactic(auto)]

pub mod sets; // sets.rt: sets of symbols

// The empty symbol.
pub const EMPTY: u8 = 0;
