// Text as bytes: parts of it, decimal numbers, and the lines that are written.
#![tactic(auto)]

pub mod decimal; // decimal.rt: decimal numbers, read and written
pub mod text; // text.rt: bytes looked for, and written
mod answers; // answers.rt: the lines of an answer and the closing lines

pub use answers::{write_answer, write_bad_line, write_closing, write_refused};
