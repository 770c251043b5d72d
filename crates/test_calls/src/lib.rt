// What the corpus is made of, for the program `test_corpus`: the calls that its cases ask, from the fields of a file to the words of a line.
#![tactic(auto)]

pub mod calls; // calls.rt: the calls, and what is lent to them
pub mod fields; // fields.rt: the fields of the file's cases
pub mod writing; // writing.rt: the words of a line
pub mod slices; // slices.rt: files read into slices, what still holds what it was filled with
pub mod printing; // printing.rt: text and numbers to standard output
