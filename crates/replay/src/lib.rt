// What the programs share that replay the oracle's stored answers: how many were tried and how many differ, the records of a file,
// the values in a record's words, and the lines that are written. A record is input words and then the answer's.
#![tactic(auto)]

mod file; // reading a file, and reporting on it
mod in_words; // the values that stand in words
mod record; // the words of a record
mod tally; // what is counted

pub use file::{read, read_full, report};
pub use in_words::InWords;
pub use record::Record;
pub use tally::Tally;
