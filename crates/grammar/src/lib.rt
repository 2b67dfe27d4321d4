// The text of a plant, line by line: what a line says. Nothing is allocated here.
#![tactic(auto)]

mod statement;
mod words;

pub use statement::{Statement, read_line};
