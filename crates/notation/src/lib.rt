// A drawing as a text that reads as the drawing.
#![tactic(auto)]

#[cfg(test)]
mod tests;
mod texts;

pub use texts::write;
