// A drawing as a picture: the text that Graphviz makes one of.
#![tactic(auto)]

mod edges;
mod runs;
mod texts;
mod tints;

pub use edges::{Edge, Tint};
pub use runs::Lasso;
pub use texts::Picture;
pub use tints::{plain, tinted};
