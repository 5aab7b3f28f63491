//! What the commands do: they run the lines of the input, or print a text.

mod node;
mod page;
mod run;
mod sheet;

pub use run::{Rows, run_file};
pub use sheet::{Sheet, print_file};
