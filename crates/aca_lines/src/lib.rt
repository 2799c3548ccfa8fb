// What a step of the cross approximation does with a row or a column of the block: read it less the earlier terms, multiply it,
// weigh it, store it.
#![tactic(auto)]

mod block;
mod reader;
mod terms;

pub use block::{read_column, read_row};
pub use terms::{cross, multiply, norm, store};
