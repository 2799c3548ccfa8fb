// Blocks of whole numbers as Matrix Market array files, integer and general, entries by columns.
#![tactic(auto)]

mod reading;
mod writing;

pub use exchange_format::Fault;
pub use exchange_lines::Sizes;
pub use reading::{block_size, read_block};
pub use writing::write_block;
