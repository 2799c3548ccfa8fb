// The points of a block, target or source, as columns: an axis a column, filled from the nodes along it.
#![tactic(auto)]

mod blocks;
mod columns;

pub use blocks::fill_points;
