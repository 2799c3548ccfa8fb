// What is chosen by size: the pivot of a masked line, and the rank at which singular values are cut off.
#![tactic(auto)]

mod argmax;
mod cutoff;

pub use argmax::argmax_masked;
pub use cutoff::calculate_singular_values_cutoff;
