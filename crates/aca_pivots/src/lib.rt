// The pivot of a line: its largest entry, among those that a mask or flags let count; and the flags of what is still unused.
#![tactic(auto)]

mod flags;
mod search;

pub use flags::{Flags, pick_on, place_on};
pub use search::pick;

// The pivot of a line: its place, and the size of the entry there.
#[derive(Clone, Copy)]
pub struct Pivot {
    pub place: usize,
    pub size: f64,
}
