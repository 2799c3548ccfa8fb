// Cross approximation: the run of its steps, its limits, and what it tells the caller.
#![tactic(auto)]

mod limits;
mod run;

use aca_progress::Stop;
pub use run::aca_partial_pivoting;

// What the caller is told of a run; `smallest` is the smallest size among the pivots that were accepted, or +0.0.
#[derive(Clone, Copy)]
pub struct Report {
    pub rank: usize,
    pub estimate: f64,
    pub smallest: f64,
    pub stop: Stop,
    pub rows_read: usize,
}

// The lengths of the samples and of the lent buffers.
#[derive(Clone, Copy, PartialEq, Eq)]
pub struct Lengths {
    pub samples: usize,
    pub u: usize,
    pub v: usize,
    pub row_list: usize,
    pub column_list: usize,
    pub row: usize,
    pub column: usize,
}
