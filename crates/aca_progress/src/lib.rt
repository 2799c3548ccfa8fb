// The state that travels from step to step of a cross approximation, and what is decided on it.
#![tactic(auto)]

mod onward;

pub use onward::{grow, is_usable, judge, note, without};
use std::ops::ControlFlow;

// Why a run stops: the tolerance is reached, the row that was read has no usable pivot, there are as many terms as the block has rows
// or columns, or every row has been tried. The numbers are the report's.
#[derive(Clone, Copy, Debug, PartialEq, Eq)]
pub enum Stop {
    Tolerable = 1,
    Spent = 2,
    UsedUp = 3,
    AllTried = 4,
}

impl Stop {
    ghost use Rattle.std.specs.Prelude.{◌≡◌};
    ghost use Rattle.aca_progress.specs.Steps.{stop_number};

    pub fn number(self) -> u8
        ensures { result ≡ stop_number self }
    {
        self as u8
    }
}

// What travels from step to step: the estimate of the squared norm, the last cross term, the smallest size among the pivots that were
// accepted, the rank, and the row to read next.
#[derive(Clone, Copy)]
pub struct Progress {
    pub estimate: f64,
    pub cross: f64,
    pub smallest: f64,
    pub rank: usize,
    pub next: usize,
}

// How rows are read: whether the run restarts, how many were read, and a row below which all were.
#[derive(Clone, Copy)]
pub struct Reading {
    pub restart: bool,
    pub read: usize,
    pub low: usize,
}

// A step goes on with a state, or it stops for a reason.
pub type Step = ControlFlow<(Stop, Progress), Progress>;
