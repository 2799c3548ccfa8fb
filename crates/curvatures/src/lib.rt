// Curvatures at points in a cell: the second derivatives of what each node counts for, for every pair of axes.
#![tactic(auto)]

mod call;
mod columns;
mod limits;
mod pairs;

pub use call::get_curvature_coefficients;

// The lengths of the lent buffers.
#[derive(Clone, Copy, PartialEq, Eq)]
pub struct Lengths {
    pub coordinates: usize,
    pub polynomials: usize,
    pub curvatures: usize,
    pub factors: usize,
    pub slopes: usize,
    pub bends: usize,
    pub room: usize,
}
