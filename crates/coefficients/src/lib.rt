// What each node of a cell counts for at points in the cell: coefficients of values, of gradients and of
// curvatures, which stand in `curvatures`.
#![tactic(auto)]

mod call;
mod columns;
mod limits;
mod wanted;

pub use axes::Cell;
pub use call::get_approximation_coefficients;
pub use coordinates::{scale_points, scaling_number};
pub use curvatures::get_curvature_coefficients;
pub use limits::coefficients_number;
pub use wanted::Wanted;

// The lengths of the lent buffers.
#[derive(Clone, Copy, PartialEq, Eq)]
pub struct Lengths {
    pub coordinates: usize,
    pub polynomials: usize,
    pub values: usize,
    pub gradients: usize,
    pub factors: usize,
    pub slopes: usize,
}
