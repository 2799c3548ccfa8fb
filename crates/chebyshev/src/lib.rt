// Chebyshev polynomials and their first two derivatives.
#![tactic(auto)]

mod polynomials;
mod second;

pub use polynomials::evaluate_chebyshev_polynomials;
pub use second::evaluate_second_derivatives;
