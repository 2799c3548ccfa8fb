// The public calls for programs in C and Rust: numbers and slices in, a refusal's number out. include/bbfmm.h declares them.
#![tactic(auto)]

mod aca_calls;
mod chebyshev_calls;
mod choices_calls;
mod coefficients_calls;
mod curvatures_calls;
mod distances_calls;
mod exchange_calls;
mod points_calls;
mod ratios_calls;
mod transfer_calls;
mod turn_calls;
