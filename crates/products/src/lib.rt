// Columns that are products of one column an axis: what the coefficients of values, gradients and curvatures are made of.
#![tactic(auto)]

mod columns;

pub use columns::{ThreeAxes, fill_products, fill_started};
