//! The numbers of a table: decimals, as whole units or trillionths.
#![tactic(auto)]

mod decimal;
mod half;
mod laws;
mod same;

pub use decimal::{MOST_TRILLIONTHS, trillionths, whole_units};
pub use laws::rounding_moves_by_at_most_half_a_unit;
pub use same::is_same_number;
