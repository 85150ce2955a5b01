//! Rows of charges, by the columns of the FinOps Open Cost and Usage Specification (FOCUS) 1.0.
#![tactic(auto)]

mod between;
mod corrections;
mod due_batches;
pub mod laws;
mod new_values;
mod places;
mod walk;
mod whole;

pub use between::{RowsBetween, rows_between};
pub use charge_row::FocusRow;
pub use walk::BatchRows;
pub use whole::{RowFault, rows_of};
