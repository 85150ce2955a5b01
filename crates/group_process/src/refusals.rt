//! Why a process does not do what it is asked.

use metering_model::Refusal;

/// Why a process does not do what it is asked. Nothing has changed then.
#[derive(Clone, Copy, Drop)]
pub enum ProcessRefusal {
    /// By a word of the model's refusals.
    OfModel(Refusal),
    /// A cut that was learned up to the period goes back, or a batch up to the period's cut breaks a rule under this sheet.
    Unfit,
}
