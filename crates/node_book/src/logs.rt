//! What a worker brings back of its acts.

ghost use Rattle.std.specs.Prelude.{◌≡◌, ◌↔◌, ℕ, ◌≤◌, count_by, IsTrue};
ghost use Rattle.node_book.specs.Agreement.{ExportsEach, is_export_of};

use crate::Done;
use metering_model::Worker;

/// What a worker did, in order.
#[derive(Drop)]
pub struct Log {
    /// The worker.
    pub who: Worker,
    /// Its acts, in order.
    pub done: Vec<Done>,
}

/// How often a period was exported.
fn export_count(done: &[Done], period: u16) -> usize
    ensures { result ≡ count_by (λ t. is_export_of period t.reply) done.now }
{
    let mut count = 0;
    for one in done {
        if one.is_export_of(period) {
            count += 1;
        }
    }
    count
}

/// Whether no period from that one on was exported.
fn are_within(done: &[Done], periods: u16) -> bool
    ensures { IsTrue result ↔
        ((period : ℕ) → periods ≤ period
        → count_by (λ t. is_export_of period t.reply) done.now ≡ 0) }
{
    for one in done {
        if !one.is_within(periods) {
            return false;
        }
    }
    true
}

/// Whether each period below that one was exported once, and no other.
pub(crate) fn exports_each(done: &[Done], periods: u16) -> bool
    ensures { IsTrue result ↔ ExportsEach periods done.now }
{
    if !are_within(done, periods) {
        return false;
    }
    for period in 0..periods {
        if export_count(done, period) != 1 {
            return false;
        }
    }
    true
}
