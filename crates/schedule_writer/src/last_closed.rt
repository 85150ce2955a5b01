//! Which period a schedule closes last.

ghost use Rattle.std.specs.Prelude.{◌≡◌, ◌≤◌, IfSome, max};
ghost use Rattle.metering_model.specs.Limits.{last_period};
ghost use Rattle.schedule_writer.specs.Inputs.{above_last, least_last};

/// How many batches stand above the last line that closes a period; 0 where there is none.
fn above_last(closes: &[usize]) -> usize
    ensures { result ≡ above_last closes.now }
{
    closes.last().copied().unwrap_or(0)
}

/// The period that is closed last for the sake of the lines that close one: that of the last of them; or the one after, where none
/// is asked for and a batch stands below it.
pub(crate) fn least_last(through: Option<u16>, count: usize, closes: &[usize]) -> usize
    ensures { result ≡ least_last through count closes.now }
{
    match through {
        Some(_) => closes.len().saturating_sub(1),
        None => {
            if above_last(closes) < count {
                closes.len()
            } else {
                closes.len().saturating_sub(1)
            }
        }
    }
}

/// The last period that is closed: the one that is asked for, or the other, where that is later. None where that is no period.
pub(crate) fn last_closed(asked: u16, least: usize) -> Option<u16>
    requires { asked ≤ last_period }
    ensures { IfSome result (λ last. (last ≡ max asked least) × (last ≤ last_period)) }
{
    if least <= usize::from(asked) {
        return Some(asked);
    }
    if least <= 1_199 {
        Some(least as u16)
    } else {
        None
    }
}
