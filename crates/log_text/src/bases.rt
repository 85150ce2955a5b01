//! What a log begins with, its base: what was kept at some time, or nothing.

ghost use Rattle.std.specs.Prelude.{◌≡◌, ℕ, ◌≤◌, length, None, Some, Err, MatchOption, MatchResult};
ghost use Rattle.metering_model.specs.BatchReading.{lines_in};
ghost use Rattle.metering_model.specs.Limits.{most_agents};
ghost use Rattle.node_kept.specs.Kept.{IsKept};
ghost use Rattle.log_text.specs.LogText.{Torn, base_in, nothing_kept};
ghost use Rattle.log_text.specs.Inner.Reading.{IfNotThere, IsBaseText, base_of, kept_of_text};

use crate::faults::Unread;
use crate::sections::read_section;
use batch_store::Store;
use byte_text::{first_line, lines_length};
use node_kept::{Kept, KeptFault, Parts};
use paxos_ballot::Acceptor;
use std::alloc::Global;

/// A base has no more lines: more do not fit below a head line.
const MOST_KEPT_LINES: u32 = 4_294_967_295;

/// The base of a log, as it stands below the head line: how many lines it has, 0 where a log says none, and these. What
/// is behind it stands on the line of that number.
#[derive(Clone, Copy)]
pub(crate) struct BaseText<'a> {
    pub(crate) lines: u32,
    pub(crate) front: &'a [u8],
    pub(crate) line: u64,
    pub(crate) left: &'a [u8],
}

/// Where the base stands. None where it is torn.
pub(crate) fn find_base(text: &[u8]) -> Option<BaseText<'_>>
    ensures { MatchOption result
        ((agents : ℕ) → base_in agents (lines_in text.now).lines
        ≡ Err (record { code = Torn; line = 2 }))
        (λ base. IsBaseText text.now base.lines base.front.now base.line base.left.now) }
{
    let none = BaseText {
        lines: 0,
        front: &[],
        line: 2,
        left: text,
    };
    let Some((line, below)) = first_line(text) else {
        return Some(none);
    };
    let Some(lines) = read_section(line, b"kept ", MOST_KEPT_LINES) else {
        return Some(none);
    };
    let Some(length) = lines_length(below, lines) else {
        return None;
    };
    let (front, left) = below.split_at(length);
    Some(BaseText {
        lines,
        front,
        line: 3 + u64::from(lines),
        left,
    })
}

/// What is kept by one that has begun nothing and holds nothing.
fn nothing_kept(alloc: Global, agents: u8) -> Result<Parts, Unread>
    requires from { 1 ≤ agents }
    requires to { agents ≤ most_agents }
    ensures { MatchResult result
        (λ parts. (Some (nothing_kept agents) ≡ Some parts) × IsKept parts)
        (λ why. IfNotThere why (Some (nothing_kept agents) ≡ None)) }
{
    // The store comes first, so that nothing has to be dropped where it is refused.
    match Store::new(alloc, agents) {
        Ok(store) => Ok(Parts {
            round: 0,
            learned: Vec::new(alloc),
            acceptor: Acceptor::new(),
            store,
        }),
        Err(_) => Err(Unread::NoMemory),
    }
}

/// What is kept that a text is, of so many lines and agents.
fn read_kept_of(alloc: Global, agents: u8, lines: u32, text: &[u8]) -> Result<Parts, Unread>
    requires { lines ≡ length (lines_in text.now).lines }
    ensures { MatchResult result
        (λ parts. (kept_of_text agents lines text.now ≡ Some parts) × IsKept parts)
        (λ why. IfNotThere why (kept_of_text agents lines text.now ≡ None)) }
{
    let kept = match Kept::read(alloc, text) {
        Ok(kept) => kept,
        Err(KeptFault::Refused { .. }) => return Err(Unread::NotThere),
        Err(KeptFault::OutOfMemory) => return Err(Unread::NoMemory),
    };
    let parts = kept.into_parts();
    if parts.store.agents() != agents {
        return Err(Unread::NotThere);
    }
    Ok(parts)
}

/// What is kept by the base of so many lines, which are these; nothing where it has none.
pub(crate) fn read_base(
    alloc: Global,
    agents: u8,
    lines: u32,
    front: &[u8],
) -> Result<Parts, Unread>
    requires from { 1 ≤ agents }
    requires to { agents ≤ most_agents }
    requires counted { lines ≡ length (lines_in front.now).lines }
    ensures { MatchResult result
        (λ parts. (base_of agents lines front.now ≡ Some parts) × IsKept parts)
        (λ why. IfNotThere why (base_of agents lines front.now ≡ None)) }
{
    if lines == 0 {
        return nothing_kept(alloc, agents);
    }
    read_kept_of(alloc, agents, lines, front)
}
