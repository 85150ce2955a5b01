//! The amendments of a batch, sorted, and the latest start of its readings.

ghost use Rattle.std.specs.Prelude.{◌≡◌, ◌≤◌, ◌&&◌, length, All, IfOk, OnOk, IfSome, MatchOption, int_lt, ℤ, ◌++◌, []};
ghost use Rattle.std.specs.List.{list_all, cons_option};
ghost use Rattle.std.specs.List.Sorted.{IsPermutation, IsNonDecreasingBy};
ghost use Rattle.batch_view.specs.Inner.Kept.{is_before};
ghost use Rattle.batch_view.specs.Inner.Amended.{amendment_found, amendments_kept, rank, rank_of, IsSmall, Names, IsPointOf, IsLastNamed, entry_before};

use crate::entries::Found;
use crate::owned::Amendment;
use crate::packed::PackedEntry;
use record_view::Stamp;
use std::alloc::{AllocError, Global};

/// A number that rises with the position that an amendment names, and then with its own index.
fn rank(seq: u32, index: u16, own: u16) -> u64
    ensures { result ≡ rank_of seq index own }
{
    (u64::from(seq) * 65_536 + u64::from(index)) * 65_536 + u64::from(own)
}

/// How many of the records are amendments.
fn count_amendments(entries: &[PackedEntry]) -> usize {
    entries
        .iter()
        .filter(|entry| matches!(entry.found(), Found::Amend { .. }))
        .count()
}

/// The amendment that a record is, if it is one.
fn amendment_at(entry: &PackedEntry, own: u16) -> Option<Amendment>
    ensures is { result ≡ amendment_found own entry.now.value entry.now.found }
    ensures small { IfSome result IsSmall }
{
    match entry.found() {
        Found::Amend { seq, index } => Some(Amendment {
            seq,
            index,
            value: entry.value(),
            own,
        }),
        Found::Reading { .. } => None,
    }
}

/// Appends the amendment, if there is one.
fn push_some(found: &mut Vec<Amendment>, amendment: Option<Amendment>) -> Result<(), AllocError>
    ensures { OnOk result (found.new.items ≡ found.old.items ++ cons_option amendment []) }
{
    match amendment {
        Some(amendment) => match found.push(amendment) {
            Ok(()) => Ok(()),
            Err(_) => Err(AllocError),
        },
        None => Ok(()),
    }
}

/// The amendments among the records, in order.
fn amendments_of(
    alloc: Global,
    entries: &[PackedEntry],
    count: u16,
) -> Result<Vec<Amendment>, AllocError>
    requires { length entries.now ≡ count }
    ensures all { IfOk result (λ found. found.items ≡ amendments_kept entries.now) }
    ensures small { IfOk result (λ found. All IsSmall found.items) }
{
    let mut found = Vec::with_capacity(alloc, count_amendments(entries))?;
    for own in 0..count {
        push_some(&mut found, amendment_at(&entries[usize::from(own)], own))?;
    }
    Ok(found)
}

/// Sorts them by the position that each names, and then by their own index.
fn sort(amendments: &mut Vec<Amendment>)
    requires { All IsSmall amendments.old.items }
    ensures all { IsPermutation amendments.old.items amendments.new.items }
    ensures small { All IsSmall amendments.new.items }
    ensures rising { IsNonDecreasingBy rank amendments.new.items }
{
    amendments.sort_unstable_by_key(|a| rank(a.seq, a.index, a.own));
}

/// The amendments among the records, sorted by the position that each names, and then by their own index.
pub(crate) fn sorted_amendments(
    alloc: Global,
    entries: &[PackedEntry],
    count: u16,
) -> Result<Vec<Amendment>, AllocError>
    requires { length entries.now ≡ count }
    ensures all { IfOk result (λ found. IsPermutation (amendments_kept entries.now) found.items) }
    ensures small { IfOk result (λ found. All IsSmall found.items) }
    ensures rising { IfOk result (λ found. IsNonDecreasingBy rank found.items) }
{
    let mut found = amendments_of(alloc, entries, count)?;
    sort(&mut found);
    Ok(found)
}

/// How many of sorted amendments name this position or one before it.
pub(crate) fn end_of_position(sorted: &[Amendment], seq: u32, index: u16) -> usize
    requires { IsNonDecreasingBy rank sorted.now }
    ensures within { result ≤ length sorted.now }
    ensures point { IsPointOf seq index sorted.now result }
{
    let top = rank(seq, index, u16::MAX);
    sorted.partition_point(|a| rank(a.seq, a.index, a.own) <= top)
}

/// The last of sorted amendments that names this position, if one does.
pub(crate) fn last_amendment(sorted: &[Amendment], seq: u32, index: u16) -> Option<Amendment>
    requires small { All IsSmall sorted.now }
    requires rising { IsNonDecreasingBy rank sorted.now }
    ensures { MatchOption result
        (All (λ a. Names seq index a → ⊥) sorted.now)
        (λ last. IsLastNamed sorted.now seq index last) }
{
    let behind = end_of_position(sorted, seq, index);
    if behind == 0 {
        return None;
    }
    let last = sorted[behind - 1];
    if last.seq == seq && last.index == index {
        Some(last)
    } else {
        None
    }
}

/// The later of a start and the latest one, if there was one.
fn later(latest: Option<Stamp>, start: Stamp) -> Stamp
    ensures { (moment : ℤ) → int_lt result moment
        ≡ (is_before moment latest && int_lt start moment) }
{
    match latest {
        Some(known) if start <= known => known,
        _ => start,
    }
}

/// The latest start of the readings, if there is one.
pub(crate) fn latest_start(entries: &[PackedEntry]) -> Option<Stamp>
    ensures { (moment : ℤ) → list_all (entry_before moment) entries.now ≡ is_before moment result }
{
    let mut latest = None;
    for entry in entries {
        if let Found::Reading { start, .. } = entry.found() {
            latest = Some(later(latest, start));
        }
    }
    latest
}

/// Whether the latest start, if there is one, is before that moment.
pub(crate) fn is_before(latest: Option<Stamp>, moment: Stamp) -> bool
    ensures { result ≡ is_before moment latest }
{
    match latest {
        Some(latest) => latest < moment,
        None => true,
    }
}
