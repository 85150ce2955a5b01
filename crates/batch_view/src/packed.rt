//! What is kept of a record, in 48 bytes.

ghost use Rattle.std.specs.Prelude.{◌≡◌, ◌<◌, ◌≤◌, ◌+◌, ℕ, List, take};
ghost use Rattle.metering_model.specs.declared.Version.{Version as ModelVersion};
ghost use Rattle.metering_model.specs.Limits.{most_batch_bytes};
ghost use Rattle.record_view.specs.declared.fields.Span.{Span as ModelSpan};
ghost use Rattle.batch_view.specs.Inner.Entries.{IsEntryAt};
ghost use Rattle.batch_view.specs.Inner.Packed.{IsShort, places_of};

use crate::entries::{Entry, Found};
use metering_model::Kind;
use record_view::{Span, Stamp, Value};
use std::marker::Model;

/// What a record is, and where its line begins. Of a reading the ninth field ends at `tags`, and the tenth, where its format has
/// one, at `region`.
#[derive(Clone, Copy)]
enum Packed {
    Reading {
        kind: Kind,
        from: u16,
        tags: u16,
        region: u16,
        start: Stamp,
        end: Stamp,
    },
    Amend {
        from: u16,
        index: u16,
        seq: u32,
    },
}

/// What is kept of a record: where its line begins, where its fields end, and its numbers. Fields stand one byte apart, so
/// where they begin need not be kept. A batch has at most 65,536 bytes, and a field ends before the last of them.
///
/// The ends are eight fields and no array, so that the view is a list that is written out, and no index is asked.
#[derive(Drop)]
pub(crate) struct PackedEntry {
    first: u16,
    second: u16,
    third: u16,
    fourth: u16,
    fifth: u16,
    sixth: u16,
    seventh: u16,
    eighth: u16,
    value: Value,
    packed: Packed,
}

const _: () = prove!(size_of::<PackedEntry>() <= 48);

impl Model for PackedEntry {
    ghost use Rattle.batch_view.specs.declared.entries.Entry.{Entry};
    ghost use Rattle.batch_view.specs.Inner.Packed.{ends_of, unpacked};

    ghost Value = { Entry };

    ghost view = { λ p. unpacked
        (ends_of p.first p.second p.third p.fourth p.fifth p.sixth p.seventh p.eighth) p.value
        p.packed };
}

/// A place in a batch in two bytes.
#[inline(always)]
fn short(place: u32) -> u16
    ensures { IsShort place result }
{
    (place % 65_536) as u16
}

/// The span of a field that ends there, behind one that ends at another place.
#[inline(always)]
fn behind(before: u16, to: u16) -> Span
    ensures { result ≡ record { from = before + 1; to = to } }
{
    Span {
        from: u32::from(before) + 1,
        to: u32::from(to),
    }
}

/// Where the line of a record begins, and where the ninth and the tenth field of a reading end.
#[inline(always)]
fn places(packed: Packed) -> (u16, u16, u16)
    ensures { result ≡ places_of packed }
{
    match packed {
        Packed::Reading {
            from,
            tags,
            region,
            ..
        } => (from, tags, region),
        Packed::Amend { from, .. } => (from, 0, 0),
    }
}

impl PackedEntry {
    /// What is kept of an entry. It is the entry of the same record, where that one's line ends before byte 65,536.
    #[inline(always)]
    pub(crate) fn of(entry: &Entry) -> PackedEntry
        ensures { (version : ModelVersion) (bytes : List ℕ) (line : ModelSpan)
            → line.to < most_batch_bytes
            → IsEntryAt version bytes line entry.now → IsEntryAt version bytes line result }
    {
        let [a, b, c, d, e, f, g, h, i, j] = entry.spans;
        let from = short(a.from);
        let packed = match entry.found {
            Found::Reading { kind, start, end } => Packed::Reading {
                kind,
                from,
                tags: short(i.to),
                region: short(j.to),
                start,
                end,
            },
            Found::Amend { seq, index } => Packed::Amend { from, index, seq },
        };
        PackedEntry {
            first: short(a.to),
            second: short(b.to),
            third: short(c.to),
            fourth: short(d.to),
            fifth: short(e.to),
            sixth: short(f.to),
            seventh: short(g.to),
            eighth: short(h.to),
            value: entry.value,
            packed,
        }
    }

    /// The value.
    #[inline(always)]
    pub(crate) fn value(&self) -> Value
        ensures { result ≡ self.now.value }
    {
        self.value
    }

    /// What the record is.
    #[inline(always)]
    pub(crate) fn found(&self) -> Found
        ensures { result ≡ self.now.found }
    {
        match self.packed {
            Packed::Reading {
                kind,
                start,
                end,
                ..
            } => Found::Reading { kind, start, end },
            Packed::Amend { index, seq, .. } => Found::Amend { seq, index },
        }
    }

    /// Where its fields stand.
    #[inline(always)]
    pub(crate) fn spans(&self) -> [Span; 10]
        ensures { result ≡ self.now.spans }
    {
        let (from, tags, region) = places(self.packed);
        [
            Span {
                from: u32::from(from),
                to: u32::from(self.first),
            },
            behind(self.first, self.second),
            behind(self.second, self.third),
            behind(self.third, self.fourth),
            behind(self.fourth, self.fifth),
            behind(self.fifth, self.sixth),
            behind(self.sixth, self.seventh),
            behind(self.seventh, self.eighth),
            behind(self.eighth, tags),
            behind(tags, region),
        ]
    }
}

/// Where the fields of a record stand, from left to right, in bytes from the beginning of the batch.
#[derive(Drop)]
pub struct Spans {
    all: [Span; 10],
    /// How many of them are fields of the record.
    count: usize,
}

impl Model for Spans {
    ghost use Rattle.std.specs.Prelude.{◌≤◌, List, take};
    ghost use Rattle.record_view.specs.declared.fields.Span.{Span};

    ghost Value = { List Span };

    ghost view = { λ s. take s.count s.all };

    ghost invariant = { λ s. s.count ≤ 10 };
}

impl Spans {
    /// The first of some spans, so many.
    pub(crate) fn first(all: [Span; 10], count: usize) -> Spans
        requires { count ≤ 10 }
        ensures { result ≡ take count all }
    {
        Spans { all, count }
    }

    /// The spans.
    pub fn as_slice(&self) -> &[Span]
        ensures { result.now ≡ self.now }
    {
        &self.all[..self.count]
    }
}
