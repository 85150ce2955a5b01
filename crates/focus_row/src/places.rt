//! Search in places that rise.

ghost use Rattle.std.specs.Prelude.{◌≡◌, ◌↔◌, IsTrue, IfSome, IfNone, map};
ghost use Rattle.std.specs.List.{Contains};
ghost use Rattle.journal_rules.specs.Stores.{position_of, rise, stands_before};
ghost use Rattle.focus_row.specs.Inner.Places.{IsFirstFrom, IsNextNamed, NoneNamed};

use journal_rules::RecordPlace;

/// By agent, then by sequence, then by index.
pub(crate) fn stands_before(a: RecordPlace, b: RecordPlace) -> bool
    ensures { result ≡ stands_before (position_of a) (position_of b) }
{
    a.agent < b.agent
        || (a.agent == b.agent && (a.seq < b.seq || (a.seq == b.seq && a.index < b.index)))
}

/// How many of the places stand before this one.
fn first_from(places: &[RecordPlace], place: RecordPlace) -> usize
    requires { IsTrue (rise (map position_of places.now)) }
    ensures { IsFirstFrom (map position_of places.now) (position_of place) result }
{
    let mut low = 0;
    let mut high = places.len();
    while low < high {
        let middle = low + (high - low) / 2;
        if stands_before(places[middle], place) {
            low = middle + 1;
        } else {
            high = middle;
        }
    }
    low
}

/// Whether it is one of the places.
pub(crate) fn is_named(places: &[RecordPlace], place: RecordPlace) -> bool
    requires { IsTrue (rise (map position_of places.now)) }
    ensures { IsTrue result ↔ Contains (map position_of places.now) (position_of place) }
{
    match places.get(first_from(places, place)) {
        Some(found) => !stands_before(place, *found),
        None => false,
    }
}

/// The sequence of the agent's first batch from a sequence on that has one of the places.
pub(crate) fn next_named(places: &[RecordPlace], agent: u8, seq: u32) -> Option<u32>
    requires { IsTrue (rise (map position_of places.now)) }
    ensures some { IfSome result (IsNextNamed (map position_of places.now) agent seq) }
    ensures none { IfNone result (NoneNamed (map position_of places.now) agent seq) }
{
    let start = RecordPlace {
        agent,
        seq,
        index: 0,
    };
    match places.get(first_from(places, start)) {
        Some(found) => {
            if found.agent == agent {
                Some(found.seq)
            } else {
                None
            }
        }
        None => None,
    }
}
