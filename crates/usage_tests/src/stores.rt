//! A store that is filled and asked where memory runs out.

use batch_store::{Cut, Period, RecordPlace, Store, Value};
use batch_view::{Offer, OwnedBatch};
use std::alloc::{AllocError, Global};
use std::sync::Arc;
use std::test::Fail;
use utc_calendar::Month;
use worked_texts::{AMENDED, READ};

/// Two amendments in turn, of which the last gives back the value that was read.
const AMENDED_TWICE: &[u8] = b"B1|1|3|2\nX|1|0|3600\nX|1|0|5400\n";

/// Amendments after a gap, so many that the list of what they and the others name grows twice.
const AHEAD: &[u8] = b"B1|1|5|3\nX|1|0|7200\nX|1|0|3600\nX|1|0|1800\n";

/// What comes of these bytes.
pub(crate) fn offered(alloc: Global, bytes: &[u8]) -> Result<Offer, AllocError> {
    Offer::read(alloc, bytes.to_vec(alloc)?)
}

/// The batch of these bytes, which are read again where the first call finds no memory.
fn batch_again(alloc: Global, bytes: &[u8]) -> Result<Arc<OwnedBatch>, Fail> {
    let offer = match offered(alloc, bytes) {
        Ok(offer) => offer,
        Err(_) => offered(alloc, bytes)?,
    };
    match offer {
        Offer::Good(batch) => Ok(batch),
        Offer::Bad(_) => Err(Fail::from("it is no batch")),
    }
}

/// The least sequence that the first agent has no batch of.
fn first_absent(store: &Store) -> u32 {
    // For the proof alone: its clause says that the agents are 1 to 64.
    let _agents = store.agents();
    store.first_absent(1)
}

/// Whether the first agent has a batch of this sequence.
fn has(store: &Store, seq: u32) -> bool {
    // For the proof alone: its clause says that the agents are 1 to 64.
    let _agents = store.agents();
    store.get(1, seq).is_some()
}

/// Puts a batch, again where the first call finds no memory, and tells whether it was added and nothing had changed
/// by then.
fn is_put_again(store: &mut Store, batch: Arc<OwnedBatch>) -> Result<bool, Fail> {
    let seq = batch.view().seq();
    if store.agents() < batch.view().agent() {
        return Err(Fail::from("it is of another agent"));
    }
    let absent = first_absent(store);
    let other = Arc::try_clone(&batch)?;
    match store.put(batch) {
        Ok(added) => Ok(added),
        Err(_) => {
            let unchanged = !has(store, seq) && first_absent(store) == absent;
            Ok(unchanged && store.put(other)?)
        }
    }
}

/// The cut of one agent with this last sequence.
pub(crate) fn cut_of(alloc: Global, seq: u32) -> Result<Cut, AllocError> {
    let mut cut = Cut::zero(alloc, 1)?;
    cut.set(1, seq.min(1_000_000));
    Ok(cut)
}

/// The same as a copy, each made again where the first call finds no memory.
fn cut_again(alloc: Global, seq: u32) -> Result<Cut, AllocError> {
    let cut = match cut_of(alloc, seq) {
        Ok(cut) => cut,
        Err(_) => cut_of(alloc, seq)?,
    };
    match cut.copy(alloc) {
        Ok(copy) => Ok(copy),
        Err(_) => cut.copy(alloc),
    }
}

/// Whether the cut is written as this line, again where the first call finds no memory.
fn is_written(cut: &Cut, alloc: Global, line: &[u8]) -> bool {
    let text = match cut.write(alloc) {
        Ok(text) => Ok(text),
        Err(_) => cut.write(alloc),
    };
    match text {
        Ok(text) => text.as_slice() == line,
        Err(_) => false,
    }
}

/// Whether the line is read as the cut, again where the first call finds no memory.
fn is_read(cut: &Cut, alloc: Global, line: &[u8]) -> bool {
    let read = match Cut::read(alloc, line, 1) {
        Ok(read) => Ok(read),
        Err(_) => Cut::read(alloc, line, 1),
    };
    match read {
        Ok(Some(read)) => read.same(cut),
        _ => false,
    }
}

/// Whether a cut's line is written and read as it, each again where the first call finds no memory.
fn is_read_back(alloc: Global, seq: u32, line: &[u8]) -> bool {
    match cut_again(alloc, seq) {
        Ok(cut) => is_written(&cut, alloc, line) && is_read(&cut, alloc, line),
        Err(_) => false,
    }
}

#[test]
fn a_refused_growth_of_a_cuts_line_changes_nothing(rt: HostRuntime) {
    assert!(rt; is_read_back(rt.alloc(), 0, b"0"));
    assert!(rt; is_read_back(rt.alloc(), 1_000_000, b"1000000"));
}

/// Cuts of one agent, each made again where the first call finds no memory.
#[derive(Drop)]
struct Cuts {
    zero: Cut,
    one: Cut,
    three: Cut,
    five: Cut,
}

fn cuts_again(alloc: Global) -> Option<Cuts> {
    let zero = cut_again(alloc, 0).ok()?;
    let one = cut_again(alloc, 1).ok()?;
    let three = cut_again(alloc, 3).ok()?;
    let five = cut_again(alloc, 5).ok()?;
    Some(Cuts {
        zero,
        one,
        three,
        five,
    })
}

/// Whether a part is shared up to a cut that has the batch of one sequence and lacks that of another first, asked for
/// again where the first call finds no memory.
fn shares_again(store: &Store, alloc: Global, cut: &Cut, there: u32, absent: u32) -> bool {
    if store.agents() != 1 || cut.agents() != 1 {
        return false;
    }
    let part = match store.share(alloc, cut) {
        Ok(part) => Ok(part),
        Err(_) => store.share(alloc, cut),
    };
    match part {
        Ok(part) => first_absent(&part) == absent && has(&part, there),
        Err(_) => false,
    }
}

/// Whether the store can be closed up to the gap, asked again where the first call finds no memory.
fn closes_again(store: &Store, alloc: Global, zero: &Cut, three: &Cut) -> bool {
    let Some(january) = Period::new(0) else {
        return false;
    };
    if store.agents() != 1 || zero.agents() != 1 {
        return false;
    }
    let base = Month::of(2025, 1);
    let front = match store.due_front(alloc, zero, january, base) {
        Ok(front) => Ok(front),
        Err(_) => store.due_front(alloc, zero, january, base),
    };
    match front {
        Ok(front) => front.same(three),
        Err(_) => false,
    }
}

/// Whether the one place that is amended is told, asked for again where the first call finds no memory.
fn names_again(store: &Store, alloc: Global, one: &Cut, five: &Cut) -> bool {
    if store.agents() != 1 || one.agents() != 1 || five.agents() != 1 || !five.at_least(one) {
        return false;
    }
    let places = match store.amended(alloc, one, five) {
        Ok(places) => Ok(places),
        Err(_) => store.amended(alloc, one, five),
    };
    let amended = RecordPlace {
        agent: 1,
        seq: 1,
        index: 0,
    };
    match places {
        Ok(places) => places.as_slice() == [amended].as_slice(),
        Err(_) => false,
    }
}

/// Whether amendments up to a sequence give the first batch's readings these values, asked for again where the first
/// call finds no memory.
fn values_again(
    store: &Store,
    alloc: Global,
    upto: u32,
    values: &[Option<Value>],
) -> Result<bool, Fail> {
    if store.agents() != 1 || upto < 1 || store.get(1, 1).is_none() {
        return Ok(false);
    }
    let found = match store.amended_values(alloc, 1, 1, upto) {
        Ok(found) => found,
        Err(_) => store.amended_values(alloc, 1, 1, upto)?,
    };
    Ok(found.as_slice() == values)
}

/// Whether each batch is put again where the first call finds no memory.
fn fills_again(store: &mut Store, alloc: Global) -> Result<bool, Fail> {
    let mut all = true;
    for bytes in [AHEAD, AMENDED_TWICE, READ, AMENDED] {
        let batch = batch_again(alloc, bytes)?;
        all = is_put_again(store, batch)? && all;
    }
    Ok(all)
}

/// Whether each answer is given again where the first call finds no memory.
fn answers_again(store: &Store, alloc: Global) -> bool {
    match cuts_again(alloc) {
        Some(cuts) => {
            shares_again(store, alloc, &cuts.five, 5, 4)
                && closes_again(store, alloc, &cuts.zero, &cuts.three)
                && names_again(store, alloc, &cuts.one, &cuts.five)
                && first_absent(store) == 4
        }
        None => false,
    }
}

/// Whether amendments give the first batch's reading no value up to its own sequence, and up to each later one that of
/// the last.
fn values_told_again(store: &Store, alloc: Global) -> Result<bool, Fail> {
    let none = values_again(store, alloc, 1, &[])?;
    let second = values_again(store, alloc, 2, &[Value::new(7_200_000_000)])?;
    let third = values_again(store, alloc, 4, &[Value::new(5_400_000_000)])?;
    let fifth = values_again(store, alloc, 5, &[Value::new(1_800_000_000)])?;
    Ok(none && second && third && fifth)
}

/// The offer of these bytes, or of those that the first call gives back where it finds no memory.
fn read_or_back_again(alloc: Global, bytes: Vec<u8>) -> Option<Offer> {
    match Offer::read_or_back(alloc, bytes) {
        Ok(offer) => Some(offer),
        Err(refused) => match Offer::read_or_back(alloc, refused.value) {
            Ok(offer) => Some(offer),
            Err(_) => None,
        },
    }
}

/// Whether the offer is of a batch of these bytes.
fn is_batch_of(offer: Option<Offer>, bytes: &[u8]) -> bool {
    match offer {
        Some(Offer::Good(batch)) => batch.bytes() == bytes,
        _ => false,
    }
}

/// The bytes of an offer come back where memory is refused, and are then read.
#[test]
fn a_refused_growth_gives_the_bytes_of_an_offer_back(rt: HostRuntime) -> Result<(), Fail> {
    let alloc = rt.alloc();
    let bytes = match READ.to_vec(alloc) {
        Ok(bytes) => bytes,
        Err(_) => READ.to_vec(alloc)?,
    };
    let is_read = is_batch_of(read_or_back_again(alloc, bytes), READ);
    assert!(rt; is_read);
    Ok(())
}

/// Each call that may find no memory is made again where it does: with each growth refused in turn the answers of the
/// second call show that the first has changed nothing.
#[test]
fn a_refused_growth_of_a_store_changes_nothing(rt: HostRuntime) -> Result<(), Fail> {
    let alloc = rt.alloc();
    let mut store = match Store::new(alloc, 1) {
        Ok(store) => store,
        Err(_) => Store::new(alloc, 1)?,
    };
    let is_filled = fills_again(&mut store, alloc)?;
    let is_answered = answers_again(&store, alloc);
    let are_told = values_told_again(&store, alloc)?;
    assert!(rt; is_filled && is_answered && are_told);
    Ok(())
}

/// Whether so many batches without records are put, each again where the first call finds no memory.
fn fills_many_again(store: &mut Store, alloc: Global, count: u32) -> Result<bool, Fail> {
    let mut all = true;
    for before in 0..count {
        let seq = before + 1;
        let text = match format!(in alloc; "B1|1|{seq}|0\n") {
            Ok(text) => text,
            Err(_) => format!(in alloc; "B1|1|{seq}|0\n")?,
        };
        let batch = batch_again(alloc, text.as_bytes())?;
        all = is_put_again(store, batch)? && all;
    }
    Ok(all)
}

/// Whether just the batches up to a sequence are shared, where they have no gap.
fn shares_up_to_again(store: &Store, alloc: Global, last: u32) -> bool {
    match cut_again(alloc, last) {
        Ok(cut) => shares_again(store, alloc, &cut, last, last.saturating_add(1)),
        Err(_) => false,
    }
}

/// Batches are held in parts of 64, so that the last of a part asks for more memory than the others, and a share may
/// end before, at and after the end of one.
#[test]
fn a_refused_growth_of_a_long_store_changes_nothing(rt: HostRuntime) -> Result<(), Fail> {
    let alloc = rt.alloc();
    let mut store = match Store::new(alloc, 1) {
        Ok(store) => store,
        Err(_) => Store::new(alloc, 1)?,
    };
    let is_filled = fills_many_again(&mut store, alloc, 130)?;
    let are_shared = shares_up_to_again(&store, alloc, 1)
        && shares_up_to_again(&store, alloc, 63)
        && shares_up_to_again(&store, alloc, 64)
        && shares_up_to_again(&store, alloc, 65)
        && shares_up_to_again(&store, alloc, 128)
        && shares_up_to_again(&store, alloc, 130);
    assert!(rt; is_filled && are_shared);
    Ok(())
}
