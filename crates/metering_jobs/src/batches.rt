//! Batches as agents journal them: the same resources in each, with other values, and the readings of an hour beside each other.

use crate::numbers::Numbers;
use crate::sheets::{PLANS, PRICES, REGIONS};
use byte_text::put_two_digits;
use itoa::Buffer;
use std::alloc::{AllocError, Global};

/// What a batch has.
#[derive(Clone, Copy)]
pub struct Batch {
    pub agent: u32,
    pub seq: u32,
    pub readings: u32,
    /// How many of the readings of the batch of this sequence are amended, every other one.
    pub amended: u32,
    pub amended_seq: u32,
    pub year: u32,
    /// Of the year, from 1.
    pub month: u16,
    pub has_regions: bool,
    /// Whether its last reading is of a kind that there is not.
    pub is_bad: bool,
}

impl Batch {
    /// Its lines.
    pub fn lines(&self) -> u32 {
        1u32.saturating_add(self.readings)
            .saturating_add(self.amended)
    }
}

fn put(text: &mut Vec<u8>, part: &[u8]) -> Result<(), AllocError> {
    text.extend_from_slice(part)
}

/// A word and the number behind it.
pub fn put_word(text: &mut Vec<u8>, word: &[u8], number: u32) -> Result<(), AllocError> {
    put(text, word)?;
    put(text, Buffer::new().format(number).as_bytes())
}

// ---- resources

/// What the readings of a resource have in common, in the order of their fields.
#[derive(Drop)]
struct Resource {
    kind: u8,
    /// From the account to before the value.
    front: Vec<u8>,
    /// Whether the value stands in the front already.
    has_value: bool,
    /// From behind the value on, with the line feed.
    back: Vec<u8>,
}

/// The tags of a resource: none, or three, or one more whose value has to be quoted.
fn put_tags(text: &mut Vec<u8>, numbers: &mut Numbers) -> Result<(), AllocError> {
    put(text, b"|")?;
    if numbers.is_one_in(10) {
        return Ok(());
    }
    put_word(text, b"cost-center=cc-", numbers.below(10_000))?;
    let env: &[u8] = match numbers.below(3) {
        0 => b";env=prod",
        1 => b";env=staging",
        _ => b";env=test",
    };
    put(text, env)?;
    put_word(text, b";team=team-", numbers.below(40))?;
    if numbers.is_one_in(12) {
        put_word(text, b";title=Build, \"nightly\" ", numbers.below(1000))?;
    }
    Ok(())
}

/// Of 200, three are credits, two taxes, one an adjustment, and one buys a commitment; the rest is usage.
fn new_resource(
    alloc: Global,
    numbers: &mut Numbers,
    has_region: bool,
) -> Result<Resource, AllocError> {
    let chosen = numbers.below(200);
    let mut front = Vec::new(alloc);
    let mut back = Vec::new(alloc);
    put_word(&mut front, b"|acc-", numbers.below(300))?;
    put_word(&mut front, b"|vm-", numbers.below(10_000_000))?;
    match chosen {
        0..=5 => {
            put_word(&mut front, b"|Refund, case ", numbers.below(100_000))?;
            put(&mut front, b"|-")?;
            put(&mut back, b"|")?;
        }
        6 => {
            let plan = 1 + numbers.below(PLANS);
            put_word(&mut front, b"|plan-", plan)?;
            put_word(&mut front, b"|1|sp-", plan)?;
        }
        _ => {
            let sku = 1 + numbers.below(PRICES);
            put_word(&mut front, b"|sku-", sku)?;
            put(&mut front, b"|")?;
            put(&mut back, b"|")?;
            if sku <= PLANS && numbers.is_one_in(2) {
                put_word(&mut back, b"sp-", sku)?;
            }
        }
    }
    put_tags(&mut back, numbers)?;
    if has_region {
        put_word(&mut back, b"|zone-", 1 + numbers.below(REGIONS))?;
    }
    put(&mut back, b"\n")?;
    let kind = match chosen {
        0..=2 => b'C',
        3..=4 => b'T',
        5 => b'A',
        6 => b'P',
        _ => b'U',
    };
    Ok(Resource {
        kind,
        front,
        has_value: chosen == 6,
        back,
    })
}

/// The resources of an agent.
#[derive(Drop)]
pub struct Resources {
    all: Vec<Resource>,
}

impl Resources {
    pub fn new(
        alloc: Global,
        numbers: &mut Numbers,
        many: u32,
        has_regions: bool,
    ) -> Result<Resources, AllocError> {
        let mut all = Vec::new(alloc);
        for _ in 0..many {
            if all
                .push(new_resource(alloc, numbers, has_regions)?)
                .is_err()
            {
                return Err(AllocError);
            }
        }
        Ok(Resources { all })
    }
}

// ---- batches

fn put_moment(text: &mut Vec<u8>, batch: &Batch, day: u16, hour: u16) -> Result<(), AllocError> {
    put_word(text, b"|", batch.year)?;
    put(text, b"-")?;
    put_two_digits(text, batch.month)?;
    put(text, b"-")?;
    put_two_digits(text, day)?;
    put(text, b"T")?;
    put_two_digits(text, hour)?;
    put(text, b":00:00Z")
}

/// Makes a text that of usage, and of both moments of an hour of the batch's month.
fn set_usage(text: &mut Vec<u8>, numbers: &mut Numbers, batch: &Batch) -> Result<(), AllocError> {
    let day = 1 + numbers.below(28) as u16;
    let hour = numbers.below(23) as u16;
    text.clear();
    put(text, b"U")?;
    put_moment(text, batch, day, hour)?;
    put_moment(text, batch, day, hour + 1)
}

/// A value, which in one of two cases has a decimal.
fn put_value(text: &mut Vec<u8>, numbers: &mut Numbers) -> Result<(), AllocError> {
    let drawn = numbers.next();
    let whole = (drawn % 86_400) as u32 + 1;
    put(text, Buffer::new().format(whole).as_bytes())?;
    let decimal = (drawn >> 32) % 18;
    if decimal < 9 {
        put(text, &[b'.', b'1' + decimal as u8])?;
    }
    Ok(())
}

fn put_reading(
    text: &mut Vec<u8>,
    numbers: &mut Numbers,
    usage: &[u8],
    resource: &Resource,
) -> Result<(), AllocError> {
    let begin = text.len();
    put(text, usage)?;
    if resource.kind != b'U'
        && let Some(kind) = text.get_mut(begin)
    {
        *kind = resource.kind;
    }
    put(text, &resource.front)?;
    if !resource.has_value {
        put_value(text, numbers)?;
    }
    put(text, &resource.back)
}

/// Appends a batch, of as many lines as it tells where the agent has as many resources.
pub fn put_batch(
    alloc: Global,
    text: &mut Vec<u8>,
    numbers: &mut Numbers,
    batch: &Batch,
    resources: &Resources,
) -> Result<(), AllocError> {
    put(text, if batch.has_regions { b"B2" } else { b"B1" })?;
    put_word(text, b"|", batch.agent)?;
    put_word(text, b"|", batch.seq)?;
    put_word(text, b"|", batch.readings.saturating_add(batch.amended))?;
    put(text, b"\n")?;
    let mut usage = Vec::new(alloc);
    for (place, resource) in resources.all.iter().enumerate() {
        if place % 40 == 0 {
            set_usage(&mut usage, numbers, batch)?;
        }
        if batch.is_bad && place + 1 == resources.all.len() {
            put(text, b"Z")?;
        }
        put_reading(text, numbers, &usage, resource)?;
    }
    for place in 0..batch.amended {
        put_word(text, b"X|", batch.amended_seq)?;
        put_word(text, b"|", place.saturating_mul(2))?;
        put(text, b"|")?;
        put_value(text, numbers)?;
        put(text, b"\n")?;
    }
    Ok(())
}
