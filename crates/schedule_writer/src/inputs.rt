//! What stands behind the sections of an input: batches, and lines that close a period.

ghost use Rattle.std.specs.Prelude.{◌≡◌, ◌≤◌, length};
ghost use Rattle.schedule_writer.specs.Inputs.{head_text, item_at, lacks_head, offered_length};
ghost use Rattle.schedule_writer.specs.Inner.Plans.{item_of};
ghost use Rattle.schedule_writer.specs.Inner.Walks.{IsItemLength};

use batch_view::{BatchCode, BatchView};
use byte_text::find_byte;
use input_sections::behind_word;

/// What is offered as a batch.
#[derive(Clone, Copy, Drop)]
pub(crate) struct Offered<'a> {
    /// The byte of the input at which it begins.
    pub(crate) from: usize,
    pub(crate) text: &'a [u8],
}

/// What stands next in an input.
#[derive(Drop)]
pub(crate) enum Item<'a> {
    Offers(Offered<'a>),
    /// A line that closes the period which is open.
    Closes,
}

/// The first line with its line feed; all of the text where it has none.
fn head_text(text: &[u8]) -> &[u8]
    ensures text { result.now ≡ head_text text.now }
    ensures within { length result.now ≤ length text.now }
{
    match find_byte(text, b'\n') {
        Some(feed) => &text[..feed + 1],
        None => text,
    }
}

/// Whether no line comes first that a batch may begin with. One that is longer than a batch may be is no head either.
fn lacks_head(text: &[u8]) -> bool
    ensures { result ≡ lacks_head text.now }
{
    match BatchView::parse(head_text(text)) {
        Ok(_) => false,
        Err(fault) => matches!(fault.code, BatchCode::Head | BatchCode::TooLong),
    }
}

/// How many bytes are offered as the batch that comes next.
#[tactic(auto, unfolding(crate::specs::Inputs::offered_length))]
fn offered_length(text: &[u8]) -> usize
    ensures value { result ≡ offered_length text.now }
    ensures within { result ≤ length text.now }
{
    match BatchView::extent(text) {
        Some(length) => length as usize,
        None => {
            if lacks_head(text) {
                head_text(text).len()
            } else {
                text.len()
            }
        }
    }
}

/// The item that begins at a byte of the input, and how many bytes it has.
pub(crate) fn item_at<'a>(input: &'a [u8], from: usize) -> (Item<'a>, usize)
    requires { from ≤ length input.now }
    ensures item { item_of result.0 ≡ item_at input.now from }
    ensures length { IsItemLength input.now from result.1 }
{
    let left = &input[from..];
    if behind_word(left, b"close\n").is_some() {
        return (Item::Closes, 6);
    }
    let length = offered_length(left);
    let offered = Offered {
        from,
        text: &left[..length],
    };
    (Item::Offers(offered), length)
}
