//! Numbers in a line, after a word.

ghost use Rattle.std.specs.Prelude.{◌≡◌, ◌+◌, ◌<◌, ◌≤◌, Some, IfSome, length};
ghost use Rattle.metering_model.specs.Limits.{most_nodes};
ghost use Rattle.schedule_reader.specs.Schedules.{counts_at, counts_in, nodes_behind, one_behind, two_behind, two_in};

use byte_text::{find_byte, read_whole};
use input_sections::{behind_word, number_behind};

/// A group has no more nodes than this.
const MOST_NODES: u32 = 99;

/// The number after the word, from 0 to `most`.
pub(crate) fn one_behind(line: &[u8], word: &[u8], most: u32) -> Option<u32>
    requires { most ≤ 1_000_000 }
    ensures value { result ≡ one_behind word.now most line.now }
    ensures within { IfSome result (λ n. n ≤ most) }
{
    read_whole(behind_word(line, word)?, 0, most)
}

/// Two numbers parted by a space, each from 0 to its most.
fn read_two(text: &[u8], first: u32, second: u32) -> Option<(u32, u32)>
    requires { (first ≤ 1_000_000) × (second ≤ 1_000_000) }
    ensures value { result ≡ two_in first second text.now }
    ensures within { IfSome result (λ n. (n.0 ≤ first) × (n.1 ≤ second)) }
{
    let space = find_byte(text, b' ')?;
    let one = read_whole(&text[..space], 0, first)?;
    let other = read_whole(&text[space + 1..], 0, second)?;
    Some((one, other))
}

/// The two numbers after the word, each from 0 to its most.
pub(crate) fn two_behind(line: &[u8], word: &[u8], first: u32, second: u32) -> Option<(u32, u32)>
    requires { (first ≤ 1_000_000) × (second ≤ 1_000_000) }
    ensures value { result ≡ two_behind word.now first second line.now }
    ensures within { IfSome result (λ n. (n.0 ≤ first) × (n.1 ≤ second)) }
{
    read_two(behind_word(line, word)?, first, second)
}

/// The voters before the space, and the observers after it and its word.
fn read_both(text: &[u8], space: usize) -> Option<(u32, u32)>
    requires { space < length text.now }
    ensures value { result ≡ counts_at text.now (Some space) }
    ensures within { IfSome result (λ n. n.0 + n.1 ≤ most_nodes) }
{
    let voters = read_whole(&text[..space], 1, MOST_NODES - 1)?;
    let observers = number_behind(&text[space + 1..], b"observers ", MOST_NODES - 1)?;
    if voters + observers <= MOST_NODES {
        Some((voters, observers))
    } else {
        None
    }
}

/// The voters, and the observers where the text tells of some.
fn read_counts(text: &[u8]) -> Option<(u32, u32)>
    ensures value { result ≡ counts_in text.now }
    ensures within { IfSome result (λ n. n.0 + n.1 ≤ most_nodes) }
{
    match find_byte(text, b' ') {
        Some(space) => read_both(text, space),
        None => {
            let voters = read_whole(text, 1, MOST_NODES)?;
            Some((voters, 0))
        }
    }
}

/// How many nodes vote and how many observe, as the line of the nodes tells: at most 99 in all.
pub(crate) fn nodes_behind(line: &[u8]) -> Option<(u32, u32)>
    ensures value { result ≡ nodes_behind line.now }
    ensures within { IfSome result (λ n. n.0 + n.1 ≤ most_nodes) }
{
    read_counts(behind_word(line, b"nodes ")?)
}
