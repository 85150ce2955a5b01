//! The numbers of a packet's line, each read from its field.

ghost use Rattle.std.specs.Prelude.{◌≡◌, ◌<◌, ◌≤◌, length, MatchOption};
ghost use Rattle.std.specs.List.{list_all};
ghost use Rattle.metering_model.specs.BatchReading.{fields_in, whole_in};
ghost use Rattle.metering_model.specs.Limits.{most_agents, most_journal_lines};
ghost use Rattle.packet_text.specs.PacketText.{ballot_in, is_group, is_group_byte, node_in, period_in};

use byte_text::{read_whole, split_at_bar};
use paxos_ballot::Ballot;
use period_cut::Period;

/// A group's name has no more bytes.
const MOST_GROUP_BYTES: usize = 32;

/// A cut has entries for no more agents.
const MOST_AGENTS: u8 = 64;

/// Whether the byte is a digit, a letter or `-`.
fn is_group_byte(byte: u8) -> bool
    ensures { result ≡ is_group_byte byte }
{
    // Most bytes of a name are small letters.
    if byte >= b'a' {
        return byte <= b'z';
    }
    matches!(byte, b'0'..=b'9' | b'A'..=b'Z' | b'-')
}

/// Whether each byte is one of a group's name.
fn are_group_bytes(name: &[u8]) -> bool
    ensures { result ≡ list_all is_group_byte name.now }
{
    name.iter().all(|byte| is_group_byte(*byte))
}

/// Whether the text may be a group's name: 1 to 32 bytes, of which each is a letter, a digit or `-`.
pub fn is_group(name: &[u8]) -> bool
    ensures { result ≡ is_group name.now }
{
    !name.is_empty() && name.len() <= MOST_GROUP_BYTES && are_group_bytes(name)
}

/// The period of that number, which is at most 1,199.
pub(crate) fn read_period(text: &[u8]) -> Option<Period>
    ensures { result ≡ period_in text.now }
{
    let Some(number) = read_whole(text, 0, 1_199) else {
        return None;
    };
    Period::new(number as u16)
}

/// The ballot of that number, from 1 to 990,098.
pub(crate) fn read_ballot(text: &[u8]) -> Option<Ballot>
    ensures { result ≡ ballot_in text.now }
{
    let Some(number) = read_whole(text, 1, 990_098) else {
        return None;
    };
    Ballot::numbered(number)
}

/// The number of a node, at most 98.
pub(crate) fn read_node(text: &[u8]) -> Option<u8>
    ensures { result ≡ node_in text.now }
{
    let Some(number) = read_whole(text, 0, 98) else {
        return None;
    };
    Some(number as u8)
}

/// How many lines a batch has, from 1 to 1,001.
pub(crate) fn read_lines(text: &[u8]) -> Option<u16>
    ensures { result ≡ whole_in 1 most_journal_lines text.now }
{
    let Some(number) = read_whole(text, 1, 1_001) else {
        return None;
    };
    Some(number as u16)
}

/// How many fields there are, unless these are more than 64.
pub(crate) fn count_fields(fields: &[u8]) -> Option<u8>
    ensures { MatchOption result
        (most_agents < length (fields_in fields.now))
        (λ n. (n ≡ length (fields_in fields.now)) × (1 ≤ n) × (n ≤ most_agents)) }
{
    let mut rest = fields;
    for count in 0..MOST_AGENTS {
        let Some((_, behind)) = split_at_bar(rest) else {
            return Some(count + 1);
        };
        rest = behind;
    }
    None
}
