//! The head line of a log, read.

ghost use Rattle.std.specs.Prelude.{◌≡◌, ◌≤◌, [], ◌∷◌, length, None, Some, Ok, Err, IfSome, MatchOption};
ghost use Rattle.std.specs.Option.{option_map};
ghost use Rattle.metering_model.specs.BatchReading.{fields_in, whole_in};
ghost use Rattle.log_text.specs.Heads.{who_of};
ghost use Rattle.log_text.specs.LogText.{head_in, is_among, who_in};
ghost use Rattle.log_text.specs.Inner.Reading.{sizes_in};

use crate::faults::LogCode;
use crate::heads::{LogHead, Who};
use byte_text::{is_same, read_whole, split_at_bar};
use packet_text::is_group;

/// Two fields of a line, and what stands behind these.
#[derive(Clone, Copy)]
struct Pair<'a> {
    one: &'a [u8],
    other: &'a [u8],
    behind: &'a [u8],
}

/// The first two fields, if others stand behind them.
fn read_pair(fields: &[u8]) -> Option<Pair<'_>>
    ensures { MatchOption result
        (length (fields_in fields.now) ≤ 2)
        (λ p. fields_in fields.now ≡ p.one.now ∷ p.other.now ∷ fields_in p.behind.now) }
{
    let Some((one, others)) = split_at_bar(fields) else {
        return None;
    };
    match split_at_bar(others) {
        Some((other, behind)) => Some(Pair { one, other, behind }),
        None => None,
    }
}

/// The seven fields of a head line.
#[derive(Clone, Copy)]
struct HeadFields<'a> {
    version: &'a [u8],
    group: &'a [u8],
    word: &'a [u8],
    number: &'a [u8],
    voters: &'a [u8],
    observers: &'a [u8],
    agents: &'a [u8],
}

/// The fields, if there are just seven.
fn head_fields(line: &[u8]) -> Option<HeadFields<'_>>
    ensures { MatchOption result
        (head_in (fields_in line.now) ≡ Err LogCode.Head)
        (λ f. fields_in line.now
        ≡ f.version.now ∷ f.group.now ∷ f.word.now ∷ f.number.now ∷ f.voters.now
        ∷ f.observers.now ∷ f.agents.now ∷ []) }
{
    let Some(name) = read_pair(line) else {
        return None;
    };
    let Some(who) = read_pair(name.behind) else {
        return None;
    };
    let Some(nodes) = read_pair(who.behind) else {
        return None;
    };
    let agents = nodes.behind;
    if split_at_bar(agents).is_some() {
        return None;
    }
    Some(HeadFields {
        version: name.one,
        group: name.other,
        word: who.one,
        number: who.other,
        voters: nodes.one,
        observers: nodes.other,
        agents,
    })
}

/// A number between these two, of which the second is at most 99.
fn read_number(text: &[u8], low: u32, high: u32) -> Option<u8>
    requires { high ≤ 99 }
    ensures value { result ≡ whole_in low high text.now }
    ensures within { IfSome result (λ n. n ≤ high) }
{
    let Some(number) = read_whole(text, low, high) else {
        return None;
    };
    Some(number as u8)
}

/// How many nodes vote, how many observe, how many there are, and how many agents.
#[derive(Clone, Copy)]
struct Sizes {
    voters: u8,
    observers: u8,
    nodes: u8,
    agents: u8,
}

/// The sizes of a group that has at most 99 nodes.
fn read_sizes(voters: &[u8], observers: &[u8], agents: &[u8]) -> Option<Sizes>
    ensures { MatchOption result
        (sizes_in voters.now observers.now agents.now ≡ None)
        (λ s. sizes_in voters.now observers.now agents.now ≡ Some (record {
          voters = s.voters;
          observers = s.observers;
          nodes = s.nodes;
          agents = s.agents;
        })) }
{
    let Some(voters) = read_number(voters, 1, 99) else {
        return None;
    };
    let Some(observers) = read_number(observers, 0, 99) else {
        return None;
    };
    let Some(agents) = read_number(agents, 1, 64) else {
        return None;
    };
    let nodes = voters + observers;
    if nodes > 99 {
        return None;
    }
    Some(Sizes {
        voters,
        observers,
        nodes,
        agents,
    })
}

/// Whose log it is.
fn read_who(word: &[u8], number: &[u8]) -> Option<Who>
    ensures { option_map who_of result ≡ who_in word.now number.now }
{
    if is_same(word, b"node") {
        return match read_number(number, 0, 98) {
            Some(node) => Some(Who::Node(node)),
            None => None,
        };
    }
    if is_same(word, b"agent") {
        return match read_number(number, 1, 64) {
            Some(agent) => Some(Who::Agent(agent)),
            None => None,
        };
    }
    None
}

/// Whether that one is there, among so many nodes and agents.
fn is_among(who: Who, nodes: u8, agents: u8) -> bool
    ensures { result ≡ is_among (who_of who) nodes agents }
{
    match who {
        Who::Node(node) => node < nodes,
        Who::Agent(agent) => 1 <= agent && agent <= agents,
    }
}

/// The head that a line is.
pub(crate) fn read_head(line: &[u8]) -> Option<LogHead>
    ensures { MatchOption result
        (head_in (fields_in line.now) ≡ Err LogCode.Head)
        (λ head. head_in (fields_in line.now) ≡ Ok head) }
{
    let Some(fields) = head_fields(line) else {
        return None;
    };
    if !is_same(fields.version, b"G1") {
        return None;
    }
    if !is_group(fields.group) {
        return None;
    }
    let Some(who) = read_who(fields.word, fields.number) else {
        return None;
    };
    let Some(sizes) = read_sizes(fields.voters, fields.observers, fields.agents) else {
        return None;
    };
    if !is_among(who, sizes.nodes, sizes.agents) {
        return None;
    }
    Some(LogHead::new(
        fields.group,
        who,
        sizes.voters,
        sizes.observers,
        sizes.agents,
    ))
}
