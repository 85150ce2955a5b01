//! What a node is asked, and answers.

ghost use Rattle.std.specs.Prelude.{◌≡◌, [], ◌++◌, None, Some, unwrap_or, OnOk};
ghost use Rattle.std.specs.Option.{option_map};
ghost use Rattle.process_laws.specs.LocalSteps.{BeginBallot, ExportPeriod, HasBegun, HasTaken, SendBatch, TakePacket, TellKept};
ghost use Rattle.group_node.specs.Packets.{packet_of};
ghost use Rattle.group_process.specs.Added.{increment_after};
ghost use Rattle.group_process.specs.Selves.{kept_of_node};
ghost use Rattle.packet_text.specs.PacketText.{packet_in};
ghost use Rattle.process_text.specs.Answers.{AnswersNode, added_text, addressee, answer_text, sent_text};
ghost use Rattle.process_text.specs.Requests.{AsksNode, node_request, packet_request};
ghost use Rattle.process_text.specs.Inner.Written.{AppendsNode};

use crate::answers::{
    FOREIGN, NO_COMMAND, addressee, put_added, put_file, put_given, put_kept_text, put_refusal,
    put_sent,
};
use crate::requests::{NodeRequest, node_request};
use answer_words::replies::{put_ballot, put_delivered_line};
use export_file::HeldText;
use group_node::Packet;
use group_process::{Added, Begun, Group, NodeProcess, Taken};
use packet_text::{GroupPacket, read_packet};
use std::alloc::{AllocError, Global};

/// Appends what a node sends for a packet that it took, if anything.
fn put_sends(
    text: &mut Vec<u8>,
    group: &Group,
    taken: &Packet,
    sends: &Option<Packet>,
) -> Result<(), AllocError>
    ensures { OnOk result (text.new.items ≡ text.old.items
        ++ sent_text group.now.name (addressee group.now.voters (packet_of taken.now))
        (option_map packet_of sends.now)) }
{
    match sends {
        Some(sent) => {
            let (voters, _, _) = group.sizes();
            put_sent(text, group.name(), addressee(voters, taken, sent), sent)
        }
        None => Ok(()),
    }
}

/// Appends what a step of a node adds to its log: most add nothing.
fn put_added_by(text: &mut Vec<u8>, node: &NodeProcess, added: Added) -> Result<(), AllocError>
    ensures { OnOk result (text.new.items ≡ text.old.items
        ++ added_text (increment_after added (kept_of_node node.now))) }
{
    match added {
        Added::Nothing => Ok(()),
        _ => put_added(text, node.increment(added)),
    }
}

/// Appends what came of a packet that a node took.
fn put_taken(
    text: &mut Vec<u8>,
    node: &NodeProcess,
    packet: &Packet,
    taken: &Taken,
) -> Result<(), AllocError>
    ensures { OnOk result (text.new.items ≡ text.old.items
        ++ answer_text node.now.group.name (addressee node.now.group.voters (packet_of packet.now))
        (increment_after taken.now.added (kept_of_node node.now))
        (record {
          words = HasTaken taken.now.learned;
          sends = option_map packet_of taken.now.sends;
        })) }
{
    let Ok(()) = put_added_by(text, node, taken.added) else {
        return Err(AllocError);
    };
    let Ok(()) = put_sends(text, node.group(), packet, &taken.sends) else {
        return Err(AllocError);
    };
    put_delivered_line(text, taken.learned)
}

/// Has a node take a packet.
fn take_packet(
    alloc: Global,
    node: &mut NodeProcess,
    handed: &GroupPacket<'_>,
    text: &mut Vec<u8>,
) -> Result<(), AllocError>
    ensures { OnOk result (AppendsNode (AsksNode (TakePacket handed.now.group handed.now.packet))
        node.old node.new text.old.items text.new.items) }
{
    match node.take(alloc, handed.group(), handed.packet()) {
        Ok(Some(taken)) => put_taken(text, node, handed.packet(), &taken),
        Ok(None) => text.extend_from_slice(FOREIGN),
        Err(failed) => Err(failed),
    }
}

/// Has a node take what stands below a line, where that is a packet.
fn take(
    alloc: Global,
    node: &mut NodeProcess,
    below: &[u8],
    text: &mut Vec<u8>,
) -> Result<(), AllocError>
    ensures { OnOk result (AppendsNode (packet_request (packet_in below.now))
        node.old node.new text.old.items text.new.items) }
{
    match read_packet(alloc, below) {
        Ok(Some(handed)) => take_packet(alloc, node, &handed, text),
        Ok(None) => text.extend_from_slice(FOREIGN),
        Err(failed) => Err(failed),
    }
}

/// Appends what came of a ballot that a node began.
fn put_started(text: &mut Vec<u8>, node: &NodeProcess, begun: &Begun) -> Result<(), AllocError>
    ensures { OnOk result (text.new.items ≡ text.old.items
        ++ answer_text node.now.group.name (λ sent. None)
        (increment_after begun.now.added (kept_of_node node.now))
        (record { words = HasBegun begun.now.ballot; sends = Some (packet_of begun.now.sends) })) }
{
    let Ok(()) = put_added(text, node.increment(begun.added)) else {
        return Err(AllocError);
    };
    let Ok(()) = put_sent(text, node.group().name(), None, &begun.sends) else {
        return Err(AllocError);
    };
    let Ok(()) = put_ballot(text, begun.ballot) else {
        return Err(AllocError);
    };
    text.extend_from_slice(b"\n")
}

/// Has a node begin a ballot.
fn begin(node: &mut NodeProcess, text: &mut Vec<u8>) -> Result<(), AllocError>
    ensures { OnOk result (AppendsNode (AsksNode BeginBallot)
        node.old node.new text.old.items text.new.items) }
{
    match node.begin() {
        Ok(begun) => put_started(text, node, &begun),
        Err(why) => put_refusal(text, why),
    }
}

/// Has a node export a period: a great file is what stands behind the text then.
fn export(
    alloc: Global,
    node: &NodeProcess,
    period: u16,
    text: &mut Vec<u8>,
    file: &mut Option<HeldText>,
) -> Result<(), AllocError>
    requires { file.old ≡ None }
    ensures { OnOk result (AppendsNode (AsksNode (ExportPeriod period))
        node.now node.now text.old.items (text.new.items ++ unwrap_or file.new [])) }
{
    match node.export(alloc, period) {
        Ok(Ok(snapshot)) => {
            let put = put_file(alloc, text, file, &snapshot);
            // Dropped by a call for the prover's time alone (docs/DECISIONS.md).
            snapshot.release();
            put
        }
        Ok(Err(why)) => put_refusal(text, why),
        Err(failed) => Err(failed),
    }
}

/// Has a node tell what it keeps.
fn keep(alloc: Global, node: &NodeProcess, text: &mut Vec<u8>) -> Result<(), AllocError>
    ensures { OnOk result (AppendsNode (AsksNode TellKept)
        node.now node.now text.old.items text.new.items) }
{
    let Ok(kept) = node.write_kept(alloc) else {
        return Err(AllocError);
    };
    put_kept_text(text, &kept)
}

/// Has a node send a batch once more.
fn give(node: &NodeProcess, agent: u8, seq: u32, text: &mut Vec<u8>) -> Result<(), AllocError>
    ensures { OnOk result (AppendsNode (AsksNode (SendBatch agent seq))
        node.now node.now text.old.items text.new.items) }
{
    put_given(text, node.group().name(), node.held(agent, seq), agent, seq)
}

/// Does what a node is asked by a line and the lines below it, of which `packet_lines` tells how many belong to it, and
/// makes the text what it answers, and a great file what stands behind it. An error is an allocation failure: then nothing of
/// both may leave, and nothing may be asked of the node any more, since it may have done what was not told.
pub(crate) fn answer_node(
    alloc: Global,
    node: &mut NodeProcess,
    line: &[u8],
    below: &[u8],
    text: &mut Vec<u8>,
    file: &mut Option<HeldText>,
) -> Result<(), AllocError>
    requires { file.old ≡ None }
    ensures { OnOk result (AnswersNode (node_request line.now below.now) node.old node.new
        (text.new.items ++ unwrap_or file.new [])) }
{
    text.clear();
    match node_request(line) {
        NodeRequest::Packet => take(alloc, node, below, text),
        NodeRequest::Begin => begin(node, text),
        NodeRequest::Export(period) => export(alloc, node, period, text, file),
        NodeRequest::Keep => keep(alloc, node, text),
        NodeRequest::Give { agent, seq } => give(node, agent, seq, text),
        NodeRequest::NoCommand => text.extend_from_slice(NO_COMMAND),
    }
}
