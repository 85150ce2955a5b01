//! The words of a reply's line. A file or a kept text that follows is appended by the caller.
//!
//! An error is an allocation failure: then some of the words may be appended.

ghost use Rattle.std.specs.Prelude.{◌≡◌, ◌++◌, codes, OnOk};
ghost use Rattle.metering_model.specs.Transcript.{if_any, line, refusal_text, with_number};

use crate::refusals::refusal_line;
use byte_text::{put_if_any, put_numbered};
use metering_model::Refusal;
use paxos_ballot::Ballot;
use period_cut::Period;
use std::alloc::AllocError;

/// Appends the packet that carries a journaled batch. An error is an allocation failure, and may leave some of the
/// words.
pub fn put_journaled(line: &mut Vec<u8>, packet: u32) -> Result<(), AllocError>
    ensures { OnOk result (line.new.items
        ≡ line.old.items ++ with_number (codes "journaled packet ") packet) }
{
    put_numbered(line, b"journaled packet ", u128::from(packet))
}

/// Appends which period a node learned, where it learned one.
fn put_learned(line: &mut Vec<u8>, learned: Option<Period>) -> Result<(), AllocError>
    ensures { OnOk result (line.new.items ≡ line.old.items ++ if_any (codes " learned ") learned) }
{
    match learned {
        Some(period) => put_numbered(line, b" learned ", u128::from(period.number())),
        None => Ok(()),
    }
}

/// Appends what a node did with a packet. An error is an allocation failure, and may leave some of the words.
pub fn put_delivered(
    line: &mut Vec<u8>,
    sent: Option<u32>,
    learned: Option<Period>,
) -> Result<(), AllocError>
    ensures { OnOk result (line.new.items
        ≡ line.old.items ++ (codes "delivered" ++ if_any (codes " sent ") sent
        ++ if_any (codes " learned ") learned)) }
{
    line.extend_from_slice(b"delivered")?;
    put_if_any(line, b" sent ", sent)?;
    put_learned(line, learned)
}

/// Appends all of the line of a node that tells of no packet which it sent, its line feed too. An error is an allocation
/// failure, and may leave some of the words.
pub fn put_delivered_line(text: &mut Vec<u8>, learned: Option<Period>) -> Result<(), AllocError>
    ensures { OnOk result (text.new.items ≡ text.old.items
        ++ line (codes "delivered" ++ if_any (codes " learned ") learned)) }
{
    // Most packets teach nothing: word and line feed go at once.
    match learned {
        Some(_) => {
            put_delivered(text, None, learned)?;
            text.extend_from_slice(b"\n")
        }
        None => text.extend_from_slice(b"delivered\n"),
    }
}

/// Appends which ballot a node began. An error is an allocation failure, and may leave some of the words.
pub fn put_ballot(line: &mut Vec<u8>, ballot: Ballot) -> Result<(), AllocError>
    ensures { OnOk result (line.new.items
        ≡ line.old.items ++ with_number (codes "started ballot ") ballot) }
{
    put_numbered(line, b"started ballot ", u128::from(ballot.number()))
}

/// Appends which ballot a node began, and the packet that it sent. An error is an allocation failure, and may leave
/// some of the words.
pub fn put_started(line: &mut Vec<u8>, ballot: Ballot, packet: u32) -> Result<(), AllocError>
    ensures { OnOk result (line.new.items
        ≡ line.old.items ++ (with_number (codes "started ballot ") ballot
        ++ with_number (codes " packet ") packet)) }
{
    put_ballot(line, ballot)?;
    put_numbered(line, b" packet ", u128::from(packet))
}

/// Appends that a node restarted. An error is an allocation failure.
pub fn put_restarted(line: &mut Vec<u8>) -> Result<(), AllocError>
    ensures { OnOk result (line.new.items ≡ line.old.items ++ codes "restarted") }
{
    line.extend_from_slice(b"restarted")
}

/// Appends the period of an export, and how many lines its file has. An error is an allocation failure, and may leave
/// some of the words.
pub fn put_exported(line: &mut Vec<u8>, period: Period, lines: usize) -> Result<(), AllocError>
    ensures { OnOk result (line.new.items
        ≡ line.old.items ++ (with_number (codes "exported period ") period
        ++ with_number (codes " lines ") lines)) }
{
    put_numbered(line, b"exported period ", u128::from(period.number()))?;
    put_numbered(line, b" lines ", lines as u128)
}

/// Appends how many lines a kept text has. An error is an allocation failure, and may leave some of the words.
pub fn put_kept(line: &mut Vec<u8>, lines: usize) -> Result<(), AllocError>
    ensures { OnOk result (line.new.items
        ≡ line.old.items ++ with_number (codes "kept lines ") lines) }
{
    put_numbered(line, b"kept lines ", lines as u128)
}

/// Appends why an event was refused. An error is an allocation failure, and may leave some of the words.
pub fn put_refused(line: &mut Vec<u8>, refusal: Refusal) -> Result<(), AllocError>
    ensures { OnOk result (line.new.items
        ≡ line.old.items ++ (codes "refused " ++ refusal_text refusal)) }
{
    line.extend_from_slice(b"refused ")?;
    line.extend_from_slice(refusal_line(refusal).as_slice())
}
