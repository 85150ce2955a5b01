//! Packets as lines of text.

use packet_text::{GroupPacket, put_packet, read_packet};
use std::alloc::{AllocError, Global};

/// One of each form, with the least and the greatest numbers.
const TEXTS: &[&[u8]] = &[
    b"P1|prod-EU1|prepare|0|1\n",
    b"P1|prod-EU1|promise|98|1199|990098|0\n",
    b"P1|prod-EU1|promise|2|7|11|5|3|0|1000000\n",
    b"P1|prod-EU1|accept|7|11|3|0\n",
    b"P1|prod-EU1|accepted|0|7|11|3\n",
    b"P1|prod-EU1|decided|7|3|0\n",
    b"P1|prod-EU1|batch|2\nB1|1|2|1\nX|1|0|1.5\n",
    b"P1|-|batch|1\nB1|64|1000000|0\n",
];

/// Texts of no packet: each differs in one thing from one that is.
const OTHERS: &[&[u8]] = &[
    b"",
    b"\n",
    b"P1|g|prepare|1200|1\n",
    b"P1|g|prepare|0|0\n",
    b"P1|g|prepare|0\n",
    b"P1|g|prepare|0|1|\n",
    b"P1|g|prepare|0|1",
    b"P1|g|prepare|0|1\n\n",
    b"P1|g_|prepare|0|1\n",
    b"P1|g|promise|0|0|1|0|0\n",
    b"P1|g|promise|0|0|1|1\n",
    b"P1|g|promise|0|0|1\n",
    b"P1|g|decided|0\n",
    b"P1|g|decided\n",
    b"P1|g\n",
    b"P1\n",
    b"P1|g|batch|1\nB1|1|2|1\nX|1|0|1.5\n",
    b"P1|g|batch|3\nB1|1|2|1\nX|1|0|1.5\n",
    b"P1|g|batch|2|\nB1|1|2|1\nX|1|0|1.5\n",
];

/// What is read of a text, asked once more where an allocation fails.
fn read_again(alloc: Global, text: &[u8]) -> Result<Option<GroupPacket<'_>>, AllocError> {
    match read_packet(alloc, text) {
        Ok(read) => Ok(read),
        Err(_) => read_packet(alloc, text),
    }
}

/// Whether a packet has this text: where an allocation fails nothing is written, and it is written once more.
fn has_text(alloc: Global, packet: &GroupPacket<'_>, text: &[u8]) -> bool {
    let mut written = Vec::new(alloc);
    if put_packet(&mut written, packet.group(), packet.packet()).is_err() {
        let is_empty = written.as_slice().is_empty();
        let is_put = put_packet(&mut written, packet.group(), packet.packet()).is_ok();
        return is_empty && is_put && written.as_slice() == text;
    }
    written.as_slice() == text
}

/// Whether a text is read, and written again as it was.
fn comes_back(alloc: Global, text: &[u8]) -> bool {
    match read_again(alloc, text) {
        Ok(Some(packet)) => has_text(alloc, &packet, text),
        _ => false,
    }
}

/// Whether a text is read as none.
fn is_refused(alloc: Global, text: &[u8]) -> bool {
    matches!(read_packet(alloc, text), Ok(None))
}

/// What is no failure of an allocation is answered: no clause says so.
#[test]
fn packets_come_back_as_texts(rt: HostRuntime) {
    let alloc = rt.alloc();
    for text in TEXTS {
        assert!(rt; comes_back(alloc, text));
    }
    for text in OTHERS {
        assert!(rt; is_refused(alloc, text));
    }
}

/// The same where an allocation fails.
#[test]
fn a_refused_growth_of_a_packet_that_is_read_and_written(rt: HostRuntime) {
    for text in TEXTS {
        assert!(rt; comes_back(rt.alloc(), text));
    }
}
