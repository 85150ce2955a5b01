//! A node and an agent, from the bytes of their input to those of their answers.

use counted_io::{Counted, FakeReader, FakeWriter};
use process_player::{ProcessFault, ProcessKind, process_text};
use std::alloc::{AllocError, Global};
use worked_texts::{HEADER, LINE, READ, SECTIONS};

/// What stands before the sheet and the issuer.
const NODE: &[u8] = b"NODE 1\nG1|prod-eu|node|0|1|0|1\n";

const AGENT: &[u8] = b"AGENT 1\nG1|prod-eu|agent|1|1|0|1\n";

/// A node that gets a batch and closes January by itself.
const BATCH: &[u8] = b"new\npacket 3\nP1|prod-eu|batch|2\n";

const MONTH: &[u8] =
    b"start\npacket 1\nP1|prod-eu|prepare|0|1\npacket 1\nP1|prod-eu|promise|0|0|1|0\n\
packet 1\nP1|prod-eu|accept|0|1|1\npacket 1\nP1|prod-eu|accepted|0|0|1|1\npacket 1\nP1|other|prepare|0|1\n\
packet 1\nno packet\nstop\nexport 1\nexport 0\n";

/// What it answers to them, up to the file.
const TOLD_OF_BATCH: &[u8] = b"begun period 0 round 0\nkept 3\nbatch 2\n";

const TOLD_OF_MONTH: &[u8] = b"delivered\n\
kept 1\nround|1\nsend all 1\nP1|prod-eu|prepare|0|1\nstarted ballot 1\n\
kept 1\nballot|0|1|0\nsend 0 1\nP1|prod-eu|promise|0|0|1|0\ndelivered\n\
send all 1\nP1|prod-eu|accept|0|1|1\ndelivered\n\
kept 1\nballot|0|1|1|1\nsend all 1\nP1|prod-eu|accepted|0|0|1|1\ndelivered\n\
kept 1\nlearned|0|1\ndelivered learned 0\nrefused G16\nrefused G16\nrefused L6\n\
refused G7 learned 1\nexported period 0 lines 2\n";

/// The node begun again with its log, which is its head line and what it kept above.
const LOG: &[u8] = b"log 8\nG1|prod-eu|node|0|1|0|1\nbatch 2\n";

const LOG_BEHIND: &[u8] = b"round|1\nballot|0|1|0\nballot|0|1|1|1\nlearned|0|1\nexport 0\n";

const TOLD_AGAIN: &[u8] = b"begun period 1 round 1\nexported period 0 lines 2\n";

/// All of these, one after the other, in room for about so many bytes as each has here.
fn joined(alloc: Global, parts: &[&[u8]]) -> Result<Vec<u8>, AllocError> {
    let mut text = Vec::with_capacity(alloc, 4_096)?;
    for part in parts {
        text.extend_from_slice(part)?;
    }
    Ok(text)
}

/// What a process of the kind answers to an input, and how it ended.
fn answers(alloc: Global, kind: ProcessKind, input: &[u8]) -> (Vec<u8>, Result<(), ProcessFault>) {
    let mut reader = Counted::new(FakeReader::new(input));
    let mut writer = Counted::new(FakeWriter::new(Vec::new(alloc)));
    let ended = process_text(alloc, kind, &mut reader, &mut writer);
    (writer.into_inner().taken, ended)
}

/// Whether a process of the kind answers just that to an input.
fn is_told(alloc: Global, kind: ProcessKind, input: &[u8], told: &[u8]) -> bool {
    let (written, ended) = answers(alloc, kind, input);
    ended == Ok(()) && written.as_slice() == told
}

/// The same of an input and an answer of these parts.
fn are_told(alloc: Global, kind: ProcessKind, parts: &[&[u8]], told: &[&[u8]]) -> bool {
    match (joined(alloc, parts), joined(alloc, told)) {
        (Ok(input), Ok(told)) => is_told(alloc, kind, &input, &told),
        _ => false,
    }
}

#[test]
fn a_node_closes_a_month(rt: HostRuntime) {
    assert!(rt;
        are_told(
            rt.alloc(),
            ProcessKind::Node,
            &[NODE, SECTIONS, BATCH, READ, MONTH],
            &[TOLD_OF_BATCH, READ, TOLD_OF_MONTH, HEADER, LINE],
        )
    );
}

#[test]
fn a_node_goes_on_with_its_log(rt: HostRuntime) {
    assert!(rt;
        are_told(
            rt.alloc(),
            ProcessKind::Node,
            &[NODE, SECTIONS, LOG, READ, LOG_BEHIND],
            &[TOLD_AGAIN, HEADER, LINE],
        )
    );
}

#[test]
fn an_agent_journals_a_batch(rt: HostRuntime) {
    assert!(rt;
        are_told(
            rt.alloc(),
            ProcessKind::Agent,
            &[
                AGENT,
                SECTIONS,
                b"new\njournal 2\n",
                READ,
                b"journal 2\n",
                READ,
                b"again 1\nagain 2\nstart\n"
            ],
            &[
                b"begun seq 1\nkept 3\nbatch 2\n",
                READ,
                b"send all 3\nP1|prod-eu|batch|2\n",
                READ,
                b"journaled seq 1\nrefused G2 wanted 2\nsend all 3\nP1|prod-eu|batch|2\n",
                READ,
                b"sent\nrefused G8 agent 1 seq 2\nrefused L6\n",
            ],
        )
    );
}

/// Whether an input of these parts begins no process of the kind, in these words.
fn is_unbegun(alloc: Global, kind: ProcessKind, parts: &[&[u8]], why: &str) -> bool {
    let Ok(input) = joined(alloc, parts) else {
        return false;
    };
    let (written, ended) = answers(alloc, kind, &input);
    match ended {
        Ok(()) => false,
        Err(fault) => match format!(in alloc; "{fault}") {
            Ok(told) => told.as_str() == why && written.is_empty(),
            Err(_) => false,
        },
    }
}

/// The same of a node.
fn is_refused(alloc: Global, parts: &[&[u8]], why: &str) -> bool {
    is_unbegun(alloc, ProcessKind::Node, parts, why)
}

/// The same of an agent, with these lines for its log.
fn is_no_agent(alloc: Global, log: &[u8], why: &str) -> bool {
    is_unbegun(alloc, ProcessKind::Agent, &[AGENT, SECTIONS, log], why)
}

/// Whether a node refuses what a reader gives in these words, and leaves at least so many bytes there.
fn is_refused_early(alloc: Global, reader: FakeReader<'_>, why: &str, left: usize) -> bool {
    let mut reader = Counted::new(reader);
    let mut writer = Counted::new(FakeWriter::new(Vec::new(alloc)));
    let Err(fault) = process_text(alloc, ProcessKind::Node, &mut reader, &mut writer) else {
        return false;
    };
    match format!(in alloc; "{fault}") {
        Ok(told) => told.as_str() == why && left <= reader.inner().rest.len(),
        Err(_) => false,
    }
}

/// Whether a node refuses a second line that is no head of its log before more is read: it takes no byte behind it.
fn is_second_line_alone(alloc: Global) -> bool {
    let Ok(input) = joined(alloc, &[b"NODE 1\nG1|prod-eu|agent|1|1|0|1\n", SECTIONS]) else {
        return false;
    };
    let reader = FakeReader::new(&input).byte_by_byte();
    is_refused_early(alloc, reader, "refused L2 line 2", SECTIONS.len())
}

/// Whether a node refuses a second line of more than 16,777,216 bytes, without a line feed, when it has taken two blocks more at
/// most: 1,048,576 bytes more stand there.
fn is_long_line_cut(alloc: Global) -> bool {
    let Ok(mut input) = joined(alloc, &[b"NODE 1\n"]) else {
        return false;
    };
    let Ok(()) = input.resize(17_825_792, b'G') else {
        return false;
    };
    is_refused_early(
        alloc,
        FakeReader::new(&input),
        "refused L8 line 1",
        1_048_576 - 131_072,
    )
}

#[test]
fn what_begins_no_node_is_refused(rt: HostRuntime) {
    let alloc = rt.alloc();
    assert!(rt; is_refused(alloc, &[b"NODE 2\n"], "refused L1 line 1"));
    assert!(rt; is_refused(alloc, &[AGENT, SECTIONS, b"new\n"], "refused L1 line 1"));
    assert!(rt;
        is_refused(
            alloc,
            &[b"NODE 1\nG1|prod-eu|node|1|1|0|1\n", SECTIONS, b"new\n"],
            "refused L2 line 2",
        )
    );
    assert!(rt;
        is_refused(
            alloc,
            &[NODE, b"sheet 1\n", b"base = 1\n"],
            "refused L4 line 3"
        )
    );
    assert!(rt; is_refused(alloc, &[NODE, SECTIONS, b"old\n"], "refused L6 line 25"));
    assert!(rt;
        is_refused(
            alloc,
            &[NODE, SECTIONS, b"log 2\nG1\n"],
            "refused L7 line 25"
        )
    );
    assert!(rt;
        is_refused(
            alloc,
            &[NODE, SECTIONS, b"log 2\nG1|prod-eu|node|0|1|0|1\nround|2\n"],
            "refused log: no increment line 2",
        )
    );
    assert!(rt;
        is_refused(
            alloc,
            &[NODE, SECTIONS, b"log 2\nG1|prod-us|node|0|1|0|1\nround|2\n"],
            "refused log: of another process",
        )
    );
    assert!(rt;
        is_refused(
            alloc,
            &[NODE, SECTIONS, b"log 1\nG1|prod-eu|node|0|1|0|1 \n"],
            "refused log: of another process",
        )
    );
    assert!(rt; is_second_line_alone(alloc));
    assert!(rt; is_long_line_cut(alloc));
}

#[test]
fn what_is_no_journal_begins_no_agent(rt: HostRuntime) {
    let alloc = rt.alloc();
    assert!(rt;
        is_no_agent(
            alloc,
            b"log 2\nG1|prod-eu|agent|1|1|0|1\nround|1\n",
            "refused log: no journal of this agent",
        )
    );
    assert!(rt;
        is_no_agent(
            alloc,
            b"log 2\nG1|prod-eu|agent|1|1|0|1\nlearned|0|0\n",
            "refused log: no journal of this agent",
        )
    );
    assert!(rt;
        is_no_agent(
            alloc,
            b"log 1\nG1|prod-eu|node|0|1|0|1\n",
            "refused log: of another process",
        )
    );
}

/// Whether that is the beginning of what the node of the month answers.
fn is_front(alloc: Global, written: &[u8]) -> bool {
    match joined(alloc, &[TOLD_OF_BATCH, READ, TOLD_OF_MONTH, HEADER, LINE]) {
        Ok(told) => told.starts_with(written),
        Err(_) => true,
    }
}

/// How the node of the month ends with these devices, and whether what it wrote is the beginning of its answers.
fn ends(
    alloc: Global,
    reader: FakeReader<'_>,
    writer: FakeWriter,
) -> (Result<(), ProcessFault>, bool) {
    let mut reader = Counted::new(reader);
    let mut writer = Counted::new(writer);
    let ended = process_text(alloc, ProcessKind::Node, &mut reader, &mut writer);
    (ended, is_front(alloc, &writer.inner().taken))
}

/// Whether a read of that number, of a byte each, may fail.
fn fails_at_read(alloc: Global, input: &[u8], call: u64) -> bool {
    let reader = FakeReader::new(input).byte_by_byte().failing_at(call);
    let (ended, is_front) = ends(alloc, reader, FakeWriter::new(Vec::new(alloc)));
    ended == Err(ProcessFault::Read) && is_front
}

/// Whether a write of that number may fail.
fn fails_at_write(alloc: Global, input: &[u8], call: u64) -> bool {
    let writer = FakeWriter::new(Vec::new(alloc)).failing_at(call);
    let (ended, is_front) = ends(alloc, FakeReader::new(input), writer);
    ended == Err(ProcessFault::Write) && is_front
}

/// Whether a node's first read may fail, one of its head, one of its commands and its last, and each of its twelve writes.
fn may_fail(alloc: Global) -> bool {
    let Ok(input) = joined(alloc, &[NODE, SECTIONS, BATCH, READ, MONTH]) else {
        return false;
    };
    let last = input.len() as u64 + 1;
    fails_at_read(alloc, &input, 1)
        && fails_at_read(alloc, &input, 33)
        && fails_at_read(alloc, &input, 740)
        && fails_at_read(alloc, &input, last)
        && (1..=12).all(|call| fails_at_write(alloc, &input, call))
}

#[test]
fn reads_and_writes_may_fail(rt: HostRuntime) {
    assert!(rt; may_fail(rt.alloc()));
}

/// Whether a node answers all, or ends where an allocation fails, its own or its writer's, behind some of that.
fn ends_well(alloc: Global) -> bool {
    let Ok(input) = joined(alloc, &[NODE, SECTIONS, BATCH, READ, MONTH]) else {
        return true;
    };
    let writer = FakeWriter::new(Vec::new(alloc));
    let (ended, is_front) = ends(alloc, FakeReader::new(&input), writer);
    match ended {
        Ok(()) => is_front,
        Err(fault) => (fault == ProcessFault::OutOfMemory || fault == ProcessFault::Write)
            && is_front,
    }
}

#[test]
fn a_refused_growth_ends_a_process(rt: HostRuntime) {
    assert!(rt; ends_well(rt.alloc()));
}
