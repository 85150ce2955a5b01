//! Growths that are refused, each in turn behind the gate: what is told then, and what went out.

use batch_player::rate_text;
use batch_store::Period;
use command_line::{FileFault, file_text};
use counted_io::{Counted, FakeReader, FakeWriter};
use program_input::PlayFault;
use schedule_player::play_text;
use std::alloc::{AllocError, Global};
use std::test::Fail;
use worked_texts::{HEADER, LINE, READ, SECTIONS};

/// The texts, one after the other.
fn joined(alloc: Global, parts: &[&[u8]]) -> Result<Vec<u8>, AllocError> {
    let mut text = Vec::new(alloc);
    for part in parts {
        text.extend_from_slice(part)?;
    }
    Ok(text)
}

/// Whether the file of the input is written, or an allocation failure is reported and no call was made.
fn is_all_or_nothing(alloc: Global, january: Period, input: &[u8], room: Vec<u8>) -> bool {
    let mut source = Counted::new(FakeReader::new(input));
    let mut sink = Counted::new(FakeWriter::new(room));
    match rate_text(alloc, january, &mut source, &mut sink) {
        Ok(()) => sink.inner().taken.strip_prefix(HEADER) == Some(LINE),
        Err(fault) => fault == PlayFault::OutOfMemory && sink.inner().calls == 0,
    }
}

/// A file is written whole, or nothing of it.
#[test]
fn a_refused_growth_leaves_nothing_written(rt: HostRuntime) -> Result<(), Fail> {
    let january = Period::new(0).ok_or("no period")?;
    if let (Ok(input), Ok(room)) = (
        joined(rt.alloc(), &[SECTIONS, READ]),
        Vec::with_capacity(rt.alloc(), 4_096),
    ) {
        let is_so = is_all_or_nothing(rt.alloc(), january, &input, room);
        assert!(rt; is_so);
    }
    Ok(())
}

/// The events of a group of one node that agrees on the reading, after the batch that is journaled.
const EVENTS: &[u8] =
    b"deliver 0 0\nstart 0\ndeliver 1 0\ndeliver 2 0\ndeliver 3 0\ndeliver 4 0\nexport 0 0\n";

/// The replies to all of them but the last, a line each.
const REPLIES: &[u8] = b"journaled packet 0\ndelivered\nstarted ballot 1 packet 1\n\
delivered sent 2\ndelivered sent 3\ndelivered sent 4\ndelivered learned 0\n";

/// The schedule of these events.
fn schedule(alloc: Global) -> Result<Vec<u8>, AllocError> {
    let head = b"SCHEDULE 1\nnodes 1\nagents 1\n".as_slice();
    joined(alloc, &[head, SECTIONS, b"journal 2\n", READ, EVENTS])
}

/// Whether the text is the replies of some first events.
fn are_first_replies(text: &[u8]) -> bool {
    REPLIES.starts_with(text) && (text.is_empty() || text.ends_with(b"\n"))
}

/// Whether it is the replies of all events. The last reply ends with the file.
fn are_all_replies(text: &[u8]) -> bool {
    let Some(exported) = text.strip_prefix(REPLIES) else {
        return false;
    };
    match exported.strip_prefix(b"exported period 0 lines 2\n".as_slice()) {
        Some(file) => file.strip_prefix(HEADER) == Some(LINE),
        None => false,
    }
}

/// Whether all replies are written, or an allocation failure is reported and the first ones were, whole.
fn are_whole_replies(alloc: Global, input: &[u8], room: Vec<u8>) -> bool {
    let mut source = Counted::new(FakeReader::new(input));
    let mut sink = Counted::new(FakeWriter::new(room));
    let answer = play_text(alloc, &mut source, &mut sink);
    let text = sink.inner().taken.as_slice();
    sink.failed_calls() == 0
        && match answer {
            Ok(()) => are_all_replies(text),
            Err(fault) => {
                fault == PlayFault::OutOfMemory
                    && (are_first_replies(text) || are_all_replies(text))
            }
        }
}

/// What is written of a transcript are whole replies, the first ones.
#[test]
fn a_refused_growth_leaves_whole_events(rt: HostRuntime) {
    if let (Ok(input), Ok(room)) = (schedule(rt.alloc()), Vec::with_capacity(rt.alloc(), 4_096)) {
        let is_so = are_whole_replies(rt.alloc(), &input, room);
        assert!(rt; is_so);
    }
}

/// A transcript whose file of January has so many lines below its header line.
fn shown(alloc: Global, lines: usize, above: &[u8]) -> Result<(Vec<u8>, Vec<u8>), AllocError> {
    let mut file = joined(alloc, &[HEADER])?;
    for _ in 0..lines {
        file.extend_from_slice(LINE)?;
    }
    let text = joined(alloc, &[REPLIES, above, &file, b"restarted\n"])?;
    Ok((text, file))
}

/// Whether the text is of the file's first lines, each of them whole.
fn are_first_lines(text: &[u8], file: &[u8]) -> bool {
    file.starts_with(text) && (text.is_empty() || text.ends_with(b"\n"))
}

/// Whether the file is written, or an allocation failure is reported and its first lines were.
fn is_prefix(alloc: Global, january: Period, shown: &(Vec<u8>, Vec<u8>), room: Vec<u8>) -> bool {
    let (input, file) = shown;
    let mut source = Counted::new(FakeReader::new(input));
    let mut sink = Counted::new(FakeWriter::new(room));
    let answer = file_text(alloc, january, &mut source, &mut sink);
    let text = sink.inner().taken.as_slice();
    sink.failed_calls() == 0
        && match answer {
            Ok(()) => text == file.as_slice(),
            Err(fault) => fault == FileFault::OutOfMemory && are_first_lines(text, file),
        }
}

/// What is written of a file that is cut out are whole lines, the first ones. The file is longer than what is read at a
/// time, so that some growths come when a part of it went out.
#[test]
fn a_refused_growth_leaves_a_prefix_of_the_file(rt: HostRuntime) -> Result<(), Fail> {
    let january = Period::new(0).ok_or("no period")?;
    if let (Ok(shown), Ok(room)) = (
        shown(rt.alloc(), 600, b"exported period 0 lines 601\n"),
        Vec::with_capacity(rt.alloc(), 262_144),
    ) {
        let is_so = is_prefix(rt.alloc(), january, &shown, room);
        assert!(rt; is_so);
    }
    Ok(())
}
