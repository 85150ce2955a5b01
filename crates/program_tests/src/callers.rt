//! What a caller writes: the functions that stand word for word in the README of `schedule_player`.

use counted_io::Counted;
use program_input::{PlayFault, ScheduleCode, ScheduleFault};
use schedule_player::play_text;
use std::alloc::{AllocError, Global};
use worked_texts::{HEADER, SECTIONS};

/// In words why there is no transcript.
fn reason(alloc: Global, fault: &PlayFault) -> Result<String, AllocError> {
    match fault {
        PlayFault::Schedule(ScheduleFault::Refused { code, line }) => match code {
            ScheduleCode::Event => format!(in alloc; "line {line} is no event"),
            _ => format!(in alloc; "line {line} breaks rule {code}"),
        },
        fault => format!(in alloc; "{fault}"),
    }
}

/// The transcript of a schedule, or in words why there is none.
fn transcript(alloc: Global, schedule: &[u8]) -> Result<Result<Vec<u8>, String>, AllocError> {
    let mut source = Counted::new(schedule);
    let mut sink = Counted::new(Vec::new(alloc));
    match play_text(alloc, &mut source, &mut sink) {
        Ok(()) => Ok(Ok(sink.into_inner())),
        Err(PlayFault::OutOfMemory) => Err(AllocError),
        Err(fault) => Ok(Err(reason(alloc, &fault)?)),
    }
}

/// A node that agrees with itself on the first period, and is asked for its file.
const EVENTS: &[u8] = b"start 0\ndeliver 0 0\ndeliver 1 0\ndeliver 2 0\ndeliver 3 0\nexport 0 0\n";

/// The replies, up to the file.
const REPLIES: &[u8] = b"started ballot 1 packet 0\ndelivered sent 1\ndelivered sent 2\n\
delivered sent 3\ndelivered learned 0\nexported period 0 lines 1\n";

/// A schedule of one node with these events.
fn schedule(alloc: Global, events: &[u8]) -> Result<Vec<u8>, AllocError> {
    let mut text = b"SCHEDULE 1\nnodes 1\nagents 1\n".to_vec(alloc)?;
    text.extend_from_slice(SECTIONS)?;
    text.extend_from_slice(events)?;
    Ok(text)
}

/// Whether the transcript of these events is the replies, and the file without a row.
fn is_told(alloc: Global, events: &[u8]) -> bool {
    let Ok(schedule) = schedule(alloc, events) else {
        return false;
    };
    match transcript(alloc, &schedule) {
        Ok(Ok(text)) => text.strip_prefix(REPLIES) == Some(HEADER),
        _ => false,
    }
}

/// Whether there is none, for this reason.
fn is_refused(alloc: Global, schedule: &[u8], why: &str) -> bool {
    match transcript(alloc, schedule) {
        Ok(Err(told)) => told.as_str() == why,
        _ => false,
    }
}

/// The same of the schedule with these events.
fn are_refused(alloc: Global, events: &[u8], why: &str) -> bool {
    match schedule(alloc, events) {
        Ok(schedule) => is_refused(alloc, &schedule, why),
        Err(_) => false,
    }
}

/// The head has three lines, and the sections have 14 and 8.
#[test]
fn a_transcript_is_asked_for(rt: HostRuntime) {
    assert!(rt; is_told(rt.alloc(), EVENTS));
    assert!(rt; are_refused(rt.alloc(), b"stop 0\n", "line 26 is no event"));
    assert!(rt;
        is_refused(
            rt.alloc(),
            b"SCHEDULE 1\nnodes 0\n",
            "line 2 breaks rule L2"
        )
    );
}
