//! The texts of faults.

use command_line::{FileFault, LineFault, ThreadsFault};
use counted_io::{Failed, ReadFault};
use focus_csv::CsvFault;
use focus_row::RowFault;
use metering_model::{
    BatchCode, BatchFault, BrokenRule, KeptCode, KeptTextFault, NumberFault, Refusal,
};
use node_kept::KeptFault;
use program_input::{PlayFault, ScheduleCode, ScheduleFault};
use std::alloc::AllocError;
use std::fmt::Display;

/// Appends what is told of each fault, with a point after it.
fn tell<F: Display>(text: &mut String, faults: &[F]) -> Result<(), AllocError> {
    for fault in faults {
        write!(text, "{fault}.")?;
    }
    Ok(())
}

#[test]
fn a_batch_is_refused_by_a_code(rt: HostRuntime) {
    let mut text = String::new(rt.alloc());
    let is_told = tell(&mut text, &[NumberFault::Shape, NumberFault::Range]).is_ok();
    assert!(rt; is_told);
    let codes = [
        BatchCode::Head,
        BatchCode::Count,
        BatchCode::Fields,
        BatchCode::Time,
        BatchCode::Number,
        BatchCode::Text,
        BatchCode::Tags,
        BatchCode::TooLong,
    ];
    let is_told = tell(&mut text, &codes).is_ok();
    assert!(rt; is_told);
    assert_eq!(rt; text.as_str(), "F1.F2.V1.V2.V3.V4.V5.V6.V7.V8.");
}

#[test]
fn a_kept_text_is_refused_by_a_code(rt: HostRuntime) {
    let codes = [
        KeptCode::Head,
        KeptCode::Cut,
        KeptCode::Batch,
        KeptCode::Order,
        KeptCode::Extra,
    ];
    let fault = KeptTextFault {
        code: KeptCode::Cut,
        line: 1_201,
    };
    let refused = KeptFault::Refused {
        code: KeptCode::Batch,
        line: 4_294_967_296,
    };
    let mut text = String::new(rt.alloc());
    let is_told = tell(&mut text, &codes).is_ok()
        && tell(&mut text, &[fault]).is_ok()
        && tell(&mut text, &[refused, KeptFault::OutOfMemory]).is_ok();
    assert!(rt; is_told);
    assert_eq!(rt;
        text.as_str(),
        "H1.H2.H3.H4.H5.H2 line 1201.H3 line 4294967296.out of memory."
    );
}

#[test]
fn an_event_is_refused_by_a_code(rt: HostRuntime) {
    let fault = BatchFault {
        code: BatchCode::Count,
        line: 1_002,
    };
    let kept = KeptTextFault {
        code: KeptCode::Order,
        line: 65_537,
    };
    let refusals = [
        Refusal::BadBatch(fault),
        Refusal::WrongSeq { wanted: 2 },
        Refusal::BadTarget,
        Refusal::Unpriced,
        Refusal::NoPacket,
        Refusal::NoNode,
        Refusal::NotClosed { learned: 3 },
        Refusal::Missing {
            agent: 64,
            seq: 1_000_000,
        },
        Refusal::AllClosed,
        Refusal::NoBallot,
        Refusal::WorldFull,
        Refusal::NoAgent,
        Refusal::Observer,
        Refusal::BadKept(kept),
        Refusal::NotKept,
    ];
    let mut text = String::new(rt.alloc());
    let is_told = tell(&mut text, &refusals).is_ok();
    assert!(rt; is_told);
    assert_eq!(rt;
        text.as_str(),
        "G1 V2 line 1002.G2 wanted 2.G3.G4.G5.G6.G7 learned 3.G8 agent 64 seq 1000000.G9.G10.G11.G12.G13.G14 H4 line 65537.G15."
    );
}

#[test]
fn rows_and_files_are_told_why_they_are_not_there(rt: HostRuntime) {
    let of_rows = [
        RowFault::Missing { agent: 1, seq: 2 },
        RowFault::Broken(BrokenRule::BadTarget),
        RowFault::Broken(BrokenRule::Unpriced),
        RowFault::OutOfMemory,
    ];
    let mut text = String::new(rt.alloc());
    let is_told = tell(&mut text, &of_rows).is_ok();
    assert!(rt; is_told);
    assert_eq!(rt;
        text.as_str(),
        "missing agent 1 seq 2.bad target.unpriced.out of memory."
    );
    text.clear();
    let is_told = tell(&mut text, &[CsvFault::Write, CsvFault::OutOfMemory]).is_ok()
        && tell(&mut text, &[ReadFault::Failed, ReadFault::OutOfMemory]).is_ok()
        && tell(&mut text, &[Failed]).is_ok();
    assert!(rt; is_told);
    assert_eq!(rt;
        text.as_str(),
        "write failed.out of memory.read failed.out of memory.write failed."
    );
}

#[test]
fn a_period_is_told_why_it_has_no_file(rt: HostRuntime) {
    let of_file = [
        FileFault::NoFile,
        FileFault::Torn,
        FileFault::TooLong,
        FileFault::Read,
        FileFault::Write,
        FileFault::OutOfMemory,
    ];
    let mut text = String::new(rt.alloc());
    let is_told = tell(&mut text, &of_file).is_ok();
    assert!(rt; is_told);
    assert_eq!(rt;
        text.as_str(),
        "no file.torn file.refused L8 line 1.read failed.write failed.out of memory."
    );
}

#[test]
fn a_run_is_told_why_it_ends(rt: HostRuntime) {
    let section = ScheduleFault::Refused {
        code: ScheduleCode::Sheet,
        line: 1,
    };
    let of_play = [
        PlayFault::Read,
        PlayFault::Schedule(section),
        PlayFault::Write,
        PlayFault::OutOfMemory,
        PlayFault::Refused(Refusal::NoNode),
    ];
    let of_threads = [
        ThreadsFault::OutOfMemory,
        ThreadsFault::Mismatch,
        ThreadsFault::Write,
        ThreadsFault::Refused,
    ];
    let mut text = String::new(rt.alloc());
    let is_told = tell(&mut text, &of_play).is_ok()
        && tell(&mut text, &of_threads).is_ok()
        && tell(&mut text, &[LineFault::Line, LineFault::OutOfMemory]).is_ok()
        && tell(&mut text, &[ScheduleFault::OutOfMemory]).is_ok();
    assert!(rt; is_told);
    assert_eq!(rt;
        text.as_str(),
        "read failed.refused L4 line 1.write failed.out of memory.refused G6.out of memory.mismatch.write failed.refused.bad command line.out of memory.out of memory."
    );
}
