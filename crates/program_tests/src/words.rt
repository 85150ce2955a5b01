//! The words that the program is given.

use batch_store::Period;
use command_line::{Asked, Command, Kind, LineFault, Request, Size, command};
use std::alloc::{AllocError, Global};
use std::test::Fail;
use utc_calendar::Day;

fn words_of(alloc: Global, line: &str) -> Result<Vec<String>, AllocError> {
    let mut words = Vec::new(alloc);
    for word in line.split_whitespace() {
        words.push(word.to_string(alloc)?)?;
    }
    Ok(words)
}

/// The first of the lines whose words ask for something else.
fn first_other<'a>(
    alloc: Global,
    lines: &'a str,
    wanted: Result<Command, LineFault>,
) -> Result<Option<&'a str>, AllocError> {
    for line in lines.lines() {
        let words = words_of(alloc, line)?;
        if command(alloc, &words) != wanted {
            return Ok(Some(line));
        }
    }
    Ok(None)
}

#[test]
fn a_period_is_asked_for(rt: HostRuntime) -> Result<(), Fail> {
    for (lines, number) in [
        ("rate --period 0\nrate --period=-0", 0),
        ("rate --period +7\nrate --period 007", 7),
        ("rate --period=1199", 1_199),
    ] {
        let period = Period::new(number).ok_or("no period")?;
        let other = first_other(rt.alloc(), lines, Ok(Command::Rate { period }))?;
        assert_eq!(rt; other, None);
    }
    for (lines, number) in [
        ("file --period 0\nfile --period=-0", 0),
        ("file --period +7\nfile --period 007", 7),
        ("file --period=1199", 1_199),
    ] {
        let period = Period::new(number).ok_or("no period")?;
        let other = first_other(rt.alloc(), lines, Ok(Command::File { period }))?;
        assert_eq!(rt; other, None);
    }
    Ok(())
}

/// Whether the words ask for a group in threads of so many nodes, agents, batches and periods.
fn asks_for_group(alloc: Global, line: &str, wanted: [u8; 4]) -> Result<bool, AllocError> {
    let [nodes, agents, batches, periods] = wanted;
    let size = Size {
        nodes,
        agents,
        batches,
        periods,
    };
    Ok(first_other(alloc, line, Ok(Command::Threads { size }))?.is_none())
}

#[test]
fn a_group_in_threads_is_asked_for(rt: HostRuntime) -> Result<(), Fail> {
    let least = "threads --nodes 1 --agents 1 --batches 1 --periods 1";
    assert!(rt; asks_for_group(rt.alloc(), least, [1, 1, 1, 1])?);
    let greatest = "threads --periods 12 --batches=99 --agents +9 --nodes 09";
    assert!(rt; asks_for_group(rt.alloc(), greatest, [9, 9, 99, 12])?);
    let other = "threads --nodes 2 --agents 3 --batches 4 --periods 5";
    assert!(rt; asks_for_group(rt.alloc(), other, [2, 3, 4, 5])?);
    Ok(())
}

/// The words that ask for nothing, a line each.
const NOTHING: &str = "rate --period -1
rate --period 65536
rate --period 0 --period 0
rate --version
file
file --period 1200
file --period 0 --period 0
file rate --period 0
check --period 0
check play
check --kind
check --kind Rate
check --kind file
check --kind rate --kind rate
rate --period 0 file
rate 0 --help
rate --period 1200 --help
--versions
help
sheets --before 2025-02-29
sheets --before 2025-4-1
sheets 2025-04-01
sheets --before 2025-04-01 --before 2025-04-01
sheets --all=true
sheets --all --all
schedule --nodes 0
schedule --nodes 100
schedule --observers 97
schedule --through 1200
schedule --period 0
focusd rate --period 0
threads --nodes 0 --agents 1 --batches 1 --periods 1
threads --nodes 1 --agents 10 --batches 1 --periods 1
threads --nodes 1 --agents 1 --batches 100 --periods 1
threads --nodes 257 --agents 1 --batches 1 --periods 1
threads
";

#[test]
fn sheets_and_a_schedule_are_asked_for(rt: HostRuntime) -> Result<(), Fail> {
    let day = Some(Day::read(b"2024-02-29").ok_or("no day")?);
    for (lines, before, all) in [
        ("sheets", None, false),
        (
            "sheets --before 2024-02-29\nsheets --before=2024-02-29",
            day,
            false,
        ),
        ("sheets --all", None, true),
        (
            "sheets --all --before 2024-02-29\nsheets --before=2024-02-29 --all",
            day,
            true,
        ),
    ] {
        let asked = Asked { before, all };
        let other = first_other(rt.alloc(), lines, Ok(Command::Sheets { asked }))?;
        assert_eq!(rt; other, None);
    }
    for (lines, nodes, observers, through) in [
        ("schedule\nschedule --nodes 3 --observers 0", 3, 0, None),
        (
            "schedule --observers 98 --nodes 1 --through 0",
            1,
            98,
            Some(0),
        ),
        ("schedule --nodes=99 --through=1199", 99, 0, Some(1_199)),
    ] {
        let request = Request {
            nodes,
            observers,
            through,
        };
        let other = first_other(rt.alloc(), lines, Ok(Command::Schedule { request }))?;
        assert_eq!(rt; other, None);
    }
    Ok(())
}

#[test]
fn help_and_the_version_are_asked_for(rt: HostRuntime) -> Result<(), Fail> {
    let requests = "--help\n-h\nrate --help\nrate --period 0 -h\nthreads --nodes 1 --help file";
    let other = first_other(rt.alloc(), requests, Ok(Command::Help))?;
    assert_eq!(rt; other, None);
    let other = first_other(rt.alloc(), "--version\n-V", Ok(Command::Version))?;
    assert_eq!(rt; other, None);
    Ok(())
}

#[test]
fn check_takes_a_kind_and_others_ask_for_nothing(rt: HostRuntime) -> Result<(), Fail> {
    for (lines, kind) in [
        ("check", None),
        ("check --kind rate\ncheck --kind=rate", Some(Kind::Rate)),
        ("check --kind play", Some(Kind::Play)),
        ("check --kind schedule", Some(Kind::Schedule)),
        ("check --kind sheets", Some(Kind::Sheets)),
    ] {
        let other = first_other(rt.alloc(), lines, Ok(Command::Check(kind)))?;
        assert_eq!(rt; other, None);
    }
    let other = first_other(rt.alloc(), NOTHING, Err(LineFault::Line))?;
    assert_eq!(rt; other, None);
    Ok(())
}
