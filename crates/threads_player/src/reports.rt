//! What is told of a run.

ghost use Rattle.std.specs.Prelude.{◌≡◌, ◌++◌, List, codes, length, map, IfOk, MatchOption, OnOk};
ghost use Rattle.std.specs.List.{flat_map, range_with_len};
ghost use Rattle.metering_model.specs.Transcript.{line, with_number};
ghost use Rattle.node_threads.specs.Words.{Told, file_in, log_of};
ghost use Rattle.threads_player.specs.Reports.{files_of, lines_in, lines_of, period_text, report_text, told_in};

use byte_text::{line_count, put_numbered};
use node_threads::{Done, Log, Run};
use std::alloc::{AllocError, Global};

/// How many lines the file of a receipt has, and 0 where there is none.
fn lines_in(done: &Done) -> usize
    ensures { result ≡ lines_in (file_in done.now.reply) }
{
    match done.file() {
        Some(file) => line_count(file),
        None => 0,
    }
}

/// How many lines the first file of a period has in a log, if there is one: whatever comes behind, it is the first.
fn first_lines(done: &[Done], period: u16) -> Option<usize>
    ensures { MatchOption result
        ((rest : List Told) → lines_of period (done.now ++ rest) ≡ lines_of period rest)
        (λ lines. (rest : List Told) → lines_of period (done.now ++ rest) ≡ lines) }
{
    for one in done {
        if one.is_export_of(period) {
            return Some(lines_in(one));
        }
    }
    None
}

/// How many lines the first file of a period has in all logs, and 0 where there is none.
fn lines_of(logs: &[Log], period: u16) -> usize
    ensures { result ≡ lines_of period (told_in (map log_of logs.now)) }
{
    for log in logs {
        if let Some(lines) = first_lines(&log.done, period) {
            return lines;
        }
    }
    0
}

/// How many files of a period a log has.
fn files_in(done: &[Done], period: u16) -> usize
    ensures { result ≡ files_of period done.now }
{
    done.iter().filter(|one| one.is_export_of(period)).count()
}

/// How many files of a period all logs have.
fn files_of(logs: &[Log], period: u16) -> u128
    ensures { result ≡ files_of period (told_in (map log_of logs.now)) }
{
    let mut files = 0;
    for log in logs {
        files += files_in(&log.done, period) as u128;
    }
    files
}

/// How many receipts all logs have.
fn receipts_in(logs: &[Log]) -> u128
    ensures { result ≡ length (told_in (map log_of logs.now)) }
{
    let mut receipts = 0;
    for log in logs {
        receipts += log.done.len() as u128;
    }
    receipts
}

/// Appends what is told of a period.
fn put_period(text: &mut Vec<u8>, logs: &[Log], period: u16) -> Result<(), AllocError>
    ensures { OnOk result (text.new.items
        ≡ text.old.items ++ period_text (told_in (map log_of logs.now)) period) }
{
    put_numbered(text, b"period ", u128::from(period))?;
    put_numbered(text, b" lines ", lines_of(logs, period) as u128)?;
    put_numbered(text, b" files ", files_of(logs, period))?;
    text.push(b'\n')?;
    Ok(())
}

/// Appends what is told of each period below that one.
fn put_periods(text: &mut Vec<u8>, logs: &[Log], periods: u16) -> Result<(), AllocError>
    ensures { OnOk result (text.new.items
        ≡ text.old.items ++ flat_map (period_text (told_in (map log_of logs.now)))
        (range_with_len 0 periods)) }
{
    for period in 0..periods {
        put_period(text, logs, period)?;
    }
    Ok(())
}

/// Appends how many entries and receipts there are.
fn put_totals(text: &mut Vec<u8>, entries: u128, receipts: u128) -> Result<(), AllocError>
    ensures { OnOk result (text.new.items
        ≡ text.old.items ++ line (with_number (codes "entries ") entries
        ++ with_number (codes " receipts ") receipts)) }
{
    put_numbered(text, b"entries ", entries)?;
    put_numbered(text, b" receipts ", receipts)?;
    text.push(b'\n')?;
    Ok(())
}

/// The report of a run.
pub(crate) fn report(alloc: Global, run: &Run) -> Result<Vec<u8>, AllocError>
    ensures { IfOk result (λ text. text.items ≡ report_text run.now) }
{
    let mut text = Vec::new(alloc);
    let logs = run.logs();
    put_periods(&mut text, logs, run.plan().periods)?;
    put_totals(
        &mut text,
        run.book().history().len() as u128,
        receipts_in(logs),
    )?;
    Ok(text)
}
