//! Batches of both formats: what files call the region of usage.

use crate::files::{Charged, put, rows_in};
use batch_store::Store;
use counted_io::Counted;
use focus_csv::write_file;
use focus_row::FocusRow;
use std::alloc::Global;
use worked_texts::{HEADER, READ, SHEET};

/// The worked usage in a region that the sheet names, in one that it does not, and in the empty one.
const IN_THREE: &[u8] =
    b"B2|1|2|3\nU|2025-01-10T00:00:00Z|2025-01-10T02:00:00Z|acc-7|vm-1|cpu|5400||env=prod|eu-1\n\
U|2025-01-10T00:00:00Z|2025-01-10T02:00:00Z|acc-7|vm-1|cpu|5400||env=prod|us-9\n\
U|2025-01-10T00:00:00Z|2025-01-10T02:00:00Z|acc-7|vm-1|cpu|5400||env=prod|\n";

/// In format B2 an amendment of the reading in B1, and in B1 one of the first reading in B2.
const AMENDS_B1: &[u8] = b"B2|1|3|1\nX|1|0|7200\n";

const AMENDS_EU: &[u8] = b"B1|1|4|1\nX|2|0|7200\n";

/// What stands after the worked sheet.
const REGION: &str = "[[region]]\nid = \"eu-1\"\nname = \"Europe 1\"\n";

/// What January is charged: the usage of format B1, and that of the three regions.
const JANUARY: &[u8] = b"0.12,A-100,Payer,USD,2025-02-01T00:00:00Z,2025-01-01T00:00:00Z,\
Usage,,Virtual CPU time,Usage-Based,2025-01-10T02:00:00Z,2025-01-10T00:00:00Z,,,,,5400,Seconds,\
0.12,0.08,0.12,Sample Cloud Ltd,0.15,0.1,Standard,1.5,Hours,Sample Cloud,Sample Cloud,,,vm-1,\
Compute,Sample Compute,cpu,cpu-od,acc-7,\"{\"\"env\"\":\"\"prod\"\"}\"\n\
0.12,A-100,Payer,USD,2025-02-01T00:00:00Z,2025-01-01T00:00:00Z,\
Usage,,Virtual CPU time,Usage-Based,2025-01-10T02:00:00Z,2025-01-10T00:00:00Z,,,,,5400,Seconds,\
0.12,0.08,0.12,Sample Cloud Ltd,0.15,0.1,Standard,1.5,Hours,Sample Cloud,Sample Cloud,eu-1,Europe 1,vm-1,\
Compute,Sample Compute,cpu,cpu-od,acc-7,\"{\"\"env\"\":\"\"prod\"\"}\"\n\
0.12,A-100,Payer,USD,2025-02-01T00:00:00Z,2025-01-01T00:00:00Z,\
Usage,,Virtual CPU time,Usage-Based,2025-01-10T02:00:00Z,2025-01-10T00:00:00Z,,,,,5400,Seconds,\
0.12,0.08,0.12,Sample Cloud Ltd,0.15,0.1,Standard,1.5,Hours,Sample Cloud,Sample Cloud,us-9,us-9,vm-1,\
Compute,Sample Compute,cpu,cpu-od,acc-7,\"{\"\"env\"\":\"\"prod\"\"}\"\n\
0.12,A-100,Payer,USD,2025-02-01T00:00:00Z,2025-01-01T00:00:00Z,\
Usage,,Virtual CPU time,Usage-Based,2025-01-10T02:00:00Z,2025-01-10T00:00:00Z,,,,,5400,Seconds,\
0.12,0.08,0.12,Sample Cloud Ltd,0.15,0.1,Standard,1.5,Hours,Sample Cloud,Sample Cloud,,,vm-1,\
Compute,Sample Compute,cpu,cpu-od,acc-7,\"{\"\"env\"\":\"\"prod\"\"}\"\n";

/// What February is charged of the amendments: of the usage of format B1 by one in B2, and the other way round.
const FEBRUARY: &[u8] = b"0.04,A-100,Payer,USD,2025-03-01T00:00:00Z,2025-02-01T00:00:00Z,\
Usage,Correction,Virtual CPU time,Usage-Based,2025-01-10T02:00:00Z,2025-01-10T00:00:00Z,,,,,1800,Seconds,\
0.04,0.08,0.04,Sample Cloud Ltd,0.05,0.1,Standard,0.5,Hours,Sample Cloud,Sample Cloud,,,vm-1,\
Compute,Sample Compute,cpu,cpu-od,acc-7,\"{\"\"env\"\":\"\"prod\"\"}\"\n\
0.04,A-100,Payer,USD,2025-03-01T00:00:00Z,2025-02-01T00:00:00Z,\
Usage,Correction,Virtual CPU time,Usage-Based,2025-01-10T02:00:00Z,2025-01-10T00:00:00Z,,,,,1800,Seconds,\
0.04,0.08,0.04,Sample Cloud Ltd,0.05,0.1,Standard,0.5,Hours,Sample Cloud,Sample Cloud,eu-1,Europe 1,vm-1,\
Compute,Sample Compute,cpu,cpu-od,acc-7,\"{\"\"env\"\":\"\"prod\"\"}\"\n";

/// A store of these batches, each of which is new.
fn store_of(alloc: Global, batches: &[&[u8]]) -> Option<Store> {
    let mut store = Store::new(alloc, 1).ok()?;
    for bytes in batches {
        match put(&mut store, alloc, bytes) {
            Ok(true) => {}
            _ => return None,
        }
    }
    Some(store)
}

/// What is charged in a period, between two cuts, of usage in both formats and amendments after it, by this sheet.
fn charged_by(alloc: Global, sheet: &str, period: u16, cuts: (u32, u32)) -> Option<Charged> {
    let store = store_of(alloc, &[READ, IN_THREE, AMENDS_B1, AMENDS_EU])?;
    Charged::new(alloc, store, sheet, period, cuts)
}

/// Whether the file of the rows is these lines after the header line.
fn has_lines(alloc: Global, rows: &[FocusRow<'_>], lines: &[u8]) -> bool {
    let mut sink = Counted::new(Vec::new(alloc));
    match write_file(alloc, rows, &mut sink) {
        Ok(()) => sink.into_inner().strip_prefix(HEADER) == Some(lines),
        Err(_) => false,
    }
}

/// The same of what is charged.
fn has_file(alloc: Global, of: &Charged, lines: &[u8]) -> bool {
    match rows_in(alloc, of) {
        Ok(rows) => has_lines(alloc, &rows, lines),
        Err(_) => false,
    }
}

/// The same of what is charged by the worked sheet with a region.
fn is_charged(alloc: Global, period: u16, cuts: (u32, u32), lines: &[u8]) -> bool {
    let Ok(sheet) = format!(in alloc; "{SHEET}{REGION}") else {
        return false;
    };
    match charged_by(alloc, sheet.as_str(), period, cuts) {
        Some(of) => has_file(alloc, &of, lines),
        None => false,
    }
}

#[test]
fn files_tell_the_region_of_usage_in_the_second_format(rt: HostRuntime) {
    assert!(rt; is_charged(rt.alloc(), 0, (0, 2), JANUARY));
    assert!(rt; is_charged(rt.alloc(), 1, (2, 4), FEBRUARY));
}
