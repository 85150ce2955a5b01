//! A sheet and an issuer where memory runs out, and how their faults are written.

use price_sheet::{Issuer, IssuerFault, Key, Place, Sheet, SheetFault};
use std::alloc::Global;
use std::test::Fail;
use worked_texts::ISSUER;

/// Prices of two units, one of them from two days, what a plan commits to, and the name of a region. A row's keys stand
/// in any order.
const PLANS: &str = r#"base = "2025-01"
[[price]]
service = "Sample Storage"
category = "Storage"
sku = "ops"
price_id = "ops-od"
pricing_unit = "Request Pairs"
consumed_unit = "Requests"
per = 2
contracted = "1"
list = "1"
from = "2025-01-01"
description = "Object requests"
[[price]]
list = "2"
contracted = "2"
per = 2
from = "2025-02-01"
sku = "ops"
price_id = "ops-od-2"
description = "Object requests"
pricing_unit = "Request Pairs"
consumed_unit = "Requests"
category = "Storage"
service = "Sample Storage"
[[price]]
description = "Request plan"
from = "2025-01-01"
price_id = "ops-plan-1"
sku = "ops-plan"
category = "Storage"
service = "Sample Storage"
pricing_unit = "Plans"
consumed_unit = "Plans"
contracted = "40"
list = "50"
per = 1
[[commitment]]
buy = "ops-plan"
rate = "0.5"
id = "cm-1"
sku = "ops"
type = "Reserved"
category = "Usage"
[[region]]
name = "Europe 1"
id = "eu-1"
"#;

/// Whether the sheet is read, or an allocation failure is reported.
fn is_sheet(alloc: Global) -> bool {
    match Sheet::read(alloc, PLANS) {
        Ok(sheet) => {
            sheet.commitment(b"cm-1").is_some()
                && sheet.region(b"eu-1") == Some(b"Europe 1".as_slice())
        }
        Err(fault) => fault == SheetFault::OutOfMemory,
    }
}

/// Whether the sample issuer is read, or an allocation failure is reported.
fn is_sample(alloc: Global, sample: &Issuer) -> bool {
    match Issuer::read(alloc, ISSUER) {
        Ok(issuer) => issuer.same(sample),
        Err(fault) => fault == IssuerFault::OutOfMemory,
    }
}

#[test]
fn a_refused_growth_leaves_no_sheet_or_no_issuer(rt: HostRuntime) {
    assert!(rt; is_sheet(rt.alloc()));
    if let Ok(sample) = Issuer::sample(rt.alloc()) {
        assert!(rt; is_sample(rt.alloc(), &sample));
    }
}

#[test]
fn a_fault_tells_its_code_its_place_and_its_key(rt: HostRuntime) -> Result<(), Fail> {
    let alloc = rt.alloc();
    let of_sheets = [
        (SheetFault::NotToml, "S1"),
        (
            SheetFault::Missing(Place::Price(2), Key::Per),
            "S2 price 2 per",
        ),
        (SheetFault::BadValue(Place::Top, Key::Base), "S3 top base"),
        (
            SheetFault::Duplicate(Place::Commitment(3)),
            "S4 commitment 3",
        ),
        (
            SheetFault::Duplicate(Place::Region(10_000)),
            "S4 region 10000",
        ),
        (
            SheetFault::UnknownSku(Place::Commitment(1), Key::Buy),
            "S5 commitment 1 buy",
        ),
        (SheetFault::OutOfMemory, "S6"),
    ];
    for (fault, text) in &of_sheets {
        let written = format!(in alloc; "{fault}")?;
        assert_eq!(rt; written.as_str(), *text);
    }
    let of_issuers = [
        (IssuerFault::NotToml, "I1"),
        (IssuerFault::Missing(Key::Currency), "I2 currency"),
        (IssuerFault::BadValue(Key::OtherService), "I3 other_service"),
        (IssuerFault::OutOfMemory, "I4"),
    ];
    for (fault, text) in &of_issuers {
        let written = format!(in alloc; "{fault}")?;
        assert_eq!(rt; written.as_str(), *text);
    }
    Ok(())
}
