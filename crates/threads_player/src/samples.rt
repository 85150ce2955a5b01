//! What a group is billed by.

ghost use Rattle.std.specs.Prelude.{◌≡◌, ◌≢◌, Ok, Err, IfOk};
ghost use Rattle.price_sheet.specs.SheetReading.{sheet_of_text};
ghost use Rattle.threads_player.specs.Runs.{IsSheetRefused};
ghost use Rattle.threads_player.specs.SampleSheet.{sample_sheet_text};

use crate::ThreadsFault;
use price_sheet::{Sheet, SheetFault};
use std::alloc::Global;

/// The sheet that is built in.
fn sheet_text() -> &'static str
    ensures { result.now ≡ sample_sheet_text }
{
    r#"base = "2025-01"
[[price]]
sku = "cpu"
price_id = "cpu-od"
from = "2025-01-01"
description = "Virtual CPU time"
service = "Sample Compute"
category = "Compute"
consumed_unit = "Seconds"
pricing_unit = "Hours"
per = 3600
list = "0.1"
contracted = "0.08"
[[price]]
sku = "ops"
price_id = "ops-od"
from = "2025-01-01"
description = "Object requests"
service = "Sample Storage"
category = "Storage"
consumed_unit = "Requests"
pricing_unit = "Request Pairs"
per = 2
list = "1"
contracted = "1"
[[price]]
sku = "cpu-plan"
price_id = "cpu-plan-1"
from = "2025-01-01"
description = "Virtual CPU plan"
service = "Sample Compute"
category = "Compute"
consumed_unit = "Plans"
pricing_unit = "Plans"
per = 1
list = "50"
contracted = "40"
[[commitment]]
id = "cm-1"
sku = "cpu"
buy = "cpu-plan"
category = "Usage"
type = "Reserved"
rate = "0.05"
"#
}

/// The sheet that is built in, read.
pub(crate) fn sample_sheet(alloc: Global) -> Result<Sheet, ThreadsFault>
    ensures taken { IfOk result (λ sheet. sheet_of_text sample_sheet_text ≡ Ok sheet) }
    ensures refused { result ≡ Err ThreadsFault.Refused → IsSheetRefused }
    ensures unwritten { result ≢ Err ThreadsFault.Write }
{
    match Sheet::read(alloc, sheet_text()) {
        Ok(sheet) => Ok(sheet),
        Err(SheetFault::OutOfMemory) => Err(ThreadsFault::OutOfMemory),
        Err(_) => Err(ThreadsFault::Refused),
    }
}
