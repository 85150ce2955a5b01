//! All of an input, which a schedule and a batch have alike.

ghost use Rattle.std.specs.Prelude.{◌+◌, ◌≡◌, ◌<◌, Err, length, IfOk, IfSome, OnOk};
ghost use Rattle.std.specs.Io.KnownBytes.{IsAtEnd};
ghost use Rattle.metering_model.specs.Limits.{most_input_bytes};
ghost use Rattle.counted_io.specs.Counts.{count_after};
ghost use Rattle.counted_io.specs.Reading.{ConsumesAtMost};
ghost use Rattle.input_sections.specs.declared.faults.ScheduleFault.{ScheduleFault};
ghost use Rattle.program_input.specs.Inner.Inputs.{whole_input};
ghost use Rattle.program_input.specs.Faults.{EndsInReading, tells_of_reader};

use crate::PlayFault;
use counted_io::{Input, ReadFault, Source, read_to_limit};
use input_sections::{ScheduleCode, ScheduleFault};
use std::alloc::Global;

/// The most bytes that an input may have.
const MOST_BYTES: u32 = 16_777_216;

/// What comes of reading up to the limit: an allocation failure and a failed call are told just where they were met.
fn answer_of(read: Result<Input, ReadFault>) -> Result<Vec<u8>, PlayFault>
    ensures { result ≡ whole_input read }
{
    match read {
        Ok(Input::Whole(bytes)) => Ok(bytes),
        Ok(Input::TooLong) => Err(PlayFault::Schedule(ScheduleFault::Refused {
            code: ScheduleCode::TooLong,
            line: 1,
        })),
        Err(fault) => Err(PlayFault::from(fault)),
    }
}

/// All bytes of the input. Schedule is L8 at line 1, of one of more than 16,777,216 bytes; Read is a failed call of the
/// reader; OutOfMemory an allocation failure. No other fault is returned, and at most 16,777,217 bytes are taken.
pub fn read_input<R: Source>(alloc: Global, reader: &mut R) -> Result<Vec<u8>, PlayFault>
    ensures whole { IfOk result
        (λ bytes. IfSome (R.remaining reader.old) (λ input. bytes.items ≡ input)) }
    ensures end { OnOk result (IsAtEnd (R.remaining reader.new)) }
    ensures section { (fault : ScheduleFault) → result ≡ Err (PlayFault.Schedule fault)
        → (fault ≡ ScheduleFault.Refused ScheduleCode.TooLong 1)
        × IfSome (R.remaining reader.old) (λ input. most_input_bytes < length input) }
    ensures taken { ConsumesAtMost (most_input_bytes + 1) (R.remaining reader.old)
        (R.remaining reader.new) }
    ensures count { R.failed_calls reader.new
        ≡ count_after (tells_of_reader result) (R.failed_calls reader.old) }
    ensures no_other { EndsInReading result }
{
    answer_of(read_to_limit(alloc, reader, MOST_BYTES))
}
