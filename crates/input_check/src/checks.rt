//! `focusd check`: what is wrong with an input.

ghost use Rattle.std.specs.Prelude.{◌≡◌, ◌++◌, OnOk};
ghost use Rattle.std.specs.Arc.{arc_value};
ghost use Rattle.input_check.specs.Checks.{said_of_input_as};
ghost use Rattle.input_check.specs.Inputs.{Checks, IsSaidAs, IsSaidOf};
ghost use Rattle.input_check.specs.Warnings.{warned_of_input_as};

use crate::events::check_schedule;
use crate::kinds::{InputKind, kind_by};
use crate::ratings::check_rating;
use counted_io::{Sink, Source};
use fault_lines::{Check, check_input};
use schedule_player::PlayFault;
use std::alloc::{AllocError, Global};
use std::sync::Arc;

/// Appends what is wrong with an input of a kind, a line for each thing, or nothing, and in another place what is warned of.
fn put_faults(
    alloc: Global,
    kind: InputKind,
    text: &Arc<Vec<u8>>,
    told: &mut Vec<u8>,
    warned: &mut Vec<u8>,
) -> Result<(), AllocError>
    ensures said { OnOk result
        (told.new.items ≡ told.old.items ++ said_of_input_as kind (arc_value text.now).items) }
    ensures warned { OnOk result (warned.new.items
        ≡ warned.old.items ++ warned_of_input_as kind (arc_value text.now).items) }
{
    match kind {
        InputKind::Play => check_schedule(alloc, text, text, told, warned),
        InputKind::Rate => check_rating(alloc, text, told, warned),
    }
}

/// What an input is checked as: as the kind that is given, or else as its first line says.
#[derive(Clone, Copy)]
struct Kinded {
    kind: Option<InputKind>,
}

impl Check for Kinded {
    ghost use Rattle.input_check.specs.Inner.Kinds.{said_by, warned_by};
    ghost use Rattle.input_check.specs.Inner.LongInputs.{long_said_by};
    ghost use Rattle.input_check.specs.Inner.SaidLines.{lines_said_by};

    ghost said_of = { λ c. said_by c.kind };

    ghost warned_of = { λ c. warned_by c.kind };

    ghost lines = { λ c. lines_said_by c.kind };

    ghost long = { λ c. long_said_by c.kind };

    fn put(
        &self,
        alloc: Global,
        input: &Arc<Vec<u8>>,
        told: &mut Vec<u8>,
        warnings: &mut Vec<u8>,
    ) -> Result<(), AllocError> {
        put_faults(alloc, kind_by(self.kind, input), input, told, warnings)
    }
}

/// Reads what `play` or `rate` would read, as the kind says, and writes what is wrong with it, a line for each thing, and then
/// what is warned of. It answers how many lines tell what is wrong.
///
/// At most 16,777,217 bytes are read. After `Write` a prefix of the lines was written, and after any other fault nothing.
/// Neither `Schedule` nor `Refused` is ever answered.
pub fn check_text_as<R: Source, W: Sink>(
    alloc: Global,
    kind: InputKind,
    reader: &mut R,
    writer: &mut W,
) -> Result<u64, PlayFault>
    ensures { Checks (IsSaidAs kind) result writer.old writer.new
        (R.remaining reader.old) (R.remaining reader.new)
        (W.contents writer.old) (W.contents writer.new)
        (R.failed_calls reader.old) (R.failed_calls reader.new)
        (W.failed_calls writer.old) (W.failed_calls writer.new) }
{
    check_input(alloc, &Kinded { kind: Some(kind) }, reader, writer)
}

/// The same of the kind that the first line says: a text that begins with `SCHEDULE` is taken for a schedule, any other for what
/// is to be rated.
#[tactic(auto, unfolding(crate::specs::Inputs::said_of_input, crate::specs::Inputs::warned_of_input))]
pub fn check_text<R: Source, W: Sink>(
    alloc: Global,
    reader: &mut R,
    writer: &mut W,
) -> Result<u64, PlayFault>
    ensures { Checks IsSaidOf result writer.old writer.new
        (R.remaining reader.old) (R.remaining reader.new)
        (W.contents writer.old) (W.contents writer.new)
        (R.failed_calls reader.old) (R.failed_calls reader.new)
        (W.failed_calls writer.old) (W.failed_calls writer.new) }
{
    check_input(alloc, &Kinded { kind: None }, reader, writer)
}
