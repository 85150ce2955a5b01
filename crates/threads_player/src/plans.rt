//! The plan of a group.

ghost use Rattle.std.specs.Prelude.{◌≡◌, ◌≢◌, Err, vec_len, IfOk};
ghost use Rattle.node_threads.specs.Words.{plan_of};
ghost use Rattle.price_sheet.specs.Samples.{sample_issuer};
ghost use Rattle.threads_player.specs.Groups.{journals_of};
ghost use Rattle.threads_player.specs.Runs.{IsSheetRefused};
ghost use Rattle.threads_player.specs.Inner.Plans.{IsPlanOf};

use crate::journals::journals;
use crate::samples::sample_sheet;
use crate::{Size, ThreadsFault};
use node_threads::Plan;
use price_sheet::{Issuer, Sheet};
use std::alloc::{AllocError, Global};
use std::sync::Arc;

/// How often a gate is asked.
const TURNS: u32 = 1_000_000;

/// A plan with that sheet.
fn plan_with(alloc: Global, size: Size, sheet: Sheet) -> Result<Plan, AllocError>
    ensures agents { IfOk result (λ plan. vec_len plan.journals ≡ size.agents) }
    ensures plan { IfOk result (λ plan. plan_of plan ≡ record {
      voters = size.nodes;
      observers = 0;
      sheet = sheet;
      issuer = sample_issuer;
      journals = journals_of size;
      periods = size.periods;
      turns = 1_000_000;
    }) }
{
    Ok(Plan {
        voters: size.nodes,
        observers: 0,
        sheet: Arc::new(alloc, sheet)?,
        issuer: Arc::new(alloc, Issuer::sample(alloc)?)?,
        journals: journals(alloc, size)?,
        periods: u16::from(size.periods),
        turns: TURNS,
    })
}

/// The plan of a group of that size, in which each node votes, with the sample sheet and the sample issuer.
pub(crate) fn plan(alloc: Global, size: Size) -> Result<Plan, ThreadsFault>
    ensures planned { IfOk result (IsPlanOf size) }
    ensures agents { IfOk result (λ plan. vec_len plan.journals ≡ size.agents) }
    ensures refused { result ≡ Err ThreadsFault.Refused → IsSheetRefused }
    ensures unwritten { result ≢ Err ThreadsFault.Write }
{
    let sheet = sample_sheet(alloc)?;
    match plan_with(alloc, size, sheet) {
        Ok(plan) => Ok(plan),
        Err(_) => Err(ThreadsFault::OutOfMemory),
    }
}
