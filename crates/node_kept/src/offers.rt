//! What is offered for a node to be revived from.

ghost use Rattle.std.specs.Prelude.{◌≡◌, ◌↔◌, true, IfErr, IfOk, IsTrue};
ghost use Rattle.metering_model.specs.KeptText.{kept_offer_of};
ghost use Rattle.node_kept.specs.Offers.{BeginsWithHead, is_read, kept_offer};

use crate::faults::KeptFault;
use crate::kept::Kept;
use metering_model::KeptCode;
use std::alloc::{AllocError, Global};
use std::sync::Arc;

/// What comes of a text that is offered as what a node keeps.
#[derive(Drop)]
pub enum KeptOffer {
    /// It is the text of this.
    Good(Arc<Kept>),
    /// It is of nothing that a node keeps: its first fault, at that line, counted from 1.
    Bad { code: KeptCode, line: u64 },
}

impl KeptOffer {
    /// The offer of a text: what it is read as, or its first fault. An error is an allocation failure, and comes only
    /// of a text that begins with a head line; the text is lost.
    pub fn read(alloc: Global, text: Vec<u8>) -> Result<KeptOffer, AllocError>
        ensures read { IfOk result (λ offer. kept_offer offer ≡ kept_offer_of text.items) }
        ensures want { IfErr result (λ _. BeginsWithHead text.items) }
    {
        match Kept::read(alloc, &text) {
            Ok(kept) => match Arc::new(alloc, kept) {
                Ok(kept) => Ok(KeptOffer::Good(kept)),
                Err(_) => Err(AllocError),
            },
            Err(KeptFault::Refused { code, line }) => Ok(KeptOffer::Bad { code, line }),
            Err(KeptFault::OutOfMemory) => Err(AllocError),
        }
    }

    /// An equal offer, which shares what was read. An error is an allocation failure, and comes only of an offer of
    /// something read.
    pub fn copy(&self) -> Result<KeptOffer, AllocError>
        ensures copy { IfOk result (λ copy. kept_offer copy ≡ kept_offer self.now) }
        ensures want { IfErr result (λ _. is_read (kept_offer self.now) ≡ true) }
    {
        match self {
            KeptOffer::Good(kept) => match Arc::try_clone(kept) {
                Ok(kept) => Ok(KeptOffer::Good(kept)),
                Err(_) => Err(AllocError),
            },
            KeptOffer::Bad { code, line } => Ok(KeptOffer::Bad {
                code: *code,
                line: *line,
            }),
        }
    }

    /// Whether both are of the same kept state, or have the same fault.
    pub fn same(&self, other: &KeptOffer) -> bool
        ensures { IsTrue result ↔ (kept_offer self.now ≡ kept_offer other.now) }
    {
        match (self, other) {
            (KeptOffer::Good(one), KeptOffer::Good(two)) => one.same(two),
            (
                KeptOffer::Bad { code, line },
                KeptOffer::Bad {
                    code: code_two,
                    line: line_two,
                },
            ) => *code == *code_two && *line == *line_two,
            _ => false,
        }
    }
}
