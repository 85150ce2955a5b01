//! Memory that is kept from one file to the next.

ghost use Rattle.std.specs.Prelude.{◌≡◌, Some, []};
ghost use Rattle.std.specs.Bool.{if◌then◌else◌};

use crate::pieces::LinePieces;
use std::alloc::Global;

/// For each row so many bytes are asked for at once, so that its lines seldom outgrow their room.
const ROW_BYTES: usize = 400;

/// An empty text with room for a file of about so many rows, or without where there is none: it can still grow.
pub fn text_for(alloc: Global, rows: usize) -> Vec<u8>
    ensures { result.items ≡ [] }
{
    match Vec::with_capacity(alloc, rows.saturating_mul(ROW_BYTES)) {
        Ok(text) => text,
        Err(_) => Vec::new(alloc),
    }
}

/// Memory in which the lines of a file are made: that of their pieces, and of the writer for texts that have to be quoted. It is taken from
/// one file to the next, which asks for more where a text of it is longer than those before, is the first such one, or
/// comes after 65,536 bytes of such ones, and for all of it where the file before could not be made. What was made in it is
/// never used again.
#[derive(Drop)]
pub struct LineRoom {
    /// There are none before the first file, nor after one that could not be made.
    pieces: Option<LinePieces>,
}

impl LineRoom {
    /// Without any memory; none is asked for.
    pub fn new() -> LineRoom {
        LineRoom { pieces: None }
    }

    /// Takes the pieces out, or new ones, which are empty.
    pub(crate) fn take(&mut self, alloc: Global) -> LinePieces {
        match self.pieces.take() {
            Some(pieces) => pieces,
            None => LinePieces::new(alloc),
        }
    }

    /// Keeps pieces for the next file where this one was made, and else lets them go.
    pub(crate) fn give_back(&mut self, is_made: bool, pieces: LinePieces)
        ensures { self.new.pieces ≡ (if is_made then Some pieces else self.old.pieces) }
    {
        if is_made {
            drop_pieces(self.pieces.replace(pieces));
        } else {
            drop_pieces(Some(pieces));
        }
    }

    /// The pieces, where it has any.
    pub(crate) fn into_pieces(self) -> Option<LinePieces>
        ensures { result ≡ self.pieces }
    {
        self.pieces
    }
}

/// Drops pieces beside no other value, for the prover's time alone (docs/DECISIONS.md).
pub(crate) fn drop_pieces(_pieces: Option<LinePieces>) {}
