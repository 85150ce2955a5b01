//! A receipt with its file.

ghost use Rattle.std.specs.Prelude.{◌≡◌, ◌↔◌, ℕ, ◌≤◌, None, Some, false, IfOk, IsTrue, MatchOption};
ghost use Rattle.metering_model.specs.Transcript.{file_of};
ghost use Rattle.group_events.specs.Replies.{reply_of};
ghost use Rattle.node_book.specs.Books.{file_in};
ghost use Rattle.node_book.specs.Kept.{bytes_in, told_of};
ghost use Rattle.node_book.specs.Agreement.{is_export_of};

use crate::Receipt;
use counted_io::Counted;
use export_file::ExportFile;
use group_events::{Reply, Snapshot};
use std::alloc::{AllocError, Global};
use std::marker::Model;
use std::thread::Threads;

/// A receipt, and the file where its reply is an export: the file of that snapshot. Any other reply has none.
#[derive(Drop)]
pub struct Done {
    receipt: Receipt,
    file: Option<Vec<u8>>,
}

impl Model for Done {
    ghost use Rattle.std.specs.Prelude.{◌≡◌};
    ghost use Rattle.group_events.specs.Replies.{reply_of};
    ghost use Rattle.node_book.specs.Books as model;
    ghost use Rattle.node_book.specs.Books.{file_in};
    ghost use Rattle.node_book.specs.Kept.{bytes_in, told_of};

    ghost Value = { model.Told };

    ghost view = { λ d. told_of d.receipt };

    ghost invariant = { λ d. bytes_in d.file ≡ file_in (reply_of d.receipt.reply) };
}

/// The file of a snapshot, in memory, that of many rows made in several threads.
fn rendered(
    rt: &(impl Threads + Sync),
    alloc: Global,
    snapshot: &Snapshot,
) -> Result<Vec<u8>, AllocError>
    ensures { IfOk result (λ text. text.items ≡ file_of snapshot.now) }
{
    let mut sink = Counted::new(Vec::new(alloc));
    // What is written to a Vec fails for want of memory alone.
    match snapshot.write_csv_split(rt, alloc, &mut sink) {
        Ok(()) => Ok(sink.into_inner()),
        Err(_) => Err(AllocError),
    }
}

/// The file of a snapshot, in memory, made in this thread.
fn rendered_here(alloc: Global, snapshot: &Snapshot) -> Result<Vec<u8>, AllocError>
    ensures { IfOk result (λ text. text.items ≡ file_of snapshot.now) }
{
    let mut text = Vec::new(alloc);
    snapshot.put_csv(alloc, &mut text)?;
    Ok(text)
}

/// The file of a reply, where it is an export.
fn rendered_if_exported(
    rt: &(impl Threads + Sync),
    alloc: Global,
    reply: &Reply,
) -> Result<Option<Vec<u8>>, AllocError>
    ensures { IfOk result (λ file. bytes_in file ≡ file_in (reply_of reply.now)) }
{
    match reply {
        Reply::Exported(snapshot) => match rendered(rt, alloc, snapshot) {
            Ok(text) => Ok(Some(text)),
            Err(_) => Err(AllocError),
        },
        _ => Ok(None),
    }
}

/// The same, made in this thread.
fn rendered_here_if_exported(alloc: Global, reply: &Reply) -> Result<Option<Vec<u8>>, AllocError>
    ensures { IfOk result (λ file. bytes_in file ≡ file_in (reply_of reply.now)) }
{
    match reply {
        Reply::Exported(snapshot) => match rendered_here(alloc, snapshot) {
            Ok(text) => Ok(Some(text)),
            Err(_) => Err(AllocError),
        },
        _ => Ok(None),
    }
}

impl Done {
    /// Renders the file, where the reply is an export. An error is an allocation failure.
    pub fn new(
        rt: &(impl Threads + Sync),
        alloc: Global,
        receipt: Receipt,
    ) -> Result<Done, AllocError>
        ensures { IfOk result (λ done. done ≡ told_of receipt) }
    {
        let file = rendered_if_exported(rt, alloc, &receipt.reply)?;
        Ok(Done { receipt, file })
    }

    /// The same without further threads. An error is an allocation failure.
    pub fn in_one_thread(alloc: Global, receipt: Receipt) -> Result<Done, AllocError>
        ensures { IfOk result (λ done. done ≡ told_of receipt) }
    {
        let file = rendered_here_if_exported(alloc, &receipt.reply)?;
        Ok(Done { receipt, file })
    }

    /// The receipt.
    pub fn receipt(&self) -> &Receipt
        ensures { told_of result.now ≡ self.now }
    {
        &self.receipt
    }

    /// The file, where the reply is an export: that of its snapshot. None at any other reply.
    pub fn file(&self) -> Option<&[u8]>
        ensures { MatchOption result (file_in self.now.reply ≡ None)
            (λ bytes. file_in self.now.reply ≡ Some bytes.now) }
    {
        match &self.file {
            Some(bytes) => Some(bytes.as_slice()),
            None => None,
        }
    }

    /// Whether it is of the entry at that place, with that reply. Nothing is allocated.
    pub(crate) fn is_of(&self, index: usize, reply: &Reply) -> bool
        ensures { IsTrue result ↔
            (self.now ≡ record { index = index; reply = reply_of reply.now }) }
    {
        self.receipt.index == index && self.receipt.reply.same(reply)
    }

    /// Whether its reply is the export of that period.
    pub fn is_export_of(&self, period: u16) -> bool
        ensures { result ≡ is_export_of period self.now.reply }
    {
        match &self.receipt.reply {
            Reply::Exported(snapshot) => snapshot.period().number() == period,
            _ => false,
        }
    }

    /// Whether its reply is no export of a period from that one on.
    pub(crate) fn is_within(&self, periods: u16) -> bool
        ensures { IsTrue result ↔
            ((period : ℕ) → periods ≤ period → is_export_of period self.now.reply ≡ false) }
    {
        match &self.receipt.reply {
            Reply::Exported(snapshot) => snapshot.period().number() < periods,
            _ => true,
        }
    }
}
