//! What a reader of CSV would cut as it stands: odd fields, and odd strings of tags. `csv` writes them.

ghost use Rattle.std.specs.Prelude.{◌≡◌, [], ◌∷◌, ◌++◌, IfOk, OnOk};
ghost use Rattle.csv.specs.Writing.{default_writer, writer_setup, writer_under};
ghost use Rattle.metering_model.specs.File.{quoted};
ghost use Rattle.focus_csv.specs.Inner.OddFields.{IsReady};
ghost use Rattle.focus_csv.specs.Inner.Strings.{doubled};

use csv::Writer;
use std::alloc::{AllocError, Global};
use std::marker::Model;

/// So many bytes of odd fields are kept at most, and one field more.
const ENOUGH: usize = 65_536;

/// A writer of CSV over a text of its own. Odd fields are written to it, one after the other, and copied from there.
#[derive(Drop)]
pub(crate) struct OddFields {
    alloc: Global,
    /// There is none before the first odd field, nor after one that could not be written. One whose text is long is let
    /// go.
    writer: Option<Box<Writer<Vec<u8>>>>,
}

impl Model for OddFields {
    ghost use Rattle.std.specs.Prelude.{⊤, IfSome};
    ghost use Rattle.focus_csv.specs.Inner.OddFields.{IsReady};

    ghost Value = { ⊤ };

    ghost view = { λ _. tt };

    ghost invariant = { λ o. IfSome o.writer (λ w. IsReady w.value) };
}

/// A writer that has written an empty field, so that each that follows has a comma before it.
fn begun(alloc: Global) -> Result<Writer<Vec<u8>>, AllocError>
    ensures { IfOk result IsReady }
{
    let mut writer = Writer::from_writer(Vec::new(alloc));
    write_next(&mut writer, &[])?;
    Ok(writer)
}

/// The same in a box. Out of line, so that the writer's 8 KiB are no part of the frame of who writes a field, where
/// they would be cleared each time.
#[inline(never)]
fn boxed(alloc: Global) -> Result<Box<Writer<Vec<u8>>>, AllocError>
    ensures { IfOk result (λ w. IsReady w.value) }
{
    Ok(Box::new(alloc, begun(alloc)?)?)
}

/// Writes a field, and has it in the writer's own text. Behind another one it has a comma before it.
fn write_next(writer: &mut Writer<Vec<u8>>, field: &[u8]) -> Result<(), AllocError>
    requires { writer_setup writer.old ≡ default_writer }
    ensures ready { OnOk result (IsReady writer.new) }
    ensures written { OnOk result (IsReady writer.old → (writer_under writer.new).items
        ≡ (writer_under writer.old).items ++ 44 ∷ quoted field.now) }
{
    // What is written to a Vec fails for want of memory alone.
    let Ok(()) = writer.write_field(field) else {
        return Err(AllocError);
    };
    let Ok(()) = writer.flush() else {
        return Err(AllocError);
    };
    Ok(())
}

/// Appends a comma and a field, as the writer writes it.
fn put_by(writer: &mut Writer<Vec<u8>>, text: &mut Vec<u8>, field: &[u8]) -> Result<(), AllocError>
    requires { IsReady writer.old }
    ensures ready { OnOk result (IsReady writer.new) }
    ensures put { OnOk result (text.new.items ≡ text.old.items ++ 44 ∷ quoted field.now) }
{
    let from = writer.get_ref().len();
    write_next(writer, field)?;
    text.extend_from_slice(&writer.get_ref()[from..])?;
    Ok(())
}

/// Appends what stands between the quotation marks of a field that has to be quoted, as the writer writes it.
fn put_within_by(
    writer: &mut Writer<Vec<u8>>,
    text: &mut Vec<u8>,
    field: &[u8],
) -> Result<(), AllocError>
    requires ready { IsReady writer.old }
    requires quoted { quoted field.now ≡ 34 ∷ doubled field.now ++ 34 ∷ [] }
    ensures ready { OnOk result (IsReady writer.new) }
    ensures put { OnOk result (text.new.items ≡ text.old.items ++ doubled field.now) }
{
    // In front stand a comma and a quotation mark, and behind the field one more.
    let from = writer.get_ref().len() + 2;
    write_next(writer, field)?;
    let to = writer.get_ref().len() - 1;
    text.extend_from_slice(&writer.get_ref()[from..to])?;
    Ok(())
}

impl OddFields {
    pub(crate) fn new(alloc: Global) -> OddFields {
        OddFields {
            alloc,
            writer: None,
        }
    }

    /// What memory is taken from.
    pub(crate) fn alloc(&self) -> Global {
        self.alloc
    }

    /// Takes the writer out, or makes one where there is none or its text is long: it is ready.
    fn ready(&mut self) -> Result<Box<Writer<Vec<u8>>>, AllocError>
        ensures { IfOk result (λ w. IsReady w.value) }
    {
        match self.writer.take() {
            Some(writer) if writer.get_ref().len() < ENOUGH => Ok(writer),
            _ => boxed(self.alloc),
        }
    }

    /// Appends a comma and a field. Out of line, as the next is, so that who copies plain fields has a small frame.
    #[inline(never)]
    pub(crate) fn put_next(&mut self, text: &mut Vec<u8>, field: &[u8]) -> Result<(), AllocError>
        ensures { OnOk result (text.new.items ≡ text.old.items ++ 44 ∷ quoted field.now) }
    {
        let mut writer = self.ready()?;
        put_by(&mut writer, text, field)?;
        self.writer = Some(writer);
        Ok(())
    }

    /// Appends what stands between the quotation marks of a field that has to be quoted.
    #[inline(never)]
    pub(crate) fn put_within(&mut self, text: &mut Vec<u8>, field: &[u8]) -> Result<(), AllocError>
        requires { quoted field.now ≡ 34 ∷ doubled field.now ++ 34 ∷ [] }
        ensures { OnOk result (text.new.items ≡ text.old.items ++ doubled field.now) }
    {
        let mut writer = self.ready()?;
        put_within_by(&mut writer, text, field)?;
        self.writer = Some(writer);
        Ok(())
    }
}
