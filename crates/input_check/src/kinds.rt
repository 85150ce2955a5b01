//! What an input is checked as.

ghost use Rattle.std.specs.Prelude.{◌≡◌};
ghost use Rattle.input_check.specs.Inputs.{kind_in};
ghost use Rattle.input_check.specs.Inner.Kinds.{kind_by};

use input_sections::behind_word;

/// What an input is checked as.
#[derive(Clone, Copy)]
pub enum InputKind {
    /// What is to be rated: a batch, with a sheet and an issuer above it or without.
    Rate,
    /// A schedule, which is to be played.
    Play,
}

/// What the first line says that a text is: a text that begins with `SCHEDULE` is a schedule, any other is to be rated.
fn kind_of(text: &[u8]) -> InputKind
    ensures { result ≡ kind_in text.now }
{
    match behind_word(text, b"SCHEDULE") {
        Some(_) => InputKind::Play,
        None => InputKind::Rate,
    }
}

/// What a text is checked as: as the kind that is given, or else as its first line says.
pub(crate) fn kind_by(given: Option<InputKind>, text: &[u8]) -> InputKind
    ensures { result ≡ kind_by given text.now }
{
    match given {
        Some(kind) => kind,
        None => kind_of(text),
    }
}
