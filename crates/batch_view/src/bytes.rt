//! The bytes of a batch.

ghost use Rattle.std.specs.Prelude.{◌≡◌};
ghost use Rattle.batch_view.specs.Inner.Bytes.{AreThere, bytes_in};

use std::sync::Arc;

/// The bytes of a batch that is kept: its own, or some of a text that it shares with whoever else keeps it.
#[derive(Drop)]
pub(crate) enum BatchBytes {
    Own(Vec<u8>),
    /// Those from one place to before another.
    Within {
        text: Arc<Vec<u8>>,
        from: usize,
        to: usize,
    },
}

impl BatchBytes {
    /// The bytes.
    #[inline(always)]
    pub(crate) fn as_slice(&self) -> &[u8]
        requires { AreThere self.now }
        ensures { result.now ≡ bytes_in self.now }
    {
        match self {
            BatchBytes::Own(bytes) => bytes,
            BatchBytes::Within { text, from, to } => &text[*from..*to],
        }
    }
}
