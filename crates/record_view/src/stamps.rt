//! The stamps of readings that follow one another.

ghost use Rattle.std.specs.Prelude.{◌≡◌, Some, IfNone, IfSome};
ghost use Rattle.std.specs.Option.{option_zip};
ghost use Rattle.metering_model.specs.Dates.{stamp_in};

use utc_calendar::Stamp;

/// Two stamps, and the texts that they were read in.
#[derive(Clone, Copy)]
struct KnownStamps<'a> {
    first: &'a [u8],
    second: &'a [u8],
    start: Stamp,
    end: Stamp,
    ghost start_is: { stamp_in first.now ≡ Some start },
    ghost end_is: { stamp_in second.now ≡ Some end },
}

impl<'a> KnownStamps<'a> {
    /// The stamps, where these texts are the ones that they were read in.
    #[inline(always)]
    fn of(&self, first: &[u8], second: &[u8]) -> Option<(Stamp, Stamp)>
        ensures known { IfSome result
            (λ stamps. Some stamps ≡ option_zip (stamp_in first.now) (stamp_in second.now)) }
        ensures none { IfNone result
            ((first.now ≡ self.now.first.now) × (second.now ≡ self.now.second.now) → ⊥) }
    {
        if first == self.first && second == self.second {
            Some((self.start, self.end))
        } else {
            None
        }
    }
}

/// Reads the stamps of readings, two at a time. It remembers the texts of the last two and their stamps.
#[derive(Drop)]
pub struct StampReader<'a> {
    last: Option<KnownStamps<'a>>,
}

impl<'a> StampReader<'a> {
    /// A reader that has read no stamps.
    pub fn new() -> StampReader<'a> {
        StampReader { last: None }
    }

    /// Both stamps, each as `Stamp::read` does; None where either text is no stamp.
    #[inline(always)]
    pub fn read_both(&mut self, first: &'a [u8], second: &'a [u8]) -> Option<(Stamp, Stamp)>
        ensures { result ≡ option_zip (stamp_in first.now) (stamp_in second.now) }
    {
        if let Some(known) = &self.last
            && let Some(stamps) = known.of(first, second)
        {
            return Some(stamps);
        }
        self.read_anew(first, second)
    }

    /// Both stamps, which are known from then on, where both are stamps. Apart, so that the path of known ones stays
    /// short.
    #[inline(never)]
    fn read_anew(&mut self, first: &'a [u8], second: &'a [u8]) -> Option<(Stamp, Stamp)>
        ensures { result ≡ option_zip (stamp_in first.now) (stamp_in second.now) }
    {
        let (start, end) = Stamp::read_both(first, second)?;
        self.last = Some(KnownStamps {
            first,
            second,
            start,
            end,
        });
        Some((start, end))
    }
}
