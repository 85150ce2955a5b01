//! Numbers that look like chance, and come again with the same seed: Steele, Lea and Flood's SplitMix64.

ghost use Rattle.std.specs.Prelude.{◌<◌, ◌≤◌};

#[derive(Drop)]
pub struct Numbers {
    state: u64,
}

impl Numbers {
    pub fn new(seed: u64) -> Numbers {
        Numbers {
            state: seed.wrapping_mul(0xD1B5_4A32_D192_ED03),
        }
    }

    pub fn next(&mut self) -> u64 {
        self.state = self.state.wrapping_add(0x9E37_79B9_7F4A_7C15);
        let once = (self.state ^ (self.state >> 30)).wrapping_mul(0xBF58_476D_1CE4_E5B9);
        let twice = (once ^ (once >> 27)).wrapping_mul(0x94D0_49BB_1331_11EB);
        twice ^ (twice >> 31)
    }

    /// A number below so many.
    pub fn below(&mut self, many: u32) -> u32
        requires { 1 ≤ many }
        ensures { result < many }
    {
        ((self.next() >> 32) % u64::from(many)) as u32
    }

    /// Whether what happens once in so many times happens.
    pub fn is_one_in(&mut self, many: u32) -> bool
        requires { 1 ≤ many }
    {
        self.below(many) == 0
    }
}
