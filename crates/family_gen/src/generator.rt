// The generator of the heights and coordinates.
ghost use Rattle.std.specs.Prelude.{◌≡◌, ◌<◌, ◌≤◌, pos};
ghost use Rattle.family_gen.specs.Generator.{following, height_of, coordinate_of};

const MULTIPLIER: u64 = 6_364_136_223_846_793_005;

const INCREMENT: u64 = 1_442_695_040_888_963_407;

// A linear congruential generator modulo 2^64. It holds the number that was drawn last, at first the seed.
#[derive(Drop)]
pub(crate) struct Generator {
    pub(crate) last: u64,
}

impl Generator {
    // The next number.
    pub(crate) fn draw(&mut self) -> u64
        ensures drawn { result ≡ following self.old.last }
        ensures last { self.new.last ≡ following self.old.last }
    {
        let before = self.last;
        let drawn = before.wrapping_mul(MULTIPLIER).wrapping_add(INCREMENT);
        self.last = drawn;
        drawn
    }

    // A height from 0 to 16,777,215: the upper 24 bits of the next number.
    #[tactic(auto, unfolding(crate::specs::Generator::height_of))]
    pub(crate) fn height(&mut self) -> i64
        ensures drawn { result ≡ pos (height_of (following self.old.last)) }
        ensures last { self.new.last ≡ following self.old.last }
    {
        (self.draw() >> 40) as i64
    }

    // A coordinate from 0 to `side`, from the upper 31 bits of the next number.
    #[tactic(auto, unfolding(crate::specs::Generator::coordinate_of))]
    pub(crate) fn coordinate(&mut self, side: u64) -> u64
        requires { side ≤ 1000000 }
        ensures drawn { result ≡ coordinate_of side (following self.old.last) }
        ensures last { self.new.last ≡ following self.old.last }
    {
        (self.draw() >> 33) % (side + 1)
    }
}
