//! The draws of a key.

ghost use Rattle.std.specs.Prelude.{◌≡◌, ◌<◌};
ghost use Rattle.load.specs.Draws.{below as below_of, next};

/// A linear congruential generator.
#[derive(Clone, Copy)]
pub struct RandomGenerator {
    pub state: u64,
}

/// What a state is multiplied by.
const FACTOR: u64 = 6_364_136_223_846_793_005;

/// What is added to it then.
const ADDEND: u64 = 1_442_695_040_888_963_407;

impl RandomGenerator {
    /// The next draw, below a bound that is not 0.
    #[tactic(auto, unfolding(crate::specs::Draws::next, crate::specs::Draws::below))]
    pub fn below(&mut self, bound: u64) -> u64
        requires { 0 < bound }
        ensures state { self.new.state ≡ next self.old.state }
        ensures draw { result ≡ below_of self.new.state bound }
        ensures within { result < bound }
    {
        self.state = self.state.wrapping_mul(FACTOR).wrapping_add(ADDEND);
        (self.state >> 33) % bound
    }
}
