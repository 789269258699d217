//! A small generator of numbers, the same at each run.

ghost use Rattle.std.specs.Prelude.{◌<◌};

/// The state of the generator.
#[derive(Drop)]
pub struct Dice {
    pub state: u32,
}

impl Dice {
    /// A number below this one.
    pub fn roll(&mut self, sides: u32) -> u32
        requires { 0 < sides }
        ensures { result < sides }
    {
        self.state = self
            .state
            .wrapping_mul(1_664_525)
            .wrapping_add(1_013_904_223);
        (self.state >> 8) % sides
    }
}
