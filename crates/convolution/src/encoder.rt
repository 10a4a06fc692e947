// The encoder between two steps.
ghost use Rattle.std.specs.Prelude.{◌<◌};

use crate::rate::Rate;

mod steps;

// The six newest bits, the newest highest, and the number of steps modulo six, the common period of all patterns.
#[derive(Drop)]
pub struct Encoder {
    rate: Rate,
    state: u8,
    phase: u8,
    ghost six: { state < 64 },
    ghost turn: { phase < 6 },
}
