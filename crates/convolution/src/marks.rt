// The marks of the code, and how many a rate keeps.
ghost use Rattle.std.specs.Prelude.{◌≡◌, ℕ, ◌%◌, ◌^◌, ◌<◌, ◌≤◌, List, [], ◌∷◌, ◌++◌, length, take};
ghost use Rattle.convolution.specs.Code.{mark, marks_before};

use crate::rate::Rate;
use std::marker::Model;

// The mark of a window: 1 when it shares an odd number of ones with the generator.
pub fn mark(generator: u8, window: u8) -> u8
    ensures { result ≡ mark generator window }
{
    ((window & generator).count_ones() % 2) as u8
}

impl Rate {
    // How many marks are kept in so many steps.
    pub fn mark_count(self, steps: usize) -> usize
        requires { steps ≤ 2 ^ 32 }
        ensures { result ≡ marks_before self steps }
    {
        match self {
            Rate::Half => 2 * steps,
            Rate::TwoThirds => steps + (steps + 1) / 2,
            Rate::ThreeQuarters => steps + (steps + 2) / 3,
            Rate::Third => 3 * steps,
        }
    }
}

// The kept marks of up to eight steps, in their order.
#[derive(Drop)]
pub struct Marks {
    buffer: [u8; 24],
    count: usize,
}

impl Model for Marks {
    ghost Value = { List ℕ };

    ghost view = { λ m. take m.count m.buffer };

    ghost invariant = { λ m. m.count ≤ 24 };
}

impl Marks {
    // The first `count` marks of a buffer.
    pub(crate) fn of(buffer: [u8; 24], count: usize) -> Marks
        requires { count ≤ 24 }
        ensures { result ≡ take count buffer }
    {
        Marks { buffer, count }
    }

    // The marks one after another.
    pub fn as_slice(&self) -> &[u8]
        ensures { result.now ≡ self.now }
    {
        &self.buffer[..self.count]
    }
}
