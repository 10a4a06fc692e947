// The check byte: the remainder of the body behind it, and a refusal where it is another.
ghost use Rattle.std.specs.Prelude.{◌≡◌, ◌<◌, ◌≤◌, MatchOption};
ghost use Rattle.stages.specs.Checking.{checking};
ghost use Rattle.stages.specs.Checked.{checking_rule};

use crate::remainder::check_byte;
use stack::buffer::{clear, load};
use stack::fault::Fault;
use stack::stage::Stage;

// Checks bodies of so many bytes.
#[derive(Clone, Copy, Debug, PartialEq, Eq)]
pub struct CheckByte {
    length: usize,
    ghost low: { 1 ≤ length },
    ghost high: { length < 98304 },
}

impl CheckByte {
    // A check byte behind bodies of 1 to 98,303 bytes.
    pub fn new(length: usize) -> Option<CheckByte>
        ensures { MatchOption result ((1 ≤ length × length < 98304) → ⊥) (λ s. s.length ≡ length) }
    {
        if (1..98_304).contains(&length) {
            Some(CheckByte { length })
        } else {
            None
        }
    }
}

impl Stage for CheckByte {
    ghost meaning = { λ s. checking s.length };

    ghost rule = { λ s. checking_rule s.length s.low s.high };

    fn upper(&self) -> usize {
        self.length
    }

    fn lower(&self) -> usize {
        self.length + 1
    }

    fn encode(&self, from: &mut [u8], to: &mut [u8]) {
        load(to, &from[0..self.length]);
        to[self.length] = check_byte(&from[0..self.length]);
        clear(from);
    }

    fn decode(&self, from: &mut [u8], to: &mut [u8]) -> Result<u32, Fault> {
        let check = check_byte(&from[0..self.length]);
        if from[self.length] != check {
            clear(from);
            clear(to);
            return Err(Fault::CheckByte);
        }
        load(to, &from[0..self.length]);
        clear(from);
        Ok(0)
    }
}
