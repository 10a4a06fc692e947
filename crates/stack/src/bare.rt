// The bare carrier: symbols and readings are the bytes of the body.
ghost use Rattle.std.specs.Prelude.{◌≡◌, ◌≤◌, MatchOption};
ghost use Rattle.stack.specs.Bare.{bare};
ghost use Rattle.std.proofs.Common.{rules};

use crate::buffer::{clear, load};
use crate::carrier::Carrier;
use crate::corrections::Corrections;
use crate::fault::CarrierFault;

// A carrier of so many bytes.
#[derive(Clone, Copy, Debug, PartialEq, Eq)]
pub struct Bare {
    length: usize,
    ghost low: { 1 ≤ length },
    ghost high: { length ≤ 98304 },
}

impl Bare {
    // A bare carrier of 1 to 98,304 bytes.
    pub fn new(length: usize) -> Option<Bare>
        ensures { MatchOption result ((1 ≤ length × length ≤ 98304) → ⊥) (λ b. b.length ≡ length) }
    {
        match length {
            1..=98_304 => Some(Bare { length }),
            _ => None,
        }
    }
}

impl Carrier for Bare {
    type Reading = u8;

    ghost meaning = { λ c. bare c.length };

    ghost rule = { Prim.search rules };

    fn body_length(&self) -> usize {
        self.length
    }

    fn air_length(&self) -> usize {
        self.length
    }

    fn height(&self) -> u32 {
        1
    }

    fn byte_need(&self) -> usize {
        self.length
    }

    fn step_need(&self) -> usize {
        0
    }

    fn send(&self, first: &mut [u8], second: &mut [u8], symbols: &mut [u8]) {
        symbols.copy_from_slice(&first[0..self.length]);
        clear(first);
        clear(second);
    }

    fn receive(
        &self,
        first: &mut [u8],
        second: &mut [u8],
        steps: &mut [u64],
        readings: &[u8],
    ) -> Result<Corrections, CarrierFault> {
        load(first, readings);
        clear(second);
        clear(steps);
        Ok(Corrections::default())
    }
}
