// The randomiser: the sequence of a shift register added to the body.
ghost use Rattle.std.specs.Prelude.{◌≡◌, ◌%◌, ◌<◌, ◌≤◌, length, take, MatchOption};
ghost use Rattle.stack.specs.Calls.{Encoded};
ghost use Rattle.stages.specs.Randomising.{randomising, Randomises};
ghost use Rattle.stages.specs.Sequence.{randomised};
ghost use Rattle.stages.specs.Keyed.{randomising_rule};

use crate::sequence::add_sequence;
use stack::buffer::{clear, load};
use stack::fault::Fault;
use stack::stage::Stage;

// Randomises bodies of so many bytes, starting anew from the seed at every unit.
#[derive(Clone, Copy, Debug, PartialEq, Eq)]
pub struct Randomiser {
    seed: u16,
    unit: usize,
    length: usize,
    ghost seed_low: { 1 ≤ seed },
    ghost seed_high: { seed < 32768 },
    ghost low: { 1 ≤ length },
    ghost high: { length ≤ 98304 },
    ghost unit_low: { 1 ≤ unit },
    ghost whole: { length % unit ≡ 0 },
}

impl Randomiser {
    // A randomiser with a seed of 1 to 32,767, for bodies of 1 to 98,304 bytes that are whole units.
    pub fn new(seed: u16, unit: usize, length: usize) -> Option<Randomiser>
        ensures { MatchOption result (Randomises seed unit length → ⊥) (λ s. (s.seed ≡ seed) × (s.unit ≡ unit) × (s.length ≡ length)) }
    {
        if (1..32_768).contains(&seed)
            && (1..=98_304).contains(&length)
            && 1 <= unit
            && length % unit == 0
        {
            Some(Randomiser { seed, unit, length })
        } else {
            None
        }
    }

    // Adds the sequence to the body at the front of `from`, into `to`.
    fn add(&self, from: &mut [u8], to: &mut [u8])
        requires { (self.now.length ≤ length from.old) × (self.now.length ≤ length to.old) }
        ensures { Encoded (randomised self.now.seed self.now.unit (take self.now.length from.old)) from.old to.old from.new to.new }
    {
        load(to, &from[0..self.length]);
        add_sequence(self.seed, self.unit, &mut to[0..self.length]);
        clear(from);
    }
}

impl Stage for Randomiser {
    ghost meaning = { λ s. randomising s.seed s.unit s.length };

    ghost rule = { λ s. randomising_rule s.seed s.unit s.length s.low s.high };

    fn upper(&self) -> usize {
        self.length
    }

    fn lower(&self) -> usize {
        self.length
    }

    fn encode(&self, from: &mut [u8], to: &mut [u8]) {
        self.add(from, to);
    }

    fn decode(&self, from: &mut [u8], to: &mut [u8]) -> Result<u32, Fault> {
        self.add(from, to);
        Ok(0)
    }
}
