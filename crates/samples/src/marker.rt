// A stage that appends a fixed byte, and refuses a body that does not end in it.
ghost use Rattle.std.specs.Prelude.{◌≡◌, ◌<◌, ◌≤◌, MatchOption};
ghost use Rattle.samples.specs.Marked.{marking};
ghost use Rattle.samples.specs.Marks.{marking_rule};

use stack::buffer::{clear, load};
use stack::fault::Fault;
use stack::stage::Stage;

// Marks bodies of so many bytes.
#[derive(Clone, Copy, Debug, PartialEq, Eq)]
pub struct Marker {
    length: usize,
    ghost low: { 1 ≤ length },
    ghost high: { length < 98304 },
}

impl Marker {
    // A marker of bodies of 1 to 98,303 bytes.
    pub fn new(length: usize) -> Option<Marker>
        ensures { MatchOption result ((1 ≤ length × length < 98304) → ⊥) (λ m. m.length ≡ length) }
    {
        match length {
            1..98_304 => Some(Marker { length }),
            _ => None,
        }
    }
}

impl Stage for Marker {
    ghost meaning = { λ s. marking s.length };

    ghost rule = { λ s. marking_rule s.length s.low s.high };

    fn upper(&self) -> usize {
        self.length
    }

    fn lower(&self) -> usize {
        self.length + 1
    }

    fn encode(&self, from: &mut [u8], to: &mut [u8]) {
        load(to, &from[0..self.length]);
        to[self.length] = 165;
        clear(from);
    }

    fn decode(&self, from: &mut [u8], to: &mut [u8]) -> Result<u32, Fault> {
        if from[self.length] != 165 {
            clear(from);
            clear(to);
            return Err(Fault::Other { code: 0, place: 0 });
        }
        load(to, &from[0..self.length]);
        clear(from);
        Ok(0)
    }
}
