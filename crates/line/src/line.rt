// The line as a carrier.
ghost use Rattle.std.specs.Prelude.{◌≡◌, ◌+◌, ◌*◌, ◌≤◌, MatchOption};
ghost use Rattle.convolution.specs.Code.{marks_before};
ghost use Rattle.line.specs.Line.{lining};
ghost use Rattle.line.specs.Lined.{lining_rule};

use crate::reading::Received;
use crate::sending::put_body;
use convolution::rate::Rate;
use readings::helical::Helical;
use readings::reading::Reading;
use stack::buffer::clear;
use stack::carrier::Carrier;
use stack::corrections::Corrections;
use stack::fault::CarrierFault;
use std::marker::PhantomData;

// A rate, a helical rule and a body length whose marks it has room for, for readings of one kind.
#[derive(Drop)]
pub struct Line<R> {
    rate: Rate,
    helical: Helical,
    length: usize,
    kind: PhantomData<R>,
    ghost low: { 1 ≤ length },
    ghost high: { length ≤ 98304 },
    ghost room: { marks_before rate (8 * length + 6) ≤ helical.grid.rows * helical.grid.columns },
}

impl<R: Reading> Line<R> {
    // The line at a rate with bodies of `length` bytes on `a` rows of `b` symbols, if they have room for the marks and are at most 98,304.
    pub fn new(rate: Rate, a: usize, b: usize, length: usize) -> Option<Line<R>>
        ensures { MatchOption result ((1 ≤ length) × (1 ≤ a) × (1 ≤ b) × (a * b ≤ 98304) × (marks_before rate (8 * length + 6) ≤ a * b) → ⊥) (λ c. (c.rate ≡ rate) × (c.helical.grid.rows ≡ a) × (c.helical.grid.columns ≡ b) × (c.length ≡ length)) }
    {
        let helical = Helical::new(a, b)?;
        if length < 1 || length > 98304 || rate.mark_count(8 * length + 6) > helical.len() {
            return None;
        }
        Some(Line {
            rate,
            helical,
            length,
            kind: PhantomData,
        })
    }
}

// The line as a carrier.
impl<R: Reading> Carrier for Line<R> {
    type Reading = R;

    ghost meaning = { λ c. lining R.Reading.cost R.Reading.clean c.rate c.helical.grid.rows c.helical.grid.columns c.length };

    ghost rule = { λ c _.
        lining_rule R.Reading.cost R.Reading.clean R.Reading.clean_free R.Reading.clean_dear c.rate c.helical.grid.rows c.helical.grid.columns c.length c.helical.grid.tall c.helical.grid.wide c.helical.grid.small
        c.low c.room };

    // The number of bytes.
    fn body_length(&self) -> usize {
        self.length
    }

    // The number of symbols.
    fn air_length(&self) -> usize {
        self.helical.len()
    }

    // One part alone.
    fn height(&self) -> u32 {
        1
    }

    // The body stands at the front of a buffer.
    fn byte_need(&self) -> usize {
        self.length
    }

    // One step for each bit of the body, and six for the tail.
    fn step_need(&self) -> usize {
        8 * self.length + 6
    }

    // Writes the block, and clears the buffers.
    fn send(&self, first: &mut [u8], second: &mut [u8], symbols: &mut [u8]) {
        put_body(self.rate, self.helical, &first[0..self.length], symbols);
        clear(first);
        clear(second);
    }

    // Writes the body of least cost to the front of `first`.
    fn receive(
        &self,
        first: &mut [u8],
        second: &mut [u8],
        steps: &mut [u64],
        readings: &[R],
    ) -> Result<Corrections, CarrierFault> {
        clear(first);
        clear(second);
        let count = self.step_need();
        let received = Received {
            rate: self.rate,
            rule: self.helical,
            readings,
        };
        let symbols = received.read_body(&mut steps[0..count], &mut first[0..self.length]);
        clear(steps);
        Ok(Corrections { symbols, bytes: 0 })
    }
}
