// A carrier whose readings are bytes or absent, and which refuses a block with an absent byte.
ghost use Rattle.std.specs.Prelude.{◌≡◌, ◌≤◌, true, length, if◌then◌else◌, Ok, Err, MatchOption};
ghost use Rattle.stack.specs.declared.fault.Fault.TheVariants.{Other};
ghost use Rattle.stack.specs.Buffers.{padded};
ghost use Rattle.samples.specs.Erased.{erasing, present, values};
ghost use Rattle.samples.specs.Absence.{erasing_rule};

use stack::buffer::clear;
use stack::carrier::Carrier;
use stack::corrections::Corrections;
use stack::fault::{CarrierFault, Fault};

// A carrier of so many bytes.
#[derive(Clone, Copy, Debug, PartialEq, Eq)]
pub struct Erasing {
    length: usize,
    ghost low: { 1 ≤ length },
    ghost high: { length ≤ 98304 },
}

impl Erasing {
    // A carrier of 1 to 98,304 bytes.
    pub fn new(length: usize) -> Option<Erasing>
        ensures { MatchOption result ((1 ≤ length × length ≤ 98304) → ⊥) (λ c. c.length ≡ length) }
    {
        match length {
            1..=98_304 => Some(Erasing { length }),
            _ => None,
        }
    }
}

// Why a block with an absent byte is refused.
const ABSENT: Fault = Fault::Other { code: 1, place: 0 };

// The bytes that were read, at the front of `to`, unless one is absent.
fn collect(readings: &[Option<u8>], to: &mut [u8]) -> Result<(), Fault>
    requires { length readings.now ≤ length to.old }
    ensures all { result ≡ (if present readings.now then Ok tt else Err (Other 1 0)) }
    ensures filled { present readings.now ≡ true → to.new ≡ padded (length to.old) (values readings.now) }
{
    clear(to);
    for (i, reading) in readings.iter().enumerate() {
        match *reading {
            Some(value) => to[i] = value,
            None => return Err(ABSENT),
        }
    }
    Ok(())
}

impl Carrier for Erasing {
    type Reading = Option<u8>;

    ghost meaning = { λ c. erasing c.length };

    ghost rule = { λ c _. erasing_rule c.length c.low c.high };

    fn body_length(&self) -> usize {
        self.length
    }

    fn air_length(&self) -> usize {
        self.length
    }

    fn height(&self) -> u32 {
        1
    }

    fn byte_need(&self) -> usize {
        self.length
    }

    fn step_need(&self) -> usize {
        0
    }

    fn send(&self, first: &mut [u8], second: &mut [u8], symbols: &mut [u8]) {
        symbols.copy_from_slice(&first[0..self.length]);
        clear(first);
        clear(second);
    }

    fn receive(
        &self,
        first: &mut [u8],
        second: &mut [u8],
        steps: &mut [u64],
        readings: &[Option<u8>],
    ) -> Result<Corrections, CarrierFault> {
        clear(second);
        clear(steps);
        if let Err(fault) = collect(readings, first) {
            clear(first);
            return Err(fault.into());
        }
        Ok(Corrections::default())
    }
}
