// The interface of a carrier, which takes a body to a block of symbols on the air, and readings of one back.
ghost use Rattle.std.specs.Prelude.{◌≡◌, ◌≤◌, length, take};
ghost use Rattle.stack.specs.Meaning.{CarrierMeaning};
ghost use Rattle.stack.specs.Rules.{CarrierRule};
ghost use Rattle.stack.specs.Calls.{Sent, Got, Put, Get, judged};

use crate::corrections::Corrections;
use crate::fault::{CarrierFault, Misfit, Refusal};

// Judges what was lent: first the buffers, then the list of symbols or readings.
pub fn judge(
    need: usize,
    first: usize,
    second: usize,
    step_need: usize,
    steps: usize,
    air: usize,
    list: usize,
) -> Result<(), Misfit>
    ensures { result ≡ judged need first second step_need steps air list }
{
    if first != second || first < need || steps < step_need {
        return Err(Misfit::Buffers);
    }
    if list != air {
        return Err(Misfit::AirLength);
    }
    Ok(())
}

// How long what is lent must be: each byte buffer and the step buffer at least, the list of symbols or readings exactly.
#[derive(Clone, Copy)]
struct Needs {
    bytes: usize,
    steps: usize,
    air: usize,
}

impl Needs {
    // Judges lent lengths: first the buffers, then the list.
    fn judge(self, first: usize, second: usize, steps: usize, list: usize) -> Result<(), Misfit>
        ensures { result ≡ judged self.bytes first second self.steps steps self.air list }
    {
        judge(self.bytes, first, second, self.steps, steps, self.air, list)
    }
}

pub trait Carrier {
    // What a receiver says of one symbol.
    type Reading;

    // What the carrier means: its lengths and needs, and its two ways as functions on lists.
    ghost meaning: { Self → CarrierMeaning Self.Reading };

    // That its parts fit one another; nothing for a carrier that is not made of parts.
    ghost fits: { Self → Type 0 } = { λ _. Unit {0} };

    // The length of the body.
    fn body_length(&self) -> usize
        ensures { result ≡ (meaning self.now).body };

    // The number of symbols of a block.
    fn air_length(&self) -> usize
        ensures { result ≡ (meaning self.now).air };

    // The number of parts one on another, 1 for a carrier alone.
    fn height(&self) -> u32
        ensures { fits self.now → result ≡ (meaning self.now).height };

    // How long the byte buffers must be at least.
    fn byte_need(&self) -> usize
        ensures { result ≡ (meaning self.now).byte_need };

    // How long the step buffer must be at least.
    fn step_need(&self) -> usize
        ensures { result ≡ (meaning self.now).step_need };

    // `put` once the lengths are judged.
    fn send(&self, first: &mut [u8], second: &mut [u8], symbols: &mut [u8])
        requires { (length second.old ≡ length first.old) × (((meaning self.now).byte_need ≤ length first.old) × (length symbols.old ≡ (meaning self.now).air)) }
        ensures { fits self.now → Sent ((meaning self.now).sent (take (meaning self.now).body first.old)) first.old second.old first.new second.new symbols.new };

    // `get` once the lengths are judged.
    fn receive(
        &self,
        first: &mut [u8],
        second: &mut [u8],
        steps: &mut [u64],
        readings: &[Self::Reading],
    ) -> Result<Corrections, CarrierFault>
        requires { (length second.old ≡ length first.old) × (((meaning self.now).byte_need ≤ length first.old) × (((meaning self.now).step_need ≤ length steps.old) × (length readings.now ≡ (meaning self.now).air))) }
        ensures { fits self.now → Got ((meaning self.now).got readings.now) first.old second.old steps.old result first.new second.new steps.new };

    // Judges what is lent for a `put`.
    fn judge_put(&self, first: &[u8], second: &[u8], symbols: &[u8]) -> Result<(), Misfit>
        ensures { result ≡ judged (meaning self.now).byte_need (length first.now) (length second.now) 0 0 (meaning self.now).air (length symbols.now) }
    {
        let needs = Needs {
            bytes: self.byte_need(),
            steps: 0,
            air: self.air_length(),
        };
        needs.judge(first.len(), second.len(), 0, symbols.len())
    }

    // Judges what is lent for a `get`.
    fn judge_get(
        &self,
        first: &[u8],
        second: &[u8],
        steps: &[u64],
        readings: &[Self::Reading],
    ) -> Result<(), Misfit>
        ensures { result ≡ judged (meaning self.now).byte_need (length first.now) (length second.now) (meaning self.now).step_need (length steps.now) (meaning self.now).air (length readings.now) }
    {
        let needs = Needs {
            bytes: self.byte_need(),
            steps: self.step_need(),
            air: self.air_length(),
        };
        needs.judge(first.len(), second.len(), steps.len(), readings.len())
    }

    // Takes the body at the front of `first` to `symbols`, and leaves both buffers zero.
    fn put(&self, first: &mut [u8], second: &mut [u8], symbols: &mut [u8]) -> Result<(), Misfit>
        ensures { Put (fits self.now) (meaning self.now) first.old second.old symbols.old result first.new second.new symbols.new }
    {
        self.judge_put(first, second, symbols)?;
        self.send(first, second, symbols);
        Ok(())
    }

    // Takes readings of a block to the body at the front of `first`, with zeros behind it, and says what was corrected.
    fn get(
        &self,
        first: &mut [u8],
        second: &mut [u8],
        steps: &mut [u64],
        readings: &[Self::Reading],
    ) -> Result<Corrections, Refusal>
        ensures { Get (fits self.now) (meaning self.now) first.old second.old steps.old readings.now result first.new second.new steps.new }
    {
        self.judge_get(first, second, steps, readings)?;
        let counts = self.receive(first, second, steps, readings)?;
        Ok(counts)
    }

    // That it keeps the carrier rule.
    ghost rule: { (c : Self) → fits c → CarrierRule (meaning c) };
}
