// Blocks by a plan: a body to symbols, and readings to a body.
ghost use Rattle.std.specs.Prelude.{◌≡◌, not, take};
ghost use Rattle.stack.specs.Stacks.{encoded_down};
ghost use Rattle.plan.specs.Calls.{PutBlock, PlanPut, GetBlock, PlanGet, as_given};
ghost use Rattle.plan.specs.Coders.{Footing};
ghost use Rattle.limits.specs.Limits.{body_length, on_bare};
ghost use Rattle.plan.specs.Stacks.{plan_stages, plan_on, bare_plan, line_plan};

use crate::plan::Plan;
use crate::refusal::PlanRefusal;
use readings::reading::Reading;
use stack::carrier::Carrier;
use stack::corrections::Corrections;
use stack::fault::{Misfit, Refusal};

impl Plan {
    // `put` of the plan's stages on a carrier of its length.
    fn put_on<C: Carrier + Drop>(
        &self,
        carrier: C,
        first: &mut [u8],
        second: &mut [u8],
        symbols: &mut [u8],
    ) -> Result<(), Misfit>
        requires fit { C.Carrier.fits carrier }
        requires foot { Footing self.now.numbers (C.Carrier.meaning carrier) }
        ensures { PutBlock self.now.numbers (C.Carrier.meaning carrier).air ((C.Carrier.meaning carrier).sent (encoded_down (plan_stages self.now.numbers self.now.unit) (take (body_length self.now.numbers) first.old))) first.old second.old symbols.old result first.new second.new symbols.new }
    {
        match self.on(carrier) {
            Ok(coder) => coder.put(first, second, symbols),
            Err(_) => unreachable(),
        }
    }

    // `get` of the plan's stages on a carrier of its length.
    fn get_on<C: Carrier + Drop>(
        &self,
        carrier: C,
        first: &mut [u8],
        second: &mut [u8],
        steps: &mut [u64],
        readings: &[C::Reading],
    ) -> Result<Corrections, Refusal>
        requires fit { C.Carrier.fits carrier }
        requires foot { Footing self.now.numbers (C.Carrier.meaning carrier) }
        ensures { GetBlock self.now.numbers (C.Carrier.meaning carrier).air (C.Carrier.meaning carrier).step_need as_given ((plan_on self.now.numbers self.now.unit (C.Carrier.meaning carrier)).got readings.now) first.old second.old steps.old readings.now result first.new second.new steps.new }
    {
        match self.on(carrier) {
            Ok(coder) => coder.get(first, second, steps, readings),
            Err(_) => unreachable(),
        }
    }

    // Takes the body at the front of `first` to the symbols of a block, and leaves both buffers zero.
    pub fn put(&self, first: &mut [u8], second: &mut [u8], symbols: &mut [u8]) -> Result<(), Misfit>
        ensures { PlanPut self.now.numbers self.now.unit first.old second.old symbols.old result first.new second.new symbols.new }
    {
        if let Some(bare) = self.bare() {
            return self.put_on(bare, first, second, symbols);
        }
        match self.line::<Option<bool>>() {
            Some(line) => self.put_on(line, first, second, symbols),
            None => unreachable(),
        }
    }

    // Takes the bytes of a block, for a plan on the bare carrier, to the body at the front of `first`, with zeros behind it, and says what was corrected.
    pub fn get_bytes(
        &self,
        first: &mut [u8],
        second: &mut [u8],
        steps: &mut [u64],
        readings: &[u8],
    ) -> Result<Corrections, PlanRefusal>
        ensures { PlanGet (on_bare self.now.numbers) self.now.numbers ((bare_plan self.now.numbers self.now.unit).got readings.now) first.old second.old steps.old readings.now result first.new second.new steps.new }
    {
        let bare = self.bare().ok_or(PlanRefusal::OtherCarrier)?;
        let counts = self.get_on(bare, first, second, steps, readings)?;
        Ok(counts)
    }

    // Takes readings of a block, for a plan on the line, to the body at the front of `first`, with zeros behind it, and says what was corrected.
    pub fn get_marks<R: Reading>(
        &self,
        first: &mut [u8],
        second: &mut [u8],
        steps: &mut [u64],
        readings: &[R],
    ) -> Result<Corrections, PlanRefusal>
        ensures { PlanGet (not (on_bare self.now.numbers)) self.now.numbers ((line_plan R.Reading.cost R.Reading.clean self.now.numbers self.now.unit).got readings.now) first.old second.old steps.old readings.now result first.new second.new steps.new }
    {
        let line = self.line::<R>().ok_or(PlanRefusal::OtherCarrier)?;
        let counts = self.get_on(line, first, second, steps, readings)?;
        Ok(counts)
    }
}
