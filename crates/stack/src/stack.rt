// A stage set on a carrier, which is a carrier again.
ghost use Rattle.std.specs.Prelude.{◌≡◌, MatchResult};
ghost use Rattle.stack.specs.Faults.{unstacked_report};
ghost use Rattle.stack.specs.Meaning.{stacked, Meets};
ghost use Rattle.stack.specs.Stacks.{Nests, StacksCompose};
ghost use Rattle.stack.specs.Stacking.{stacked_rule};

use crate::carrier::Carrier;
use crate::corrections::Corrections;
use crate::fault::{CarrierFault, Report, Reported};
use crate::stage::Stage;
use crate::through;

// A stage on a carrier.
#[derive(Drop)]
pub struct Stack<S, C> {
    stage: S,
    carrier: C,
}

// A stage and a carrier that cannot be stacked, as they were.
#[derive(Drop)]
pub struct Unstacked<S, C> {
    pub stage: S,
    pub carrier: C,
}

impl<S, C> Reported for Unstacked<S, C> {
    ghost told = { λ _. unstacked_report };

    fn report(&self) -> Report {
        Report::numbered(2)
    }
}

impl<S, C> Stack<S, C> {
    // The stage and the carrier, apart again.
    pub fn into_parts(self) -> (S, C)
        ensures { (result.0 ≡ self.stage) × (result.1 ≡ self.carrier) }
    {
        (self.stage, self.carrier)
    }
}

impl<S: Stage, C: Carrier> Stack<S, C> {
    // Sets a stage on a carrier, or hands both back where the lengths differ or the carrier is 32 high.
    pub fn new(stage: S, carrier: C) -> Result<Stack<S, C>, Unstacked<S, C>>
        ensures made { MatchResult result (λ p. (p.stage ≡ stage) × (p.carrier ≡ carrier) × (C.Carrier.fits carrier → C.Carrier.fits p.carrier × Meets (S.Stage.meaning p.stage) (C.Carrier.meaning p.carrier))) (λ e. (e.stage ≡ stage) × (e.carrier ≡ carrier) × (C.Carrier.fits carrier → Meets (S.Stage.meaning stage) (C.Carrier.meaning carrier) → ⊥)) }
        ensures nests { Nests (S.Stage.meaning stage) (C.Carrier.meaning carrier) }
        ensures composes { C.Carrier.fits carrier → StacksCompose (C.Carrier.meaning carrier) }
    {
        if through::meets(&stage, &carrier) {
            Ok(Stack { stage, carrier })
        } else {
            Err(Unstacked { stage, carrier })
        }
    }
}

impl<S: Stage, C: Carrier> Carrier for Stack<S, C> {
    type Reading = C::Reading;

    ghost meaning = { λ p. stacked (S.Stage.meaning p.stage) (C.Carrier.meaning p.carrier) };

    ghost fits = { λ p. C.Carrier.fits p.carrier × Meets (S.Stage.meaning p.stage) (C.Carrier.meaning p.carrier) };

    ghost rule = { λ p fit. stacked_rule (S.Stage.rule _) (C.Carrier.rule _ fit.0) fit.1 };

    fn body_length(&self) -> usize {
        self.stage.upper()
    }

    fn air_length(&self) -> usize {
        self.carrier.air_length()
    }

    fn height(&self) -> u32 {
        self.carrier.height().saturating_add(1)
    }

    fn byte_need(&self) -> usize {
        through::byte_need(&self.stage, &self.carrier)
    }

    fn step_need(&self) -> usize {
        self.carrier.step_need()
    }

    fn send(&self, first: &mut [u8], second: &mut [u8], symbols: &mut [u8]) {
        through::send(&self.stage, &self.carrier, first, second, symbols);
    }

    fn receive(
        &self,
        first: &mut [u8],
        second: &mut [u8],
        steps: &mut [u64],
        readings: &[C::Reading],
    ) -> Result<Corrections, CarrierFault> {
        through::receive(&self.stage, &self.carrier, first, second, steps, readings)
    }
}
