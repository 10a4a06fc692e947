// A stage that may be left out, on a carrier, which is a carrier again.
ghost use Rattle.std.specs.Prelude.{◌≡◌, MatchResult};
ghost use Rattle.stack.specs.Optional.{with_stage, MeetsIfAny};
ghost use Rattle.stack.specs.Choosing.{with_stage_rule};

use crate::carrier::Carrier;
use crate::corrections::Corrections;
use crate::fault::CarrierFault;
use crate::stack::Unstacked;
use crate::stage::Stage;
use crate::through;

// A stage set on a carrier, or the carrier alone.
#[derive(Drop)]
pub struct Optional<S, C> {
    stage: Option<S>,
    carrier: C,
}

impl<S, C> Optional<S, C> {
    // The stage, if there is one, and the carrier, apart again.
    pub fn into_parts(self) -> (Option<S>, C)
        ensures { (result.0 ≡ self.stage) × (result.1 ≡ self.carrier) }
    {
        (self.stage, self.carrier)
    }
}

impl<S: Stage, C: Carrier> Optional<S, C> {
    // Sets a stage, if there is one, on a carrier; hands both back where the lengths differ or the carrier is 32 high.
    pub fn new(stage: Option<S>, carrier: C) -> Result<Optional<S, C>, Unstacked<Option<S>, C>>
        ensures { MatchResult result (λ p. (p.stage ≡ stage) × (p.carrier ≡ carrier) × (C.Carrier.fits carrier → C.Carrier.fits p.carrier × MeetsIfAny S.Stage.meaning p.stage (C.Carrier.meaning p.carrier))) (λ e. (e.stage ≡ stage) × (e.carrier ≡ carrier) × (C.Carrier.fits carrier → MeetsIfAny S.Stage.meaning stage (C.Carrier.meaning carrier) → ⊥)) }
    {
        let meets = match &stage {
            None => true,
            Some(stage) => through::meets(stage, &carrier),
        };
        if meets {
            Ok(Optional { stage, carrier })
        } else {
            Err(Unstacked { stage, carrier })
        }
    }
}

impl<S: Stage, C: Carrier> Carrier for Optional<S, C> {
    type Reading = C::Reading;

    ghost meaning = { λ p. with_stage S.Stage.meaning p.stage (C.Carrier.meaning p.carrier) };

    ghost fits = { λ p. C.Carrier.fits p.carrier × MeetsIfAny S.Stage.meaning p.stage (C.Carrier.meaning p.carrier) };

    ghost rule = { λ p fit. with_stage_rule p.stage S.Stage.rule (C.Carrier.rule _ fit.0) fit.1 };

    fn body_length(&self) -> usize {
        match &self.stage {
            None => self.carrier.body_length(),
            Some(stage) => stage.upper(),
        }
    }

    fn air_length(&self) -> usize {
        self.carrier.air_length()
    }

    fn height(&self) -> u32 {
        match &self.stage {
            None => self.carrier.height(),
            Some(_) => self.carrier.height().saturating_add(1),
        }
    }

    fn byte_need(&self) -> usize {
        match &self.stage {
            None => self.carrier.byte_need(),
            Some(stage) => through::byte_need(stage, &self.carrier),
        }
    }

    fn step_need(&self) -> usize {
        self.carrier.step_need()
    }

    fn send(&self, first: &mut [u8], second: &mut [u8], symbols: &mut [u8]) {
        match &self.stage {
            None => self.carrier.send(first, second, symbols),
            Some(stage) => through::send(stage, &self.carrier, first, second, symbols),
        }
    }

    fn receive(
        &self,
        first: &mut [u8],
        second: &mut [u8],
        steps: &mut [u64],
        readings: &[C::Reading],
    ) -> Result<Corrections, CarrierFault> {
        match &self.stage {
            None => self.carrier.receive(first, second, steps, readings),
            Some(stage) => through::receive(stage, &self.carrier, first, second, steps, readings),
        }
    }
}
