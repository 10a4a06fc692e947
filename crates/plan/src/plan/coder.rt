// The coder of a plan: its stages, set on a carrier.
ghost use Rattle.std.specs.Prelude.{◌≡◌, MatchResult};
ghost use Rattle.galois.specs.Choice.{chosen_field};
ghost use Rattle.plan.specs.Coders.{check_meaning, randomiser_meaning, stage_list, CodeOf, coder_meaning, CoderFits, Coded, Unfitting};
ghost use Rattle.plan.specs.Stacks.{field_of, check_part, randomiser_part};

use crate::plan::Plan;
use galois::chosen::AnyField;
use reed_solomon::protect::protect;
use reed_solomon::stage::ReedSolomon;
use stack::carrier::Carrier;
use stack::optional::Optional;
use stack::stack::{Stack, Unstacked};
use stages::check::CheckByte;
use stages::interleaver::Interleaver;
use stages::randomiser::Randomiser;

// The outer code on the interleaver of its words on a carrier.
type Low<C> = Stack<ReedSolomon<AnyField>, Stack<Interleaver, C>>;

// Check byte, randomiser, outer code and block interleaver on a carrier; the first two may be left out.
pub type Coder<C> = Optional<CheckByte, Optional<Randomiser, Low<C>>>;

// The carrier at the foot of two stages.
fn foot<C>(stack: Low<C>) -> C
    ensures { result ≡ stack.carrier.carrier }
{
    let (_, lower) = stack.into_parts();
    let (_, carrier) = lower.into_parts();
    carrier
}

impl Plan {
    // The check byte, if the plan has one.
    fn check_byte(&self) -> Option<CheckByte>
        ensures { stage_list check_meaning result ≡ check_part self.now.numbers }
    {
        if self.numbers.check == 0 {
            return None;
        }
        CheckByte::new(self.body_length())
    }

    // The randomiser, if the plan has one.
    fn randomiser(&self) -> Option<Randomiser>
        ensures { stage_list randomiser_meaning result ≡ randomiser_part self.now.numbers self.now.unit }
    {
        if self.numbers.seed == 0 {
            return None;
        }
        Randomiser::new(
            self.numbers.seed as u16,
            self.unit,
            self.numbers.words * self.numbers.length,
        )
    }

    // The field of the outer code.
    fn field(&self) -> AnyField
        ensures { chosen_field result ≡ field_of self.now.numbers.field }
    {
        if self.numbers.field == 1 {
            AnyField::One
        } else {
            AnyField::Two
        }
    }

    // The outer code.
    fn code(&self) -> ReedSolomon<AnyField>
        ensures { CodeOf self.now.numbers result.field result.root result.words result.length result.errors }
    {
        let Some(code) = ReedSolomon::new(
            self.field(),
            self.numbers.root,
            self.numbers.words,
            self.numbers.length,
            self.numbers.errors,
        ) else {
            unreachable()
        };
        code
    }

    // The plan and a carrier on which its stages cannot stand, as they were.
    fn back<C>(&self, carrier: C) -> Unstacked<Plan, C>
        ensures { (result.stage ≡ self.now) × (result.carrier ≡ carrier) }
    {
        Unstacked {
            stage: *self,
            carrier,
        }
    }

    // Sets the plan's stages on a carrier; hands it back where its body is of another length than the plan's words, or the stack would be more than 32 high.
    pub fn on<C: Carrier>(&self, carrier: C) -> Result<Coder<C>, Unstacked<Plan, C>>
        ensures { MatchResult result (λ s. (s.carrier.carrier.carrier.carrier ≡ carrier) × Coded self.now.numbers self.now.unit (C.Carrier.fits carrier) (C.Carrier.meaning carrier) (coder_meaning s.stage s.carrier.stage s.carrier.carrier.stage s.carrier.carrier.carrier.stage (C.Carrier.meaning s.carrier.carrier.carrier.carrier)) (CoderFits (C.Carrier.fits s.carrier.carrier.carrier.carrier) s.stage s.carrier.stage s.carrier.carrier.stage s.carrier.carrier.carrier.stage (C.Carrier.meaning s.carrier.carrier.carrier.carrier))) (λ u. (u.stage ≡ self.now) × (u.carrier ≡ carrier) × (C.Carrier.fits carrier → Unfitting self.now.numbers self.now.unit (C.Carrier.meaning carrier))) }
    {
        let low = match protect(self.code(), carrier) {
            Ok(low) => low,
            Err(apart) => return Err(self.back(apart.carrier)),
        };
        let middle = match Optional::new(self.randomiser(), low) {
            Ok(middle) => middle,
            Err(apart) => return Err(self.back(foot(apart.carrier))),
        };
        match Optional::new(self.check_byte(), middle) {
            Ok(coder) => Ok(coder),
            Err(apart) => {
                let (_, low) = apart.carrier.into_parts();
                Err(self.back(foot(low)))
            }
        }
    }
}
