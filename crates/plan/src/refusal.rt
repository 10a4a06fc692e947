// Why a call by a plan refuses readings.
ghost use Rattle.std.specs.Prelude.{◌≡◌};
ghost use Rattle.plan.specs.Refusals.{plan_reported, refused_by_plan};

use limits::numbers::PlanNumber;
use stack::fault::{Refusal, Report, Reported};

// The readings are of the other carrier than the plan's, or the plan's stack refuses them.
#[derive(Clone, Copy, Debug, PartialEq, Eq)]
pub enum PlanRefusal {
    OtherCarrier,
    Stack(Refusal),
}

impl Reported for PlanRefusal {
    ghost told = { plan_reported };

    fn report(&self) -> Report {
        match *self {
            PlanRefusal::OtherCarrier => PlanNumber::Carrier.report(),
            PlanRefusal::Stack(refusal) => refusal.report(),
        }
    }
}

impl From<Refusal> for PlanRefusal {
    ghost from_gives = { λ f r. r ≡ refused_by_plan f };

    fn from(refusal: Refusal) -> PlanRefusal {
        PlanRefusal::Stack(refusal)
    }
}
