// Why a station refuses, with each refusal's number, depth and place.
ghost use Rattle.std.specs.Prelude.{◌≡◌};
ghost use Rattle.station.specs.Refusals.{refused_report, unanswered_report, CarrierSays};

use crate::answer::PendingAnswer;
use stack::fault::{Misfit, Refusal, Report, Reported};

// Why a write or a read is refused.
#[derive(Clone, Copy, PartialEq, Eq, Debug)]
pub enum Refused<E> {
    // 65,535 blocks were written, or 65,535 reads were tried.
    Full,
    // What the carrier says.
    Carrier(E),
}

// Why a write is refused: the carrier says that what was lent does not fit.
pub type WriteRefusal = Refused<Misfit>;

// Why a read is refused: the carrier says so too where the readings give no body.
pub type ReadRefusal = Refused<Refusal>;

// An answer that is not accepted, handed back: it is another station's, or none is owed.
pub struct Unanswered {
    pub answer: PendingAnswer,
}

impl<E: Reported> Reported for Refused<E> {
    ghost told = { refused_report E.told };

    fn report(&self) -> Report {
        match self {
            Refused::Full => Report::numbered(9),
            Refused::Carrier(refusal) => refusal.report(),
        }
    }
}

impl Reported for Unanswered {
    ghost told = { λ _. unanswered_report };

    fn report(&self) -> Report {
        Report::numbered(7)
    }
}

impl<E: From<Misfit>> From<Misfit> for Refused<E> {
    ghost from_gives = { λ m r. CarrierSays (E.from_gives m) r };

    fn from(misfit: Misfit) -> Refused<E> {
        Refused::Carrier(E::from(misfit))
    }
}
