// Reads whose answers are spent before anything else can fail.
ghost use Rattle.std.specs.Prelude.{◌≡◌, ◌+◌, ◌≢◌, IfOk};
ghost use Rattle.station.specs.Counting.{owed};
ghost use Rattle.station.specs.Runs.{one_if_ok};

use crate::desk::Desk;
use stack::carrier::Carrier;
use stack::corrections::Corrections;
use stack::fault::{Report, Reported};
use station::answer::{Given, PendingAnswer};
use station::counts::Counts;
use station::refusal::{ReadRefusal, Unanswered};
use station::tuned::{Owing, Tuned};
use std::fmt;

// What is said to a block.
#[derive(Clone, Copy, PartialEq, Eq, Debug)]
pub enum Verdict {
    Acknowledged,
    Declined,
}

impl fmt::Display for Verdict {
    fn fmt<W: fmt::Write>(&self, f: &mut fmt::Formatter<W>) -> fmt::Result {
        f.write_str(match self {
            Verdict::Acknowledged => "acknowledged",
            Verdict::Declined => "declined",
        })
    }
}

// A block that was read and answered.
#[derive(Clone, Copy, PartialEq, Eq, Debug)]
pub struct Taken {
    pub block: u32,
    pub corrections: Corrections,
    pub verdict: Verdict,
    // Whether the body is as it was sent.
    pub is_back: bool,
}

// Reads a block into the memory of the desk.
fn read<C: Carrier>(
    station: &mut Tuned<C>,
    desk: &mut Desk<C::Reading>,
) -> Result<Given, ReadRefusal>
    ensures own { IfOk result (λ g. g.answer.station ≡ station.old.number) }
    ensures owing { owed station.new.counts ≡ owed station.old.counts + one_if_ok result }
    ensures same { station.new.number ≡ station.old.number }
{
    station.read(
        &mut desk.first,
        &mut desk.second,
        &mut desk.steps,
        &desk.readings,
    )
}

// Spends an answer that the station owes: its block number.
fn spend<C: Carrier>(station: &mut Tuned<C>, answer: PendingAnswer, verdict: Verdict) -> u32
    requires own { answer.station ≡ station.old.number }
    requires owing { owed station.old.counts ≢ 0 }
    ensures { (result ≡ answer.block) × (owed station.new.counts + 1 ≡ owed station.old.counts) }
{
    let outcome = match verdict {
        Verdict::Acknowledged => station.acknowledge(answer),
        Verdict::Declined => station.decline(answer),
    };
    match outcome {
        Ok(block) => block,
        Err(_) => unreachable(),
    }
}

// Reads a block and answers it at once, or says why it was not read.
pub fn take<C: Carrier>(
    station: &mut Tuned<C>,
    desk: &mut Desk<C::Reading>,
    verdict: Verdict,
) -> Result<Taken, ReadRefusal>
    ensures { owed station.new.counts ≡ owed station.old.counts }
{
    let Given {
        corrections,
        answer,
    } = read(station, desk)?;
    let block = spend(station, answer, verdict);
    Ok(Taken {
        block,
        corrections,
        verdict,
        is_back: desk.is_back(),
    })
}

// A block whose answer went to another station first: that station's refusal, if it refused.
#[derive(Clone, Copy, PartialEq, Eq, Debug)]
pub struct Strayed {
    pub block: u32,
    pub refusal: Option<Report>,
}

// Reads a block and hands its answer to another station; what that one refuses goes back to its own station, which acknowledges it.
pub fn take_astray<C: Carrier, D: Carrier>(
    station: &mut Tuned<C>,
    other: &mut Tuned<D>,
    desk: &mut Desk<C::Reading>,
) -> Result<Strayed, ReadRefusal>
    ensures { (station.old.number ≢ other.old.number) → owed station.new.counts ≡ owed station.old.counts }
{
    let Given {
        corrections: _,
        answer,
    } = read(station, desk)?;
    match other.acknowledge(answer) {
        Ok(block) => Ok(Strayed {
            block,
            refusal: None,
        }),
        Err(refused) => {
            let refusal = Some(refused.report());
            let Unanswered { answer } = refused;
            let block = spend(station, answer, Verdict::Acknowledged);
            Ok(Strayed { block, refusal })
        }
    }
}

// A station that was asked to leave service while an answer was held, and that is still in service.
#[derive(Drop)]
pub struct Kept<C> {
    pub station: Tuned<C>,
    pub outcome: Result<Held, ReadRefusal>,
}

// A block whose answer was held: the counts and the refusal while it was.
#[derive(Clone, Copy, PartialEq, Eq, Debug)]
pub struct Held {
    pub block: u32,
    pub counts: Counts,
    pub refusal: Report,
}

// Reads a block, tries to untune before it is answered, and then declines it.
pub fn leave_early<C: Carrier>(mut station: Tuned<C>, desk: &mut Desk<C::Reading>) -> Kept<C>
    ensures { owed result.station.counts ≡ owed station.counts }
{
    match read(&mut station, desk) {
        Ok(given) => {
            let Given {
                corrections: _,
                answer,
            } = given;
            let counts = station.count();
            match station.untune() {
                Ok(_) => unreachable(),
                Err(owing) => {
                    let refusal = owing.report();
                    let Owing { mut station } = owing;
                    let block = spend(&mut station, answer, Verdict::Declined);
                    Kept {
                        station,
                        outcome: Ok(Held {
                            block,
                            counts,
                            refusal,
                        }),
                    }
                }
            }
        }
        Err(refusal) => Kept {
            station,
            outcome: Err(refusal),
        },
    }
}
