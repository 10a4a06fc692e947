// A station in service on a carrier.
ghost use Rattle.std.specs.Prelude.{◌≡◌, ◌+◌, ◌*◌, ◌≤◌, MatchResult, ◌≢◌};
ghost use Rattle.station.specs.Counting.{fresh, owed, spent};
ghost use Rattle.station.specs.Events.{Step, Acknowledged, Declined, Counted};
ghost use Rattle.station.specs.Calls.{WriteCall, ReadCall};
ghost use Rattle.station.specs.Promise.{Promise};
ghost use Rattle.station.specs.Refusals.{owing_report};

use crate::answer::{Given, PendingAnswer};
use crate::counts::Counts;
use crate::idle::Idle;
use crate::refusal::{ReadRefusal, Refused, Unanswered, WriteRefusal};
use stack::carrier::Carrier;
use stack::fault::{Report, Reported};

// The most blocks that a station writes, and the most reads that it tries.
const MOST: u32 = 65535;

// A tuned station: its number, its counts, and the carrier that it writes and reads on.
#[derive(Drop)]
pub struct Tuned<C> {
    number: u32,
    counts: Counts,
    carrier: C,
    ghost written_high: { counts.written ≤ 65535 },
    ghost tried_high: { counts.tried ≤ 65535 },
    ghost tried_all: { counts.tried ≡ counts.given + counts.refused },
    ghost answered: { counts.acknowledged + counts.declined ≤ counts.given },
    ghost symbols_high: { counts.symbols ≤ 4294967295 * counts.given },
    ghost bytes_high: { counts.bytes ≤ 4294967295 * counts.given },
}

// What an untuned station leaves: the idle station, its carrier, and the counts.
#[derive(Drop)]
pub struct Untuned<C> {
    pub idle: Idle,
    pub carrier: C,
    pub counts: Counts,
}

// A station that owes answers, handed back.
#[derive(Drop)]
pub struct Owing<C> {
    pub station: Tuned<C>,
}

impl<C> Reported for Owing<C> {
    ghost told = { λ _. owing_report };

    fn report(&self) -> Report {
        Report::numbered(8)
    }
}

impl Idle {
    // Puts the station in service on a carrier, with all counts 0.
    pub fn tune<C: Carrier>(self, carrier: C) -> Tuned<C>
        ensures tuned { (result.number ≡ self.number) × (result.carrier ≡ carrier) × (result.counts ≡ fresh) }
        ensures promise { C.Carrier.fits carrier → Promise (C.Carrier.meaning carrier) self.number }
    {
        Tuned {
            number: self.number,
            counts: Counts::default(),
            carrier,
        }
    }
}

impl<C: Carrier> Tuned<C> {
    // Writes the body at the front of `first` as one block.
    pub fn write(
        &mut self,
        first: &mut [u8],
        second: &mut [u8],
        symbols: &mut [u8],
    ) -> Result<(), WriteRefusal>
        ensures called { WriteCall (C.Carrier.fits self.old.carrier) (C.Carrier.meaning self.old.carrier) self.old.number self.old.counts first.old second.old symbols.old result self.new.counts first.new second.new symbols.new }
        ensures same { (self.new.number ≡ self.old.number) × (self.new.carrier ≡ self.old.carrier) }
    {
        self.carrier.judge_put(first, second, symbols)?;
        if self.counts.written == MOST {
            return Err(Refused::Full);
        }
        self.carrier.send(first, second, symbols);
        self.counts.written += 1;
        Ok(())
    }

    // Reads a block: its body to the front of `first`, what was corrected, and the answer that is owed for it.
    pub fn read(
        &mut self,
        first: &mut [u8],
        second: &mut [u8],
        steps: &mut [u64],
        readings: &[C::Reading],
    ) -> Result<Given, ReadRefusal>
        ensures called { ReadCall (C.Carrier.fits self.old.carrier) (C.Carrier.meaning self.old.carrier) self.old.number self.old.counts first.old second.old steps.old readings.now result self.new.counts first.new second.new steps.new }
        ensures same { (self.new.number ≡ self.old.number) × (self.new.carrier ≡ self.old.carrier) }
    {
        self.carrier.judge_get(first, second, steps, readings)?;
        if self.counts.tried == MOST {
            return Err(Refused::Full);
        }
        let outcome = self.carrier.receive(first, second, steps, readings);
        self.counts.tried += 1;
        match outcome {
            Ok(corrections) => {
                self.counts.given += 1;
                self.counts.symbols += u64::from(corrections.symbols);
                self.counts.bytes += u64::from(corrections.bytes);
                Ok(Given {
                    corrections,
                    answer: PendingAnswer {
                        station: self.number,
                        block: self.counts.tried,
                    },
                })
            }
            Err(fault) => {
                self.counts.refused += 1;
                Err(Refused::Carrier(fault.into()))
            }
        }
    }

    // Ends an answer that is this station's and owed, and gives its block number.
    fn spend(&self, answer: PendingAnswer) -> Result<u32, Unanswered>
        ensures { result ≡ spent self.now.number self.now.counts answer }
    {
        if answer.station != self.number || self.counts.owed() == 0 {
            return Err(Unanswered { answer });
        }
        let PendingAnswer { station: _, block } = answer;
        Ok(block)
    }

    // Spends an answer: the block was taken. Answers its number.
    pub fn acknowledge(&mut self, answer: PendingAnswer) -> Result<u32, Unanswered>
        ensures called { Step (C.Carrier.meaning self.old.carrier) self.old.number self.old.counts (Acknowledged answer result) self.new.counts }
        ensures same { (self.new.number ≡ self.old.number) × (self.new.carrier ≡ self.old.carrier) }
    {
        let block = self.spend(answer)?;
        self.counts.acknowledged += 1;
        Ok(block)
    }

    // Spends an answer: the block was not taken. Answers its number.
    pub fn decline(&mut self, answer: PendingAnswer) -> Result<u32, Unanswered>
        ensures called { Step (C.Carrier.meaning self.old.carrier) self.old.number self.old.counts (Declined answer result) self.new.counts }
        ensures same { (self.new.number ≡ self.old.number) × (self.new.carrier ≡ self.old.carrier) }
    {
        let block = self.spend(answer)?;
        self.counts.declined += 1;
        Ok(block)
    }

    // The counts.
    pub fn count(&self) -> Counts
        ensures { Step (C.Carrier.meaning self.now.carrier) self.now.number self.now.counts (Counted result) self.now.counts }
    {
        let Tuned { counts, .. } = self;
        *counts
    }

    // Takes the station out of service, unless it owes answers.
    pub fn untune(self) -> Result<Untuned<C>, Owing<C>>
        ensures { MatchResult result (λ u. (owed self.counts ≡ 0) × (u.idle.number ≡ self.number) × (u.carrier ≡ self.carrier) × (u.counts ≡ self.counts)) (λ o. (owed self.counts ≢ 0) × (o.station ≡ self)) }
    {
        if self.counts.owed() != 0 {
            return Err(Owing { station: self });
        }
        let Tuned {
            number,
            counts,
            carrier,
        } = self;
        Ok(Untuned {
            idle: Idle { number },
            carrier,
            counts,
        })
    }
}
