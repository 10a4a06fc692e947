// Judging the eleven numbers of a plan.
ghost use Rattle.std.specs.Prelude.{◌≡◌, ◌*◌, ◌≤◌, ◌&&◌, None, Some, MatchResult, nat_le, true, false, ◌+◌};
ghost use Rattle.convolution.specs.Code.{marks_before};
ghost use Rattle.limits.specs.Limits.{code_limits, stage_limits, carrier_limits, first_wrong, first_out, judged, plan_report, rate_of, coded_length, between};

use crate::numbers::{PlanNumber, PlanNumbers};
use convolution::rate::Rate;
use stack::fault::{Report, Reported};

// The rate of a number from 1 to 4.
fn rate(number: usize) -> Result<Rate, PlanNumber>
    ensures { MatchResult result (λ r. (between 1 4 number ≡ true) × (r ≡ rate_of number)) (λ w. (between 1 4 number ≡ false) × (w ≡ PlanNumber.Rate)) }
{
    match number {
        1 => Ok(Rate::Half),
        2 => Ok(Rate::TwoThirds),
        3 => Ok(Rate::ThreeQuarters),
        4 => Ok(Rate::Third),
        _ => Err(PlanNumber::Rate),
    }
}

// The rate of a number from 1 to 4, one third for any other.
pub fn rate_by_number(number: usize) -> Rate
    ensures { result ≡ rate_of number }
{
    rate(number).unwrap_or(Rate::Third)
}

// The first number, in their order, that is out of its limit, refuses them.
pub fn first_wrong(p: PlanNumbers) -> Result<(), PlanNumber>
    ensures { result ≡ judged (first_out p) }
{
    let coded = Coded::new(p)?;
    coded.judge_stages()?;
    coded.judge_carrier()
}

// Numbers whose outer code is within its limits.
#[derive(Clone, Copy)]
struct Coded {
    numbers: PlanNumbers,
    ghost words: { numbers.words ≤ 16 },
    ghost length: { numbers.length ≤ 253 },
    ghost errors: { numbers.errors ≤ 16 },
}

impl Coded {
    // Judges the numbers of the outer code.
    fn new(p: PlanNumbers) -> Result<Coded, PlanNumber>
        ensures { MatchResult result (λ c. (c.numbers ≡ p) × (first_wrong (code_limits p) ≡ None)) (λ w. first_wrong (code_limits p) ≡ Some w) }
    {
        if !(1..=2).contains(&p.field) {
            return Err(PlanNumber::Field);
        }
        if p.root > 254 {
            return Err(PlanNumber::Root);
        }
        if !(1..=16).contains(&p.words) {
            return Err(PlanNumber::Words);
        }
        if !(1..=253).contains(&p.length) {
            return Err(PlanNumber::Length);
        }
        if !(1..=16).contains(&p.errors) || p.length + 2 * p.errors > 255 {
            return Err(PlanNumber::Errors);
        }
        Ok(Coded { numbers: p })
    }

    // Judges the numbers of the stages above the outer code.
    fn judge_stages(&self) -> Result<(), PlanNumber>
        ensures { result ≡ judged (first_wrong (stage_limits self.now.numbers)) }
    {
        let p = self.numbers;
        if p.seed > 32767 {
            return Err(PlanNumber::Seed);
        }
        if p.check > 1 || p.words * p.length <= p.check {
            return Err(PlanNumber::Check);
        }
        Ok(())
    }

    // Judges the numbers of the carrier.
    fn judge_carrier(&self) -> Result<(), PlanNumber>
        ensures { result ≡ judged (first_wrong (carrier_limits self.now.numbers)) }
    {
        match self.numbers.carrier {
            0 => self.judge_bare(),
            1 => self.judge_line(),
            _ => Err(PlanNumber::Carrier),
        }
    }

    // Judges the last three numbers on the bare carrier, where each is 0.
    fn judge_bare(&self) -> Result<(), PlanNumber>
        ensures { self.now.numbers.carrier ≡ 0 → result ≡ judged (first_wrong (carrier_limits self.now.numbers)) }
    {
        let p = self.numbers;
        if p.rate != 0 {
            return Err(PlanNumber::Rate);
        }
        if p.rows != 0 {
            return Err(PlanNumber::Rows);
        }
        if p.columns != 0 {
            return Err(PlanNumber::Columns);
        }
        Ok(())
    }

    // Judges the rate, rows and columns of the line.
    fn judge_line(&self) -> Result<(), PlanNumber>
        ensures { self.now.numbers.carrier ≡ 1 → result ≡ judged (first_wrong (carrier_limits self.now.numbers)) }
    {
        let p = self.numbers;
        let rate = rate(p.rate)?;
        if p.rows < 1 {
            return Err(PlanNumber::Rows);
        }
        if !self.columns_fit(rate) {
            return Err(PlanNumber::Columns);
        }
        Ok(())
    }

    // Whether the columns of the line have room for the marks, at most 98,304 symbols in all.
    fn columns_fit(&self, rate: Rate) -> bool
        ensures { result ≡ (nat_le 1 self.now.numbers.columns && between (marks_before rate (8 * coded_length self.now.numbers + 6)) 98304 (self.now.numbers.rows * self.now.numbers.columns)) }
    {
        let p = self.numbers;
        let steps = 8 * (p.words * (p.length + 2 * p.errors)) + 6;
        let marks = rate.mark_count(steps);
        p.rows
            .checked_mul(p.columns)
            .is_some_and(|room| p.columns >= 1 && marks <= room && room <= 98304)
    }
}

// A plan is refused for one of its numbers by number 1, with its position among the eleven, from 1.
impl Reported for PlanNumber {
    ghost told = { plan_report };

    fn report(&self) -> Report {
        let place = match *self {
            PlanNumber::Field => 1,
            PlanNumber::Root => 2,
            PlanNumber::Words => 3,
            PlanNumber::Length => 4,
            PlanNumber::Errors => 5,
            PlanNumber::Seed => 6,
            PlanNumber::Check => 7,
            PlanNumber::Carrier => 8,
            PlanNumber::Rate => 9,
            PlanNumber::Rows => 10,
            PlanNumber::Columns => 11,
        };
        Report {
            number: 1,
            depth: 0,
            place,
        }
    }
}
