// A plan whose numbers are within their limits.
ghost use Rattle.std.specs.Prelude.{◌≡◌, ◌%◌, ◌≤◌, true, Some, None, MatchResult};
ghost use Rattle.limits.specs.Limits.{first_out, within, data_length, coded_length, body_length, on_bare, air_length, step_count};

mod calls;
mod carriers;
pub mod coder;

use limits::judge::first_wrong;
use limits::numbers::{PlanNumber, PlanNumbers};

// Judged numbers, and the unit of bytes at which the randomiser starts anew.
#[derive(Clone, Copy, Debug, PartialEq, Eq)]
pub struct Plan {
    numbers: PlanNumbers,
    unit: usize,
    ghost within: { within numbers ≡ true },
    ghost unit_low: { 1 ≤ unit },
    ghost whole: { data_length numbers % unit ≡ 0 },
}

impl Plan {
    // The plan of eleven numbers, its data one unit, or the first number that is out of its limit.
    pub fn new(numbers: PlanNumbers) -> Result<Plan, PlanNumber>
        ensures { MatchResult result (λ p. (p.numbers ≡ numbers) × (p.unit ≡ data_length numbers) × (first_out numbers ≡ None)) (λ w. first_out numbers ≡ Some w) }
    {
        first_wrong(numbers)?;
        Ok(Plan {
            numbers,
            unit: numbers.words * numbers.length,
        })
    }

    // The plan of numbers that are known to be within their limits, in units that divide its data.
    pub(crate) fn in_units(numbers: PlanNumbers, unit: usize) -> Plan
        requires { (within numbers ≡ true) × ((1 ≤ unit) × (data_length numbers % unit ≡ 0)) }
        ensures { (result.numbers ≡ numbers) × (result.unit ≡ unit) }
    {
        Plan { numbers, unit }
    }

    // Whether the plan's carrier is the bare one.
    pub fn is_bare(&self) -> bool
        ensures { result ≡ on_bare self.now.numbers }
    {
        self.numbers.carrier == 0
    }

    // The number of bytes of all words.
    pub fn coded_length(&self) -> usize
        ensures { result ≡ coded_length self.now.numbers }
    {
        self.numbers.words * (self.numbers.length + 2 * self.numbers.errors)
    }

    // The length of a body.
    pub fn body_length(&self) -> usize
        ensures { result ≡ body_length self.now.numbers }
    {
        self.numbers.words * self.numbers.length - self.numbers.check
    }

    // The number of symbols of a block.
    pub fn air_length(&self) -> usize
        ensures { result ≡ air_length self.now.numbers }
    {
        if self.is_bare() {
            self.coded_length()
        } else {
            self.numbers.rows * self.numbers.columns
        }
    }

    // How long the step buffer must be at least for a read.
    pub fn step_need(&self) -> usize
        ensures { result ≡ step_count self.now.numbers }
    {
        if self.is_bare() {
            0
        } else {
            8 * self.coded_length() + 6
        }
    }
}
