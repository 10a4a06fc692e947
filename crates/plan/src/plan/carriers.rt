// The carrier of a plan.
ghost use Rattle.std.specs.Prelude.{◌≡◌, true, false, MatchOption};
ghost use Rattle.limits.specs.Limits.{coded_length, rate_of, on_bare};

use crate::plan::Plan;
use limits::judge::rate_by_number;
use line::line::Line;
use readings::reading::Reading;
use stack::bare::Bare;

impl Plan {
    // The bare carrier of the plan, or none where it is on the line.
    pub fn bare(&self) -> Option<Bare>
        ensures { MatchOption result (on_bare self.now.numbers ≡ false) (λ b. (on_bare self.now.numbers ≡ true) × (b.length ≡ coded_length self.now.numbers)) }
    {
        if !self.is_bare() {
            return None;
        }
        Bare::new(self.coded_length())
    }

    // The line of the plan, for readings of a kind, or none where it is on the bare carrier.
    pub fn line<R: Reading>(&self) -> Option<Line<R>>
        ensures { MatchOption result (on_bare self.now.numbers ≡ true) (λ c. (on_bare self.now.numbers ≡ false) × (c.rate ≡ rate_of self.now.numbers.rate) × (c.helical.grid.rows ≡ self.now.numbers.rows) × (c.helical.grid.columns ≡ self.now.numbers.columns) × (c.length ≡ coded_length self.now.numbers)) }
    {
        if self.is_bare() {
            return None;
        }
        Line::new(
            rate_by_number(self.numbers.rate),
            self.numbers.rows,
            self.numbers.columns,
            self.coded_length(),
        )
    }
}
