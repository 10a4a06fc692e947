// The body of least cost from the readings of a block.
ghost use Rattle.std.specs.Prelude.{◌≡◌, ℕ, ◌+◌, ◌*◌, ◌<◌, ◌≤◌, true, false, ◌&&◌, ◌++◌, length, if◌then◌else◌, nat_lt, slice_index, slice_index_or};
ghost use Rattle.convolution.specs.Code.{all_bits, bit, generators, keeps, marks, marks_before};
ghost use Rattle.convolution.specs.Slots.{Decided, Priced, Prices, Small, free};
ghost use Rattle.line.specs.Line.{Chosen, Went, block_size, dear, rule_prices};

use crate::sending::spot;
use convolution::costs::{MarkCosts, StepCosts};
use convolution::encoder::Encoder;
use convolution::rate::Rate;
use convolution::viterbi::{Generators, Metrics, traceback};
use readings::helical::Helical;
use readings::reading::Reading;

// Which generators of a rate have their mark kept at a step.
fn kept(rate: Rate, step: usize) -> [bool; 3]
    ensures { (g : ℕ) → g < 3 → slice_index_or result g false ≡ (nat_lt g (length (generators rate)) && keeps rate step g) }
{
    match rate {
        Rate::Half => [true, true, false],
        Rate::TwoThirds => [step % 2 == 0, true, false],
        Rate::ThreeQuarters => [step % 3 != 1, step % 3 != 2, false],
        Rate::Third => [true, true, true],
    }
}

// The readings of a block, at the places of its symbols.
#[derive(Drop)]
pub struct Received<'a, R> {
    pub rate: Rate,
    pub rule: Helical,
    pub readings: &'a [R],
    ghost long: { length readings.now ≡ block_size rule },
}

impl<'a, R: Reading> Received<'a, R> {
    // What reading i costs.
    fn costs_at(&self, i: usize) -> MarkCosts
        requires { i < block_size self.now.rule }
        ensures zero { result.zero ≡ rule_prices R.Reading.cost self.now.rule self.now.readings.now i 0 }
        ensures one { result.one ≡ rule_prices R.Reading.cost self.now.rule self.now.readings.now i 1 }
        ensures small { (result.zero ≤ 128) × (result.one ≤ 128) }
    {
        let (zero, one) = self.readings[spot(self.rule, i)].costs();
        MarkCosts { zero, one }
    }

    // What reading i costs if its mark is kept, and the next reading; a mark that is dropped costs nothing.
    fn slot_costs(&self, kept: bool, i: usize) -> (MarkCosts, usize)
        requires { i + bit kept ≤ block_size self.now.rule }
        ensures zero { result.0.zero ≡ (if kept then rule_prices R.Reading.cost self.now.rule self.now.readings.now i 0 else 0) }
        ensures one { result.0.one ≡ (if kept then rule_prices R.Reading.cost self.now.rule self.now.readings.now i 1 else 0) }
        ensures next { result.1 ≡ i + bit kept }
        ensures small { (result.0.zero ≤ 128) × (result.0.one ≤ 128) }
    {
        if kept {
            (self.costs_at(i), i + 1)
        } else {
            (MarkCosts::default(), i)
        }
    }

    // The costs of a step whose first kept mark has reading i, and the reading after the step's.
    fn step_costs(&self, step: usize, i: usize) -> (StepCosts, usize)
        requires at { i ≡ marks_before self.now.rate step }
        requires inside { marks_before self.now.rate (step + 1) ≤ block_size self.now.rule }
        ensures priced { Prices self.now.rate (rule_prices R.Reading.cost self.now.rule self.now.readings.now) step result.0 }
        ensures small { Small result.0 }
        ensures next { result.1 ≡ marks_before self.now.rate (step + 1) }
    {
        let [k0, k1, k2] = kept(self.rate, step);
        let (first, i1) = self.slot_costs(k0, i);
        let (second, i2) = self.slot_costs(k1, i1);
        let (third, i3) = self.slot_costs(k2, i2);
        let marks = [first, second, third];
        (StepCosts { marks }, i3)
    }

    // The costs of the steps from `from` on.
    fn fill_costs(&self, from: usize, costs: &mut [StepCosts])
        requires { marks_before self.now.rate (from + length costs.old) ≤ block_size self.now.rule }
        ensures priced { Priced self.now.rate (rule_prices R.Reading.cost self.now.rule self.now.readings.now) from costs.new }
        ensures small { (k : ℕ) → k < length costs.new → Small (slice_index_or costs.new k free) }
    {
        let mut next = self.rate.mark_count(from);
        for (k, cost) in costs.iter_mut().enumerate() {
            let (c, after) = self.step_costs(from + k, next);
            *cost = c;
            next = after;
        }
    }

    // Runs the steps from `from` on, and stores their decisions.
    fn run_steps(
        &self,
        generators: &Generators,
        metrics: &mut Metrics,
        from: usize,
        costs: &mut [StepCosts],
        decisions: &mut [u64],
    )
        requires same { generators.now.rate ≡ self.now.rate }
        requires long { length decisions.old ≡ length costs.old }
        requires inside { marks_before self.now.rate (from + length costs.old) ≤ block_size self.now.rule }
        ensures { Went self.now.rate (rule_prices R.Reading.cost self.now.rule self.now.readings.now) from (length costs.old) metrics.old metrics.new decisions.new }
    {
        self.fill_costs(from, costs);
        metrics.run(generators, costs, decisions);
    }

    // Stores the decisions of all steps.
    fn decide(&self, decisions: &mut [u64])
        requires { marks_before self.now.rate (length decisions.old) ≤ block_size self.now.rule }
        ensures { Decided self.now.rate (rule_prices R.Reading.cost self.now.rule self.now.readings.now) decisions.new }
    {
        let generators = Generators::from(self.rate);
        let mut metrics = Metrics::start();
        let mut costs = [StepCosts::default(); 64];
        for from in (0..decisions.len()).step_by(64) {
            let count = (decisions.len() - from).min(64);
            let part = &mut decisions[from..from + count];
            self.run_steps(&generators, &mut metrics, from, &mut costs[..count], part);
        }
    }

    // How many marks cost more than 0, the first of them against reading i.
    fn count_marks(&self, i: usize, marks: &[u8]) -> u32
        requires inside { i + length marks.now ≤ block_size self.now.rule }
        requires marks { (k : ℕ) → slice_index marks.now k < 2 }
        ensures { result ≡ dear (rule_prices R.Reading.cost self.now.rule self.now.readings.now) i marks.now }
    {
        let mut count = 0;
        for (k, mark) in marks.iter().enumerate() {
            let costs = self.costs_at(i + k);
            let cost = if *mark == 0 { costs.zero } else { costs.one };
            count += (cost > 0) as u32;
        }
        count
    }

    // How many of a body's marks cost more than 0.
    fn count_body(&self, body: &[u8]) -> u32
        requires { marks_before self.now.rate (8 * length body.now + 6) ≤ block_size self.now.rule }
        ensures { result ≡ dear (rule_prices R.Reading.cost self.now.rule self.now.readings.now) 0 (marks self.now.rate (all_bits body.now)) }
    {
        let mut encoder = Encoder::new(self.rate);
        let mut i = 0;
        let mut total = 0;
        for byte in body {
            let marks = encoder.byte(*byte);
            let marks = marks.as_slice();
            total += self.count_marks(i, marks);
            i += marks.len();
        }
        let marks = encoder.tail();
        total + self.count_marks(i, marks.as_slice())
    }

    // Writes the body of least cost, with the decisions of all steps on the way, and answers how many of its marks cost more than 0.
    pub fn read_body(&self, decisions: &mut [u64], body: &mut [u8]) -> u32
        requires steps { length decisions.old ≡ 8 * length body.old + 6 }
        requires inside { marks_before self.now.rate (8 * length body.old + 6) ≤ block_size self.now.rule }
        ensures { Chosen self.now.rate (rule_prices R.Reading.cost self.now.rule self.now.readings.now) (length body.old) body.new result }
    {
        self.decide(decisions);
        traceback(decisions, body);
        self.count_body(body)
    }
}
