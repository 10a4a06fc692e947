// The decoder of least cost.
ghost use Rattle.std.specs.Prelude.{◌≡◌, ℕ, ◌+◌, ◌-◌, ◌*◌, ◌^◌, ◌<◌, ◌≤◌, List, ◌++◌, reverse, take, drop, length, slice_index, slice_index_or};
ghost use Rattle.convolution.specs.Lanes.{Close, Costs, Masks, low_back, high_back, Selected, Turns};
ghost use Rattle.convolution.specs.Slots.{Small, free, all_costs, generator_at, window_cost, Ran, Decoded};
ghost use Rattle.convolution.specs.Code.{bits};
ghost use Rattle.convolution.specs.Trellis.{Tracks, back};

pub use crate::costs::StepCosts;
use crate::lanes;
use crate::marks::mark;
use crate::rate::Rate;
use std::marker::Model;
use std::simd::prelude::*;

// More than six steps can cost.
const FAR: u16 = 2305;

// The marks of a rate's generators at the windows 2s below 64, as masks.
#[derive(Clone, Copy)]
pub struct Generators {
    rate: Rate,
    first: u16x32,
    second: u16x32,
    third: u16x32,
    ghost one: { Masks (generator_at rate 0) first },
    ghost two: { Masks (generator_at rate 1) second },
    ghost three: { Masks (generator_at rate 2) third },
}

// The least costs into the 64 states (six newest bits, newest highest), less a common number.
#[derive(Clone, Copy)]
pub struct Metrics {
    low: u16x32,
    high: u16x32,
}

impl Model for Metrics {
    ghost Value = { List ℕ };

    ghost view = { λ m. m.low ++ m.high };

    ghost invariant = { λ m. Costs m.low m.high };

    ghost inverse = { λ ms. record { low = take 32 ms; high = drop 32 ms } };

    ghost inverse_ok = { λ m h i. record { low = low_back h i; high = high_back h i } };
}

// The marks of a generator at the windows 2s below 64, as masks.
fn masks(generator: u8) -> u16x32
    ensures { Masks generator result }
{
    u16x32::from_array(std::array::from_fn(|s| { 0xffff * mark(generator, 2 * s as u8) as u16 }))
}

// The generators of a rate.
impl From<Rate> for Generators {
    ghost from_gives = { λ rate g. g.rate ≡ rate };

    fn from(rate: Rate) -> Generators {
        match rate {
            Rate::Half | Rate::TwoThirds | Rate::ThreeQuarters => Generators {
                rate,
                first: masks(0o171),
                second: masks(0o133),
                third: masks(0o177),
            },
            Rate::Third => Generators {
                rate,
                first: masks(0o133),
                second: masks(0o145),
                third: masks(0o177),
            },
        }
    }
}

// The sum of all costs of a step.
fn total(c: StepCosts) -> u16
    ensures { result ≡ all_costs c }
{
    let [first, second, third] = c.marks;
    (first.zero as u16 + second.zero as u16 + third.zero as u16)
        + (first.one as u16 + second.one as u16 + third.one as u16)
}

// What the windows 2s below 64 cost.
fn price(generators: &Generators, c: StepCosts) -> u16x32
    ensures { (s : ℕ) → s < 32 → slice_index result s ≡ window_cost generators.now.rate c (2 * s) }
{
    let [first, second, third] = c.marks;
    let none = u16x32::splat(first.zero as u16 + second.zero as u16 + third.zero as u16);
    none + lanes::swing(generators.first, first)
        + lanes::swing(generators.second, second)
        + lanes::swing(generators.third, third)
}

// What the windows 2s below 64 cost, and what they cost with the oldest or the newest bit turned.
fn prices(generators: &Generators, c: StepCosts) -> (u16x32, u16x32)
    ensures { Turns (window_cost generators.now.rate c) result.0 result.1 }
{
    let same = price(generators, c);
    (same, lanes::turned(total(c), same))
}

// One step: the least costs after it, and bit s of the number says which bit left the window on the best way into state s.
fn advance(metrics: Metrics, generators: &Generators, c: StepCosts) -> (Metrics, u64)
    requires { Small c }
    ensures { (less : ℕ) × Selected (window_cost generators.now.rate c) less metrics result.0 result.1 }
{
    let (same, other) = prices(generators, c);
    let (l, h, d) = lanes::select(metrics.low, metrics.high, same, other);
    let (low, high) = lanes::rebase(l, h);
    (Metrics { low, high }, d)
}

impl Metrics {
    // Before the first step: state 0 costs nothing, every other more than six steps can.
    pub fn start() -> Metrics
        ensures tracks { (cost : ℕ → ℕ → ℕ) → Tracks cost 0 result }
        ensures close { Close result }
    {
        let mut low = [FAR; 32];
        low[0] = 0;
        Metrics {
            low: u16x32::from_array(low),
            high: u16x32::splat(FAR),
        }
    }

    // Runs some steps and stores the decisions of each: bit s says which bit left the window on the best way into state s.
    pub fn run(&mut self, generators: &Generators, costs: &[StepCosts], decisions: &mut [u64])
        requires long { length decisions.old ≡ length costs.now }
        requires small { (k : ℕ) → k < length costs.now → Small (slice_index_or costs.now k free) }
        ensures ran { Ran generators.now.rate costs.now (length costs.now) self.old self.new decisions.new }
        ensures close { Close self.new }
    {
        let mut metrics = *self;
        for (t, c) in costs.iter().enumerate() {
            let (next, d) = advance(metrics, generators, *c);
            metrics = next;
            decisions[t] = d;
        }
        let _ = &metrics.low;
        *self = metrics;
    }
}

// The byte whose bits leave the window in eight steps back, from the state after the last of them; the state before the first comes with it.
fn byte_back(decisions: &[u64], from: usize, after: u64) -> (u8, u64)
    requires long { from + 8 ≤ length decisions.now }
    requires state { after < 64 }
    ensures left { back decisions.now (from + 8) after ≡ reverse (bits result.0) ++ back decisions.now from result.1 }
    ensures state { result.1 < 64 }
{
    let mut byte = 0u64;
    let mut state = after;
    for (k, decision) in decisions[from..from + 8].iter().rev().enumerate() {
        let d = decision >> state & 1;
        byte |= d << k;
        state = (2 * state + d) % 64;
    }
    (byte as u8, state)
}

// The data bits of least cost: traces back from state 0 through all decisions, and writes the data bytes, highest bit first, the six tail bits dropped.
pub fn traceback(decisions: &[u64], body: &mut [u8])
    requires { length decisions.now ≡ 8 * length body.old + 6 }
    ensures { Decoded decisions.now body.new }
{
    let mut state = 0u64;
    for i in (0..body.len()).rev() {
        let (byte, before) = byte_back(decisions, 8 * i + 6, state);
        body[i] = byte;
        state = before;
    }
}
