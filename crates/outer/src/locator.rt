// The locator polynomial: one that annihilates the syndromes, whose zeros locate the errors.
ghost use Rattle.std.specs.Prelude.{◌<◌, ◌≤◌, length, MatchOption};
ghost use Rattle.outer.specs.Lanes.{Are};
ghost use Rattle.outer.specs.Cutting.{always, Scales, Scaled, MovedOn, Applies, Power, Powers, Fails, Clears, ClearsAll, Cuts, Annihilator};

pub use super::lanes::moved;
use super::lanes::{Multiples, Row};
use arrayvec::ArrayVec;
use galois::field::Field;
use std::array;
use std::simd::prelude::*;

// The multiples of one constant in every lane.
pub fn scalar_multiples<F: Field>(field: &F, k: u8) -> Multiples
    ensures { Are (F.Field.meaning field.now) (always k) result.rows }
{
    Multiples {
        rows: array::from_fn(|i| Row {
            lanes: u8x32::splat(field.mul(k, 1 << i)),
        }),
    }
}

// The multiples of the bytes 1, 2, 4, .. , 128, each in every lane.
pub fn scales<F: Field>(field: &F) -> [Multiples; 8]
    ensures { Scales (F.Field.meaning field.now) result }
{
    array::from_fn(|i| scalar_multiples(field, 1 << i))
}

// The multiples of a vector's bytes, a row at once.
pub fn lane_multiples(scales: &[Multiples; 8], v: u8x32) -> Multiples
    ensures { Scaled scales.now v result.rows }
{
    Multiples {
        rows: array::from_fn(|i| Row {
            lanes: scales[i].times(v),
        }),
    }
}

// The multiples of the next lanes' constants, and of 0 in the last.
fn next_lanes(constants: &Multiples) -> Multiples
    ensures { MovedOn constants.now.rows result.rows }
{
    Multiples {
        rows: constants.rows.map(|row| Row {
            lanes: moved(row.lanes),
        }),
    }
}

// A polynomial, applied to the constants: the products of all lanes, summed.
fn applied_to(constants: &Multiples, polynomial: u8x32) -> u8
    ensures { Applies constants.now.rows polynomial result }
{
    constants.times(polynomial).reduce_xor()
}

// The polynomial x^b.
fn power(b: usize) -> u8x32
    requires { b < 32 }
    ensures { Power b result }
{
    let mut lanes = [0; 32];
    lanes[b] = 1;
    u8x32::from_array(lanes)
}

// Polynomials, at most 17, a coefficient in each lane.
type Polynomials = ArrayVec<Row, 17>;

// The polynomials 1, x, x^2, .. , x^16.
fn powers() -> [Row; 17]
    ensures { Powers result }
{
    array::from_fn(|b| Row { lanes: power(b) })
}

// The first of some polynomials that does not give 0, or none if all do.
fn first_failing(equation: &Multiples, polynomials: &[Row]) -> Option<usize>
    ensures { MatchOption result (Fails equation.now.rows polynomials.now (length polynomials.now) (length polynomials.now)) (λ b. (b < length polynomials.now) × Fails equation.now.rows polynomials.now (length polynomials.now) b) }
{
    polynomials
        .iter()
        .position(|polynomial| applied_to(equation, polynomial.lanes) != 0)
}

// A polynomial, with the multiple of the pivot added that makes it give 0.
fn cleared<F: Field>(
    field: &F,
    equation: &Multiples,
    pivot: &Multiples,
    inverse: u8,
    v: u8x32,
) -> u8x32
    ensures { Clears (F.Field.meaning field.now) equation.now.rows pivot.now.rows inverse v result }
{
    let factor = field.mul(applied_to(equation, v), inverse);
    v ^ pivot.times(u8x32::splat(factor))
}

// The pivot, polynomial b, goes, and each behind it comes one place forward, cleared.
fn clear<F: Field>(
    field: &F,
    equation: &Multiples,
    scales: &[Multiples; 8],
    polynomials: &mut [Row],
    b: usize,
)
    requires { b < length polynomials.old }
    ensures { ClearsAll (F.Field.meaning field.now) equation.now.rows scales.now (length polynomials.old) b polynomials.old polynomials.new }
{
    let pivot = polynomials[b].lanes;
    let inverse = field.inverse(applied_to(equation, pivot));
    let multiples = lane_multiples(scales, pivot);
    for c in b..polynomials.len() - 1 {
        let lanes = cleared(
            field,
            equation,
            &multiples,
            inverse,
            polynomials[c + 1].lanes,
        );
        polynomials[c] = Row { lanes };
    }
}

// The first polynomial that fails one equation more goes, and those that are left meet it too.
fn cut<F: Field>(
    field: &F,
    equation: &Multiples,
    scales: &[Multiples; 8],
    polynomials: &mut Polynomials,
)
    ensures { Cuts (F.Field.meaning field.now) equation.now.rows scales.now (length polynomials.old.items) (length polynomials.new.items) polynomials.old.items polynomials.new.items }
{
    if let Some(b) = first_failing(equation, polynomials.as_slice()) {
        clear(field, equation, scales, polynomials.as_mut_slice(), b);
        polynomials.pop();
    }
}

// A polynomial, not zero, with e + 1 coefficients, lowest first, that annihilates the syndromes.
pub fn annihilator<F: Field>(field: &F, syndromes: &[u8; 32], e: usize) -> [u8; 32]
    requires { (1 ≤ e) × (e ≤ 16) }
    ensures { Annihilator (F.Field.meaning field.now) e syndromes.now result }
{
    let scales = scales(field);
    let mut equation = lane_multiples(&scales, u8x32::from_array(*syndromes));
    let mut polynomials = Polynomials::from(powers());
    polynomials.truncate(e + 1);
    for _j in 0..e {
        cut(field, &equation, &scales, &mut polynomials);
        equation = next_lanes(&equation);
    }
    polynomials.as_slice()[0].lanes.to_array()
}
