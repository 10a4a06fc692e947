// The check bytes of data, by division by the generator polynomial.
ghost use Rattle.std.specs.Prelude.{◌≡◌, ℕ, ◌+◌, ◌^◌, ◌<◌, ◌≤◌, ◌∷◌, bit_xor};
ghost use Rattle.outer.specs.Lanes.{lane, Are};
ghost use Rattle.outer.specs.Encoder.{coefficient, Advanced, Checks};

pub use super::lanes::NEXT;
use super::lanes::{Multiples, moved, multiples_of};
use galois::field::Field;
use std::simd::prelude::*;

// Multiplies a polynomial by x + a: the coefficients behind the leading 1, which has no lane.
fn multiply_by_root<F: Field>(field: &F, lower: &mut [u8; 32], a: u8)
    ensures { (l : ℕ) → l < 32 → lane lower.new l ≡ bit_xor (lane lower.old l) ((F.Field.meaning field.now).mul a (lane (1 ∷ lower.old) l)) }
{
    let mut last = 1;
    for coefficient in lower.iter_mut() {
        let product = field.mul(a, last);
        last = *coefficient;
        *coefficient ^= product;
    }
}

// The coefficients of the generator polynomial behind the leading 1, highest first, and zeros behind them.
pub fn generator<F: Field>(field: &F, r: usize, c: usize) -> [u8; 32]
    requires { r + c ≤ 2 ^ 64 }
    ensures { (l : ℕ) → l < 32 → lane result l ≡ coefficient (F.Field.meaning field.now) r c l }
{
    let mut lower = [0; 32];
    for j in 0..c {
        multiply_by_root(field, &mut lower, field.power(r + j));
    }
    lower
}

// The multiples of the generator's coefficients, to divide by it.
pub fn generator_multiples<F: Field>(field: &F, r: usize, c: usize) -> Multiples
    requires { r + c ≤ 2 ^ 64 }
    ensures { Are (F.Field.meaning field.now) (coefficient (F.Field.meaning field.now) r c) result.rows }
{
    multiples_of(field, &generator(field, r, c))
}

// The remainder after one data byte more.
fn advance(generator: &Multiples, checks: u8x32, byte: u8) -> u8x32
    ensures { Advanced generator.now.rows checks byte result }
{
    let feedback = checks.to_array()[0] ^ byte;
    moved(checks) ^ generator.times(u8x32::splat(feedback))
}

// The check bytes of these data bytes, in as many lanes as the generator has roots.
pub fn check_bytes(generator: &Multiples, bytes: &[u8]) -> [u8; 32]
    ensures { Checks generator.now.rows bytes.now result }
{
    let mut checks = u8x32::splat(0);
    for byte in bytes {
        checks = advance(generator, checks, *byte);
    }
    checks.to_array()
}
