// The syndromes of a word, all of them at once.
ghost use Rattle.std.specs.Prelude.{◌≡◌, ℕ, ◌+◌, ◌^◌, ◌<◌, ◌≤◌};
ghost use Rattle.outer.specs.ByteLists.{Bytes};
ghost use Rattle.outer.specs.Lanes.{lane, root, Are};
ghost use Rattle.outer.specs.Syndromes.{Syndromes};

use super::lanes::{Multiples, multiples_of};
use galois::field::Field;
use std::simd::prelude::*;

// The powers r, r + 1, .. , r + 31 of 02: each is the one before it times 02.
fn roots<F: Field>(field: &F, r: usize) -> [u8; 32]
    requires { r + 32 ≤ 2 ^ 64 }
    ensures { (l : ℕ) → l < 32 → lane result l ≡ root (F.Field.meaning field.now) r l }
{
    let mut roots = [0; 32];
    let mut next = field.power(r);
    for root in &mut roots {
        *root = next;
        next = field.mul(next, 2);
    }
    roots
}

// The multiples of the powers r, r + 1, .. , r + 31 of 02.
pub fn root_multiples<F: Field>(field: &F, r: usize) -> Multiples
    requires { r + 32 ≤ 2 ^ 64 }
    ensures { Are (F.Field.meaning field.now) (root (F.Field.meaning field.now) r) result.rows }
{
    multiples_of(field, &roots(field, r))
}

// The syndromes of a word: lane l has its value at the root of lane l.
pub fn syndromes(roots: &Multiples, word: &[u8]) -> [u8; 32]
    ensures lanes { Syndromes roots.now.rows word.now result }
    ensures small { (Bytes word.now) × (Bytes result) }
{
    let mut sums = u8x32::splat(0);
    for b in word {
        sums = roots.times(sums) ^ u8x32::splat(*b);
    }
    sums.to_array()
}
