// The places of a word at whose locators a polynomial is zero.
ghost use Rattle.std.specs.Prelude.{◌≡◌, ℕ, ◌+◌, ◌*◌, ◌<◌, ◌≤◌, List, [], ◌∷◌, ◌++◌, length, take, drop};
ghost use Rattle.galois.specs.Bytes.{power};
ghost use Rattle.outer.specs.Lanes.{lane};
ghost use Rattle.outer.specs.Decoding.{locator_zeros};
ghost use Rattle.outer.specs.PlaceLists.{Stored, count_back, array_back, stored};

use super::locator::{lane_multiples, scales};
use galois::field::Field;
use std::marker::Model;
use std::simd::prelude::*;

// Places of a word, at most 16, ascending: the first so many of an array, with zeros behind them.
#[derive(Clone, Copy, Debug, PartialEq, Eq)]
pub struct Places {
    at: [u8; 16],
    count: usize,
}

impl Model for Places {
    ghost Value = { List ℕ };

    ghost view = { λ p. take p.count p.at };

    ghost invariant = { λ p. Stored p.at p.count };

    ghost inverse = { λ zs. record { at = stored zs; count = length zs } };

    ghost inverse_ok = { λ p h i. record { at = array_back h i; count = count_back h i } };
}

impl Places {
    // No place.
    pub fn new() -> Places
        ensures { result ≡ [] }
    {
        Places {
            at: [0; 16],
            count: 0,
        }
    }

    // One place more; a full list stays as it is.
    pub fn push(&mut self, place: u8)
        ensures more { length self.old < 16 → self.new ≡ self.old ++ place ∷ [] }
        ensures full { length self.old ≡ 16 → self.new ≡ self.old }
    {
        if self.count < 16 {
            self.at[self.count] = place;
            self.count += 1;
        }
    }

    // The places one after another.
    pub fn as_slice(&self) -> &[u8]
        ensures value { result.now ≡ self.now }
        ensures few { length result.now ≤ 16 }
    {
        &self.at[..self.count]
    }
}

// The powers 0, m, 2 m, .. , 31 m of 02.
fn powers<F: Field>(field: &F, m: usize) -> [u8; 32]
    ensures { (l : ℕ) → l < 32 → lane result l ≡ power (F.Field.meaning field.now) (m * l) }
{
    let mut powers = [0; 32];
    let factor = field.power(m);
    let mut next = 1;
    for power in &mut powers {
        *power = next;
        next = field.mul(next, factor);
    }
    powers
}

// The places of a word of n bytes at whose locators a polynomial is zero, if they are at most 16.
pub fn locator_zeros<F: Field>(field: &F, polynomial: &[u8; 32], n: usize) -> Places
    requires { (1 ≤ n) × (n ≤ 255) }
    ensures { length (locator_zeros (F.Field.meaning field.now) n polynomial.now) ≤ 16 → result ≡ locator_zeros (F.Field.meaning field.now) n polynomial.now }
{
    let scales = scales(field);
    // The next place has half the locator, and half is the power 254 of 02.
    let onward = lane_multiples(&scales, u8x32::from_array(powers(field, 254)));
    let first = lane_multiples(&scales, u8x32::from_array(powers(field, n - 1)));
    let mut terms = first.times(u8x32::from_array(*polynomial));
    let mut places = Places::new();
    for p in 0..n {
        if terms.reduce_xor() == 0 {
            places.push(p as u8);
        }
        terms = onward.times(terms);
    }
    places
}
