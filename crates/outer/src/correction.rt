// The values of the errors at known places, and the word without them.
ghost use Rattle.std.specs.Prelude.{◌≡◌, ◌<◌, ◌≤◌, length, map};
ghost use Rattle.outer.specs.Correction.{Inside, OnePass, Constant, LocatorMultiples};
ghost use Rattle.outer.specs.Decoding.{error_value, corrected, errors};

use super::error_places::Places;
use super::lanes::{Multiples, moved};
use super::locator::scalar_multiples;
use arrayvec::ArrayVec;
use galois::field::Field;
use std::simd::prelude::*;

// One pass over the sums: each lane times x, and the next lane added.
fn pass(x: &Multiples, sums: u8x32) -> u8x32
    ensures { OnePass x.now.rows sums result }
{
    moved(sums) ^ x.times(sums)
}

// The constant whose multiples stand in every lane.
fn constant(multiples: &Multiples) -> u8
    ensures { Constant multiples.now.rows result }
{
    multiples.rows[0].lanes.to_array()[0]
}

// A place, and the multiples of its locator.
#[derive(Clone, Copy, Default)]
struct Located {
    place: u8,
    locator: Multiples,
}

// For each place the multiples of its locator in a word of n bytes.
fn locate<F: Field>(field: &F, places: &Places, n: usize) -> ArrayVec<Located, 16>
    requires { Inside n places.now }
    ensures places { map (λ e. e.place) result.items ≡ places.now }
    ensures multiples { LocatorMultiples (F.Field.meaning field.now) n places.now (map (λ e. e.locator) result.items) }
{
    let mut located = ArrayVec::new();
    for place in places.as_slice() {
        located.push(Located {
            place: *place,
            locator: scalar_multiples(field, field.power(n - 1 - usize::from(*place))),
        });
    }
    located
}

// What the values of the errors in a word of n bytes follow from: its syndromes, and the places with the multiples of their locators.
#[derive(Drop)]
struct Errors<'a, F> {
    field: &'a F,
    syndromes: &'a [u8; 32],
    located: ArrayVec<Located, 16>,
    r: usize,
    n: usize,
}

impl<F: Field> Errors<'_, F> {
    // The value of the error at one of the places.
    fn value(&self, place: usize) -> u8
        requires known { (place < self.now.n) × ((self.now.n ≤ 255) × (self.now.r ≤ 254)) }
        requires located { LocatorMultiples (F.Field.meaning self.now.field.now) self.now.n (map (λ e. e.place) self.now.located.items) (map (λ e. e.locator) self.now.located.items) }
        ensures { result ≡ error_value (F.Field.meaning self.now.field.now) self.now.r self.now.n (map (λ e. e.place) self.now.located.items) self.now.syndromes.now place }
    {
        let field = self.field;
        let exponent = self.n - 1 - place;
        let here = field.power(exponent);
        let mut sums = u8x32::from_array(*self.syndromes);
        let mut divisor = field.power(exponent * self.r);
        for other in self.located.as_slice() {
            if usize::from(other.place) != place {
                sums = pass(&other.locator, sums);
                divisor = field.mul(divisor, here ^ constant(&other.locator));
            }
        }
        field.mul(sums.to_array()[0], field.inverse(divisor))
    }
}

// Adds the values of the errors at their places; answers how many are not 0.
pub fn correct<F: Field>(
    field: &F,
    syndromes: &[u8; 32],
    places: &Places,
    r: usize,
    word: &mut [u8],
) -> u32
    requires known { (length word.old ≤ 255) × (r ≤ 254) }
    requires inside { Inside (length word.old) places.now }
    ensures word { word.new ≡ corrected (error_value (F.Field.meaning field.now) r (length word.old) places.now syndromes.now) word.old places.now }
    ensures count { result ≡ errors (error_value (F.Field.meaning field.now) r (length word.old) places.now syndromes.now) places.now }
{
    let n = word.len();
    let errors = Errors {
        field,
        syndromes,
        located: locate(field, places, n),
        r,
        n,
    };
    let mut count = 0;
    for place in places.as_slice() {
        let place = usize::from(*place);
        let value = errors.value(place);
        word[place] ^= value;
        if value != 0 {
            count += 1;
        }
    }
    count
}
