// Products of 32 lanes at once, by the multiples of 32 constants and with no table of the field.
ghost use Rattle.std.specs.Prelude.{◌≡◌, ℕ, ◌<◌, if◌then◌else◌, bit_and, nat_eq};
ghost use Rattle.outer.specs.Cutting.{Moved};
ghost use Rattle.outer.specs.Lanes.{lane, Are, Times};

use galois::field::Field;
use std::array;
use std::simd::prelude::*;

// One multiple of each of 32 constants.
#[derive(Clone, Copy, Default)]
pub struct Row {
    pub lanes: u8x32,
}

// The multiples of 32 constants by the bytes 1, 2, 4, .. , 128.
#[derive(Clone, Copy, Default)]
pub struct Multiples {
    pub rows: [Row; 8],
}

// Where each lane comes from when all move on by one: the next lane, and for the last a zero.
pub const NEXT: [usize; 32] = [
    1, 2, 3, 4, 5, 6, 7, 8, 9, 10, 11, 12, 13, 14, 15, 16, 17, 18, 19, 20, 21, 22, 23, 24, 25, 26,
    27, 28, 29, 30, 31, 32,
];

// All lanes move on by one, and a zero comes last.
pub fn moved(v: u8x32) -> u8x32
    ensures { Moved v result }
{
    v.shuffle(u8x32::splat(0), NEXT)
}

// The lanes of `row` where `v` has the bit, and 0 elsewhere.
fn chosen(row: u8x32, v: u8x32, bit: u8) -> u8x32
    ensures { (l : ℕ) → l < 32 → lane result l ≡ (if nat_eq (bit_and (lane v l) bit) 0 then 0 else lane row l) }
{
    let none = u8x32::splat(0);
    (v & u8x32::splat(bit)).simd_eq(none).select(none, row)
}

impl Multiples {
    // Each lane times its constant.
    pub fn times(&self, v: u8x32) -> u8x32
        ensures { Times self.now.rows (lane v) result }
    {
        let mut sum = u8x32::splat(0);
        for (i, row) in self.rows.iter().enumerate() {
            sum ^= chosen(row.lanes, v, 1 << i);
        }
        sum
    }
}

// Constant after constant times one byte.
fn multiple<F: Field>(field: &F, constants: &[u8; 32], by: u8) -> Row
    ensures { (l : ℕ) → l < 32 → lane result.lanes l ≡ (F.Field.meaning field.now).mul (lane constants.now l) by }
{
    let lanes = array::from_fn(|l| field.mul(constants[l], by));
    Row {
        lanes: u8x32::from_array(lanes),
    }
}

// The multiples of these constants.
pub fn multiples_of<F: Field>(field: &F, constants: &[u8; 32]) -> Multiples
    ensures { Are (F.Field.meaning field.now) (lane constants.now) result.rows }
{
    Multiples {
        rows: array::from_fn(|i| multiple(field, constants, 1 << i)),
    }
}
