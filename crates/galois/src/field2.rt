// Field 2: the bytes modulo z^8 + z^7 + z^2 + z + 1, with no table.
ghost use Rattle.std.specs.Prelude.{◌≡◌};
ghost use Rattle.galois.specs.Bytes.{raised};
ghost use Rattle.galois.specs.Polynomials.{times_z, product_of, field_2};
ghost use Rattle.galois.specs.Rules.{rule_2};

use crate::field::Field;

// The field of the polynomial 187 hex.
#[derive(Clone, Copy, Debug, PartialEq, Eq)]
pub struct Field2;

// A byte times z.
fn times_z(a: u8) -> u8
    ensures { result ≡ times_z 0x87 a }
{
    (a << 1) ^ (0x87 * (a >> 7))
}

// The product of two bytes: the bits of b, lowest first, each with its multiple of a.
fn product(a: u8, b: u8) -> u8
    ensures { result ≡ product_of 8 0x87 a b }
{
    let mut sum = 0;
    let mut x = a;
    for i in 0..8u32 {
        sum ^= x * ((b >> i) % 2);
        x = times_z(x);
    }
    sum
}

// The product of n factors a, by squaring.
fn raise(a: u8, n: usize) -> u8
    ensures { result ≡ raised (product_of 8 0x87) a n }
{
    let mut result = 1;
    let mut x = a;
    let mut left = n;
    while left > 0 {
        if left % 2 == 1 {
            result = product(result, x);
        }
        x = product(x, x);
        left /= 2;
    }
    result
}

impl Field for Field2 {
    ghost meaning = { λ _. field_2 };

    ghost rule = { λ f. rule_2 };

    // The product of the bytes as polynomials.
    fn mul(&self, a: u8, b: u8) -> u8 {
        product(a, b)
    }

    // The inverse is the 254th power, since the 255th is 1.
    fn inverse(&self, a: u8) -> u8 {
        raise(a, 254)
    }

    // The product of e factors 02.
    fn power(&self, e: usize) -> u8 {
        raise(2, e)
    }
}
