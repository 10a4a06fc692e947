// One of the two fields of bytes, chosen when the program runs.
ghost use Rattle.galois.specs.Choice.{chosen_field};
ghost use Rattle.galois.specs.declared.chosen.AnyField.TheVariants.{One, Two};
ghost use Rattle.galois.specs.Rules.{rule_1, rule_2};

use crate::field::Field;
use crate::field1::Field1;
use crate::field2::Field2;

// Field 1 or field 2.
#[derive(Clone, Copy, Debug, PartialEq, Eq)]
pub enum AnyField {
    One,
    Two,
}

impl Field for AnyField {
    ghost meaning = { chosen_field };

    ghost rule = { elim [ One ↦ rule_1 | Two ↦ rule_2 ] };

    // The product in the field chosen.
    fn mul(&self, a: u8, b: u8) -> u8 {
        match *self {
            AnyField::One => Field1.mul(a, b),
            AnyField::Two => Field2.mul(a, b),
        }
    }

    // The inverse in the field chosen.
    fn inverse(&self, a: u8) -> u8 {
        match *self {
            AnyField::One => Field1.inverse(a),
            AnyField::Two => Field2.inverse(a),
        }
    }

    // The power of 02 in the field chosen.
    fn power(&self, e: usize) -> u8 {
        match *self {
            AnyField::One => Field1.power(e),
            AnyField::Two => Field2.power(e),
        }
    }
}
