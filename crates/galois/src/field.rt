// What every field of bytes does: the sum is the exclusive or, and needs no function.
ghost use Rattle.std.specs.Prelude.{◌≡◌};
ghost use Rattle.galois.specs.Bytes.{ByteField, FieldRule, power};

// A field of bytes: its meaning, and the laws that this meaning keeps.
pub trait Field {
    ghost meaning: { Self → ByteField };

    // The product of two bytes.
    fn mul(&self, a: u8, b: u8) -> u8
        ensures { result ≡ (meaning self.now).mul a b };

    // The inverse of a byte, 0 for 0.
    fn inverse(&self, a: u8) -> u8
        ensures { result ≡ (meaning self.now).inv a };

    // The power of 02 with exponent e.
    fn power(&self, e: usize) -> u8
        ensures { result ≡ power (meaning self.now) e };

    ghost rule: { (f : Self) → FieldRule (meaning f) };
}
