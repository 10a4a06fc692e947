// The randomiser: a shift register's sequence added to a body.
ghost use Rattle.std.specs.Prelude.{◌≡◌, ◌%◌, ◌<◌, ◌≤◌, Bool, List, length};
ghost use Rattle.stages.specs.Sequence.{after, byte_of, held, key_from, keyed, loaded, lowest_bits, randomised, sums};
ghost use Rattle.stages.specs.Registers.{held_back};

use std::marker::Model;

// A register of fifteen stages, stage 1 as the lowest bit.
#[derive(Clone, Copy)]
struct Register {
    stages: u16,
}

impl Model for Register {
    ghost Value = { List Bool };

    ghost view = { λ r. lowest_bits 15 r.stages };

    ghost invariant = { λ r. r.stages < 32768 };

    ghost inverse = { λ reg. record { stages = held reg } };

    ghost inverse_ok = { λ r h i. record { stages = held_back h i } };
}

impl Register {
    // The register with the stages of a seed.
    fn loaded(seed: u16) -> Register
        requires { seed < 32768 }
        ensures { result ≡ loaded seed }
    {
        Register {
            stages: seed.reverse_bits() >> 1,
        }
    }

    // Goes eight steps on; gives their sums, the first one as the highest bit.
    fn next_key(&mut self) -> u8
        ensures key { result ≡ byte_of (sums 8 self.old) }
        ensures register { self.new ≡ after 8 self.old }
    {
        let key = ((((self.stages << 1) ^ self.stages) >> 7) & 0xff) as u8;
        self.stages = ((self.stages & 0x7f) << 8) | u16::from(key);
        key
    }
}

// Adds the sequence of a register to a unit.
fn add_to_unit(mut register: Register, part: &mut [u8])
    ensures { part.new ≡ keyed (key_from register) 0 part.old }
{
    for byte in part.iter_mut() {
        *byte ^= register.next_key();
    }
}

// Adds the sequence of a seed to a body of whole units, starting anew at every unit.
pub(crate) fn add_sequence(seed: u16, unit: usize, body: &mut [u8])
    requires seed { seed < 32768 }
    requires unit { 1 ≤ unit }
    requires whole { length body.old % unit ≡ 0 }
    ensures { body.new ≡ randomised seed unit body.old }
{
    let register = Register::loaded(seed);
    for u in 0..body.len() / unit {
        add_to_unit(register, &mut body[u * unit..(u + 1) * unit]);
    }
}
