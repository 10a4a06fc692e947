// The steps of the encoder.
ghost use Rattle.std.specs.Prelude.{◌≡◌, ◌*◌, ◌≤◌, [], length};
ghost use Rattle.convolution.specs.declared.rate.Rate.{Rate};
ghost use Rattle.convolution.specs.Code.{Word, bits as byte_bits, zeros};
ghost use Rattle.convolution.specs.Encoding.{After, Ran, Stepped, value};

use crate::encoder::Encoder;
use crate::marks::Marks;
use crate::rate::Rate;
use crate::runs::{put_step, rows};

impl Encoder {
    // The encoder before its first step.
    pub fn new(rate: Rate) -> Encoder
        ensures { After rate [] result }
    {
        Encoder {
            rate,
            state: 0,
            phase: 0,
        }
    }

    // So many steps, the lowest of the bits first: the answer is their kept marks.
    fn run(&mut self, bits: u8, steps: usize) -> Marks
        requires { steps ≤ 8 }
        ensures count { length result ≤ 3 * steps }
        ensures ran { (rate : Rate) (w m : Word) → After rate w self.old → value m ≡ bits → length m ≡ steps → Ran rate w m self.new result }
    {
        let line = self.state as u16 + 64 * bits as u16;
        let rows = rows(self.rate, line, self.phase);
        let mut marks = [0; 24];
        let mut count = 0;
        for i in 0..steps {
            count = put_step(rows, i, &mut marks, count);
        }
        self.state = ((line >> steps) % 64) as u8;
        self.phase = ((self.phase as usize + steps) % 6) as u8;
        Marks::of(marks, count)
    }

    // One step: the next bit goes in, and the answer is the kept marks of the step.
    pub fn step(&mut self, bit: bool) -> Marks
        ensures count { length result ≤ 3 }
        ensures stepped { (rate : Rate) (w : Word) → After rate w self.old → Stepped rate w bit self.new result }
    {
        self.run(bit as u8, 1)
    }

    // Eight steps, the highest bit of the byte first.
    pub fn byte(&mut self, byte: u8) -> Marks
        ensures count { length result ≤ 24 }
        ensures ran { (rate : Rate) (w : Word) → After rate w self.old → Ran rate w (byte_bits byte) self.new result }
    {
        self.run(byte.reverse_bits(), 8)
    }

    // The six zero bits after the data.
    pub fn tail(&mut self) -> Marks
        ensures count { length result ≤ 18 }
        ensures ran { (rate : Rate) (w : Word) → After rate w self.old → Ran rate w (zeros 6) self.new result }
    {
        self.run(0, 6)
    }
}
