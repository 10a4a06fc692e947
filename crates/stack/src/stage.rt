// The interface of a stage, which takes a body to a body of another length and back.
ghost use Rattle.std.specs.Prelude.{◌≡◌, ◌≤◌, length, take};
ghost use Rattle.stack.specs.Meaning.{StageMeaning};
ghost use Rattle.stack.specs.Rules.{StageRule};
ghost use Rattle.stack.specs.Calls.{Encoded, Decoded};

use crate::fault::Fault;

pub trait Stage {
    // What the stage means: its lengths, and its two ways as functions on lists.
    ghost meaning: { Self → StageMeaning };

    // The length of the body above.
    fn upper(&self) -> usize
        ensures { result ≡ (meaning self.now).upper };

    // The length of the body below.
    fn lower(&self) -> usize
        ensures { result ≡ (meaning self.now).lower };

    // Takes the body at the front of `from` to the front of `to`; zeros are left behind it and in `from`.
    fn encode(&self, from: &mut [u8], to: &mut [u8])
        requires { ((meaning self.now).upper ≤ length from.old) × ((meaning self.now).lower ≤ length to.old) }
        ensures { Encoded ((meaning self.now).encode (take (meaning self.now).upper from.old)) from.old to.old from.new to.new };

    // Takes it back, with the number of corrected bytes; after a refusal both buffers are zero.
    fn decode(&self, from: &mut [u8], to: &mut [u8]) -> Result<u32, Fault>
        requires { ((meaning self.now).lower ≤ length from.old) × ((meaning self.now).upper ≤ length to.old) }
        ensures { Decoded ((meaning self.now).decode (take (meaning self.now).lower from.old)) from.old to.old result from.new to.new };

    // That it keeps the stage rule.
    ghost rule: { (s : Self) → StageRule (meaning s) };
}
