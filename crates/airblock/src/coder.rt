// The stack that the program runs: check byte on randomiser on Reed-Solomon on block interleaver on the bare carrier.
ghost use Rattle.std.specs.Prelude.{◌≡◌, MatchOption};
ghost use Rattle.airblock.specs.Layout.{Divides, Fits, Coded};

use galois::field1::Field1;
use reed_solomon::protect::protect;
use reed_solomon::stage::ReedSolomon;
use stack::bare::Bare;
use stack::stack::Stack;
use stack::stage::Stage;
use stages::check::CheckByte;
use stages::interleaver::Interleaver;
use stages::randomiser::Randomiser;

pub type Coder = Stack<
    CheckByte,
    Stack<Randomiser, Stack<ReedSolomon<Field1>, Stack<Interleaver, Bare>>>,
>;

// The randomiser's seed of the air link.
const SEED: u16 = 0x4a80;

// The first root of the outer code.
const ROOT: usize = 1;

// How many bytes of each word the outer code corrects.
pub const ERRORS: usize = 3;

// The most words, up to 16, into which so many bytes divide evenly.
pub fn words_for(length: usize) -> usize
    ensures { Divides length result }
{
    for words in (2..17).rev() {
        if length % words == 0 {
            return words;
        }
    }
    1
}

// The stack for bodies of so many bytes, if with the check byte they divide into at most 16 words of at most 249.
pub fn coder_for(length: usize) -> Option<Coder>
    ensures { MatchOption result (Fits length → ⊥) (λ s. Coded length s.stage.length s.carrier.stage.seed s.carrier.stage.unit s.carrier.stage.length s.carrier.carrier.stage.root s.carrier.carrier.stage.words s.carrier.carrier.stage.length s.carrier.carrier.stage.errors) }
{
    let check = CheckByte::new(length)?;
    let coded = length + 1;
    let words = words_for(coded);
    let randomiser = Randomiser::new(SEED, coded, coded)?;
    let code = ReedSolomon::new(Field1, ROOT, words, coded / words, ERRORS)?;
    let bare = Bare::new(code.lower())?;
    let low = protect(code, bare).ok()?;
    let middle = Stack::new(randomiser, low).ok()?;
    Stack::new(check, middle).ok()
}
