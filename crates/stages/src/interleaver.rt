// The block interleaver: words are written one below the other and sent column after column.
ghost use Rattle.std.specs.Prelude.{◌≡◌, ◌*◌, ◌≤◌, MatchOption};
ghost use Rattle.stages.specs.Interleaving.{interleaving, ByteMoves};
ghost use Rattle.stages.specs.Moved.{interleaving_rule};

use permutation::arrange::{deinterleave, interleave};
use permutation::transpose::Transpose;
use stack::buffer::clear;
use stack::fault::Fault;
use stack::stage::Stage;

// Interleaves so many words of so many bytes, one after another.
#[derive(Clone, Copy, Debug, PartialEq, Eq)]
pub struct Interleaver {
    block: Transpose,
}

impl Interleaver {
    // An interleaver of words that are together 1 to 98,304 bytes long.
    pub fn new(words: usize, length: usize) -> Option<Interleaver>
        ensures made { MatchOption result ((1 ≤ words) × (1 ≤ length) × (words * length ≤ 98304) → ⊥) (λ s. (s.block.grid.rows ≡ words) × (s.block.grid.columns ≡ length)) }
        ensures moves { ByteMoves words length }
    {
        let block = Transpose::new(words, length)?;
        Some(Interleaver { block })
    }
}

impl Stage for Interleaver {
    ghost meaning = { λ s. interleaving s.block.grid.rows s.block.grid.columns };

    ghost rule = { λ s. interleaving_rule s.block.grid.rows s.block.grid.columns s.block.grid.tall s.block.grid.wide s.block.grid.small };

    fn upper(&self) -> usize {
        self.block.len()
    }

    fn lower(&self) -> usize {
        self.block.len()
    }

    fn encode(&self, from: &mut [u8], to: &mut [u8]) {
        let n = self.block.len();
        clear(to);
        interleave(&self.block, &from[0..n], &mut to[0..n]);
        clear(from);
    }

    fn decode(&self, from: &mut [u8], to: &mut [u8]) -> Result<u32, Fault> {
        let n = self.block.len();
        clear(to);
        deinterleave(&self.block, &from[0..n], &mut to[0..n]);
        clear(from);
        Ok(0)
    }
}
