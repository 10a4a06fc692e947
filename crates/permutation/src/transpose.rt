// The block rule, over the grid of its words.
ghost use Rattle.std.specs.Prelude.{◌≡◌, ℕ, ◌*◌, ◌≤◌, MatchOption};
ghost use Rattle.permutation.specs.Transposed.{transposition};
ghost use Rattle.permutation.specs.Turning.{transposition_rearranges};

use crate::arrange::Arrange;
use crate::grid::Grid;

// Words written one below the other and sent column after column, at most 98,304 elements in all.
#[derive(Clone, Copy, Debug, PartialEq, Eq)]
pub struct Transpose {
    grid: Grid,
}

impl Transpose {
    // The block of so many rows and columns, if it has from 1 to 98,304 elements.
    pub fn new(rows: usize, columns: usize) -> Option<Transpose>
        ensures { MatchOption result ((1 ≤ rows) × (1 ≤ columns) × (rows * columns ≤ 98304) → ⊥) (λ t. (t.grid.rows ≡ rows) × (t.grid.columns ≡ columns)) }
    {
        Grid::new(rows, columns).map(|grid| Transpose { grid })
    }

    // The number of elements in the block.
    pub fn len(&self) -> usize
        ensures { result ≡ self.now.grid.rows * self.now.grid.columns }
    {
        self.grid.len()
    }
}

// The block rule as a rule of rearrangement.
impl Arrange for Transpose {
    ghost meaning = { λ t. transposition t.grid.rows t.grid.columns };

    ghost permutes = { λ t. transposition_rearranges t.grid.rows t.grid.columns t.grid.tall t.grid.wide };

    // The number of words.
    fn rows(&self) -> usize {
        self.grid.rows()
    }

    // The number of elements in a word.
    fn columns(&self) -> usize {
        self.grid.columns()
    }

    // The words' elements of one column stand together, in the order of the rows.
    fn place(&self, row: usize, column: usize) -> usize {
        column * self.grid.rows() + row
    }
}
