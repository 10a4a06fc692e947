// The helical rule, over the grid of its rows.
ghost use Rattle.std.specs.Prelude.{◌≡◌, ℕ, ◌*◌, ◌≤◌, MatchOption};
ghost use Rattle.readings.specs.Helix.{helix};
ghost use Rattle.readings.specs.Winding.{helix_rearranges};

use permutation::arrange::Arrange;
use permutation::grid::Grid;

// Rows in which each column is turned down three rows farther than the one before, at most 98,304 elements in all.
#[derive(Clone, Copy, Debug, PartialEq, Eq)]
pub struct Helical {
    grid: Grid,
}

impl Helical {
    // The rule for so many rows and columns, if they have from 1 to 98,304 elements.
    pub fn new(rows: usize, columns: usize) -> Option<Helical>
        ensures { MatchOption result ((1 ≤ rows) × (1 ≤ columns) × (rows * columns ≤ 98304) → ⊥) (λ h. (h.grid.rows ≡ rows) × (h.grid.columns ≡ columns)) }
    {
        Grid::new(rows, columns).map(|grid| Helical { grid })
    }

    // The number of elements.
    pub fn len(&self) -> usize
        ensures { result ≡ self.now.grid.rows * self.now.grid.columns }
    {
        self.grid.len()
    }
}

// The helical rule as a rule of rearrangement.
impl Arrange for Helical {
    ghost meaning = { λ h. helix h.grid.rows h.grid.columns };

    ghost permutes = { λ h. helix_rearranges h.grid.rows h.grid.columns h.grid.tall h.grid.wide };

    // The number of rows.
    fn rows(&self) -> usize {
        self.grid.rows()
    }

    // The number of elements in a row.
    fn columns(&self) -> usize {
        self.grid.columns()
    }

    // The column stays, and the row turns down by three for each column.
    fn place(&self, row: usize, column: usize) -> usize {
        self.grid.columns() * ((3 * column + row) % self.grid.rows()) + column
    }
}
