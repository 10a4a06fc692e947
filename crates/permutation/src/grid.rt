// The rows and columns of a block, from which its rule takes its places.
ghost use Rattle.std.specs.Prelude.{◌≡◌, ℕ, ◌*◌, ◌≤◌, MatchOption};

// Rows of equal length, from 1 to 98,304 elements in all.
#[derive(Clone, Copy, Debug, PartialEq, Eq)]
pub struct Grid {
    rows: usize,
    columns: usize,
    ghost tall: { 1 ≤ rows },
    ghost wide: { 1 ≤ columns },
    ghost small: { rows * columns ≤ 98304 },
}

impl Grid {
    // The grid of so many rows and columns, if it has from 1 to 98,304 elements.
    pub fn new(rows: usize, columns: usize) -> Option<Grid>
        ensures { MatchOption result ((1 ≤ rows) × (1 ≤ columns) × (rows * columns ≤ 98304) → ⊥) (λ g. (g.rows ≡ rows) × (g.columns ≡ columns)) }
    {
        match rows.checked_mul(columns) {
            Some(1..=98_304) => Some(Grid { rows, columns }),
            _ => None,
        }
    }

    // The number of rows.
    pub fn rows(&self) -> usize
        ensures { result ≡ self.now.rows }
    {
        self.rows
    }

    // The number of elements in a row.
    pub fn columns(&self) -> usize
        ensures { result ≡ self.now.columns }
    {
        self.columns
    }

    // The number of elements.
    pub fn len(&self) -> usize
        ensures { result ≡ self.now.rows * self.now.columns }
    {
        let Grid { rows, columns } = *self;
        rows * columns
    }
}
