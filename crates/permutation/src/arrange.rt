// Moving the elements of a slice to their places in another, and back.
ghost use Rattle.std.specs.Prelude.{◌≡◌, ℕ, ◌+◌, ◌*◌, ◌<◌, ◌≤◌, length};
ghost use Rattle.permutation.specs.Arrange.{Arrangement, size, Rearranges, TakenRun, PlacedRun, Interleaved, Deinterleaved};

// A rule that gives every element of a slice, read as rows of equal length, a place of its own.
pub trait Arrange {
    // Where the rule puts each element.
    ghost meaning: { Self → Arrangement };

    // The number of rows.
    fn rows(&self) -> usize
        ensures { result ≡ (meaning self.now).rows };

    // The number of elements in a row.
    fn columns(&self) -> usize
        ensures { result ≡ (meaning self.now).columns };

    // The place of the element in a row and a column.
    fn place(&self, row: usize, column: usize) -> usize
        requires { (row < (meaning self.now).rows) × (column < (meaning self.now).columns) }
        ensures { result ≡ (meaning self.now).place (row * (meaning self.now).columns + column) };

    // Every place takes exactly one element.
    ghost permutes: { (p : Self) → Rearranges (meaning p) };
}

// Moves a run of elements of a row, from a column on, to their places.
pub fn place_run<T: Copy, P: Arrange>(rule: &P, row: usize, column: usize, from: &[T], to: &mut [T])
    requires within { row < (P.Arrange.meaning rule.now).rows }
    requires read { column + length from.now ≤ (P.Arrange.meaning rule.now).columns }
    requires written { length to.old ≡ size (P.Arrange.meaning rule.now) }
    ensures { PlacedRun (P.Arrange.meaning rule.now).place (row * (P.Arrange.meaning rule.now).columns + column) from.now to.old to.new }
{
    for (k, value) in from.iter().enumerate() {
        to[rule.place(row, column + k)] = *value;
    }
}

// Moves every element of `from` to its place in `to`.
pub fn interleave<T: Copy, P: Arrange>(rule: &P, from: &[T], to: &mut [T])
    requires read { length from.now ≡ size (P.Arrange.meaning rule.now) }
    requires written { length to.old ≡ size (P.Arrange.meaning rule.now) }
    ensures { Interleaved (P.Arrange.meaning rule.now) from.now to.new }
{
    let columns = rule.columns();
    for row in 0..rule.rows() {
        let next = &from[row * columns..(row + 1) * columns];
        place_run(rule, row, 0, next, to);
    }
}

// Takes a run of elements of a row, from a column on, from their places.
pub fn take_run<T: Copy, P: Arrange>(rule: &P, row: usize, column: usize, from: &[T], to: &mut [T])
    requires within { row < (P.Arrange.meaning rule.now).rows }
    requires written { column + length to.old ≤ (P.Arrange.meaning rule.now).columns }
    requires read { length from.now ≡ size (P.Arrange.meaning rule.now) }
    ensures { TakenRun (P.Arrange.meaning rule.now).place (row * (P.Arrange.meaning rule.now).columns + column) (length to.new) from.now to.new }
{
    for (k, value) in to.iter_mut().enumerate() {
        *value = from[rule.place(row, column + k)];
    }
}

// Takes every element of `from` from its place back to `to`.
pub fn deinterleave<T: Copy, P: Arrange>(rule: &P, from: &[T], to: &mut [T])
    requires read { length from.now ≡ size (P.Arrange.meaning rule.now) }
    requires written { length to.old ≡ size (P.Arrange.meaning rule.now) }
    ensures { Deinterleaved (P.Arrange.meaning rule.now) from.now to.new }
{
    let columns = rule.columns();
    for row in 0..rule.rows() {
        let back = &mut to[row * columns..(row + 1) * columns];
        take_run(rule, row, 0, from, back);
    }
}
