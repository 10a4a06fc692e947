// The marks of a body at their places.
ghost use Rattle.std.specs.Prelude.{◌≡◌, ℕ, ◌+◌, ◌*◌, ◌<◌, ◌≤◌, List, ◌++◌, length};
ghost use Rattle.convolution.specs.Code.{marks_before};
ghost use Rattle.readings.specs.Helix.{wound};
ghost use Rattle.line.specs.Line.{block, block_size, spread};

use convolution::encoder::Encoder;
use convolution::rate::Rate;
use permutation::arrange::Arrange;
use readings::helical::Helical;
use stack::buffer::clear;

// The place of mark i.
pub fn spot(rule: Helical, i: usize) -> usize
    requires { i < block_size rule }
    ensures at { result ≡ wound rule.grid.rows rule.grid.columns i }
    ensures inside { result < block_size rule }
{
    let columns = rule.columns();
    rule.place(i / columns, i % columns)
}

// Writes marks to their places, the first of them as mark `at`.
fn put_marks(rule: Helical, at: usize, marks: &[u8], symbols: &mut [u8])
    requires long { length symbols.old ≡ block_size rule }
    requires room { at + length marks.now ≤ block_size rule }
    ensures { (ms : List ℕ) → length ms ≡ at → symbols.old ≡ spread rule.grid.rows rule.grid.columns ms → symbols.new ≡ spread rule.grid.rows rule.grid.columns (ms ++ marks.now) }
{
    for (k, mark) in marks.iter().enumerate() {
        symbols[spot(rule, at + k)] = *mark;
    }
}

// Writes the block of a body.
pub fn put_body(rate: Rate, rule: Helical, body: &[u8], symbols: &mut [u8])
    requires long { length symbols.old ≡ block_size rule }
    requires room { marks_before rate (8 * length body.now + 6) ≤ block_size rule }
    ensures { symbols.new ≡ block rate rule.grid.rows rule.grid.columns body.now }
{
    clear(symbols);
    let mut encoder = Encoder::new(rate);
    let mut at = 0;
    for byte in body {
        let marks = encoder.byte(*byte);
        let marks = marks.as_slice();
        put_marks(rule, at, marks, symbols);
        at += marks.len();
    }
    let marks = encoder.tail();
    put_marks(rule, at, marks.as_slice(), symbols);
}
