// The marks of several steps at once.
ghost use Rattle.std.specs.Prelude.{◌≡◌, ℕ, ◌+◌, ◌/◌, ◌%◌, ◌^◌, ◌<◌, ◌≤◌, ◌++◌, map, take, slice_index};
ghost use Rattle.convolution.specs.Code.{mark};
ghost use Rattle.convolution.specs.Encoding.{KeptBits, MarkBits, kept_bit, picked};

use crate::rate::Rate;

// The marks of one generator, those of the window from place i on in bit i.
fn sums(generator: u8, bits: u16) -> u16
    requires { generator < 128 }
    ensures { (i : ℕ) → result / 2 ^ i % 2 ≡ mark generator (bits / 2 ^ i % 128) }
{
    let mut sum = 0;
    for j in 0..7u32 {
        if generator >> j & 1 == 1 {
            sum ^= bits >> j;
        }
    }
    sum
}

// The marks of one generator in eight steps, those of step i in bit i, and which of them are kept.
#[derive(Clone, Copy, Debug, PartialEq, Eq)]
pub struct Row {
    marks: u16,
    kept: u16,
}

// A row of which no mark is kept.
const NO_ROW: Row = Row { marks: 0, kept: 0 };

impl Row {
    // The marks of a generator, those of the window from place i on in bit i, and a pattern from a place on.
    fn new(generator: u8, bits: u16, pattern: u16, phase: u8) -> Row
        requires { (generator < 128) × (phase < 6) }
        ensures marks { (i : ℕ) → result.marks / 2 ^ i % 2 ≡ mark generator (bits / 2 ^ i % 128) }
        ensures kept { result.kept ≡ pattern / 2 ^ phase }
    {
        Row {
            marks: sums(generator, bits),
            kept: pattern >> phase,
        }
    }
}

// Which marks of a rate's generators are kept, step t in bit t.
fn patterns(rate: Rate) -> [u16; 3]
    ensures { (g p i : ℕ) → g < 3 → p < 6 → i < 8 → slice_index result g / 2 ^ p / 2 ^ i % 2 ≡ kept_bit rate g (p + i) }
{
    match rate {
        Rate::Half => [0xffff, 0xffff, 0],
        Rate::TwoThirds => [0x5555, 0xffff, 0],
        Rate::ThreeQuarters => [0xdb6d, 0xb6db, 0],
        Rate::Third => [0xffff, 0xffff, 0xffff],
    }
}

// The rows of a rate's generators from a place of the pattern on, the marks of step i those of the window from place i on.
pub fn rows(rate: Rate, bits: u16, phase: u8) -> [Row; 3]
    requires { phase < 6 }
    ensures marks { MarkBits rate bits (map (λ r. r.marks) result) }
    ensures kept { KeptBits rate phase (map (λ r. r.kept) result) }
{
    let [first, second, third] = patterns(rate);
    match rate {
        Rate::Half | Rate::TwoThirds | Rate::ThreeQuarters => [
            Row::new(0o171, bits, first, phase),
            Row::new(0o133, bits, second, phase),
            NO_ROW,
        ],
        Rate::Third => [
            Row::new(0o133, bits, first, phase),
            Row::new(0o145, bits, second, phase),
            Row::new(0o177, bits, third, phase),
        ],
    }
}

// Writes the kept marks of step i behind the first `count`, and answers how many there are then.
pub fn put_step(rows: [Row; 3], i: usize, marks: &mut [u8; 24], count: usize) -> usize
    requires { (i < 8) × (count + 3 ≤ 24) }
    ensures written { take result marks.new ≡ take count marks.old ++ picked (map (λ r. r.marks) rows) (map (λ r. r.kept) rows) i }
    ensures count { result ≤ count + 3 }
{
    let mut end = count;
    for row in rows {
        marks[end] = ((row.marks >> i) % 2) as u8;
        end += ((row.kept >> i) % 2) as usize;
    }
    end
}
