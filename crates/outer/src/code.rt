// Code words: the check bytes of data, and the code word near to a word.
ghost use Rattle.std.specs.Prelude.{◌≡◌, ◌-◌, ◌≤◌, ◌↔◌, length, All, IsTrue};
ghost use Rattle.outer.specs.Lanes.{root, Are};
ghost use Rattle.outer.specs.Correction.{Sizes, Decoded, Filled};

use super::correction::correct;
use super::encoder::check_bytes;
use super::error_places::locator_zeros;
use super::lanes::Multiples;
use super::locator::annihilator;
use super::syndromes::syndromes;
use galois::field::Field;

// Whether all lanes are 0.
fn all_zero(lanes: &[u8]) -> bool
    ensures { IsTrue result ↔ All (λ b. b ≡ 0) lanes.now }
{
    lanes.iter().all(|b| *b == 0)
}

// Corrects a word in place to the code word that differs from it in at most e bytes; answers in how many, or none where there is no such code word.
pub fn correct_word<F: Field>(
    field: &F,
    roots: &Multiples,
    r: usize,
    e: usize,
    word: &mut [u8],
) -> Option<u32>
    requires sizes { Sizes r e (length word.old) }
    requires roots { Are (F.Field.meaning field.now) (root (F.Field.meaning field.now) r) roots.now.rows }
    ensures { Decoded (F.Field.meaning field.now) r e word.old word.new result }
{
    let found = syndromes(roots, word);
    if all_zero(&found[..2 * e]) {
        return Some(0);
    }
    let polynomial = annihilator(field, &found, e);
    let places = locator_zeros(field, &polynomial, word.len());
    let count = correct(field, &found, &places, r, word);
    if all_zero(&syndromes(roots, word)[..2 * e]) {
        Some(count)
    } else {
        None
    }
}

// Fills the check bytes of a word: it becomes the code word that begins with its first k bytes.
pub fn encode_word(generator: &Multiples, k: usize, word: &mut [u8])
    requires { (k ≤ length word.old) × ((length word.old - k ≤ 32) × (length word.old ≤ 255)) }
    ensures { Filled generator.now.rows k word.old word.new }
{
    let c = word.len() - k;
    let checks = check_bytes(generator, &word[..k]);
    word[k..].copy_from_slice(&checks[..c]);
}
