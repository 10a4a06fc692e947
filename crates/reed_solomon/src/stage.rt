// The Reed-Solomon stage: so many words, one after another.
ghost use Rattle.std.specs.Prelude.{◌≡◌, ◌+◌, ◌*◌, ◌≤◌, length, MatchOption};
ghost use Rattle.reed_solomon.specs.Coding.{Limits, coding, words_encoded, words_decoded};
ghost use Rattle.reed_solomon.specs.WordByWord.{GeneratorRows, RootRows, Filled, WordRead, WordsRead};
ghost use Rattle.reed_solomon.specs.Coded.{coding_rule};

use galois::field::Field;
use outer::code::{correct_word, encode_word};
use outer::encoder::generator_multiples;
use outer::lanes::Multiples;
use outer::syndromes::root_multiples;
use stack::buffer::clear;
use stack::fault::Fault;
use stack::stage::Stage;

// A Reed-Solomon code over a field of bytes: so many words, one after another, of `length` data bytes and 2 × `errors` check bytes, with the power `root` of 02 as the first root.
#[derive(Drop)]
pub struct ReedSolomon<F> {
    field: F,
    root: usize,
    words: usize,
    length: usize,
    errors: usize,
    ghost root_high: { root ≤ 254 },
    ghost words_low: { 1 ≤ words },
    ghost words_high: { words ≤ 16 },
    ghost data_low: { 1 ≤ length },
    ghost errors_low: { 1 ≤ errors },
    ghost errors_high: { errors ≤ 16 },
    ghost room: { length + 2 * errors ≤ 255 },
}

// So many words of so many bytes, with their check bytes.
#[derive(Clone, Copy, Debug, PartialEq, Eq)]
pub struct Shape {
    pub words: usize,
    pub length: usize,
}

// Makes a code word of these data bytes.
fn fill_word(generator: &Multiples, bytes: &[u8], word: &mut [u8])
    requires { (length bytes.now ≤ length word.old) × ((length word.old ≤ length bytes.now + 32) × (length word.old ≤ 255)) }
    ensures { Filled generator.now.rows bytes.now word.new }
{
    let k = bytes.len();
    word[0..k].copy_from_slice(bytes);
    encode_word(generator, k, word);
}

impl<F: Field + Drop> ReedSolomon<F> {
    // A code of 1 to 16 words of at most 255 bytes, which corrects 1 to 16 errors in each.
    pub fn new(
        field: F,
        root: usize,
        words: usize,
        length: usize,
        errors: usize,
    ) -> Option<ReedSolomon<F>>
        ensures { MatchOption result (Limits root words length errors → ⊥) (λ s. (s.field ≡ field) × (s.root ≡ root) × (s.words ≡ words) × (s.length ≡ length) × (s.errors ≡ errors)) }
    {
        if root <= 254
            && (1..=16).contains(&words)
            && (1..=255).contains(&length)
            && (1..=16).contains(&errors)
            && length + 2 * errors <= 255
        {
            Some(ReedSolomon {
                field,
                root,
                words,
                length,
                errors,
            })
        } else {
            None
        }
    }
}

impl<F: Field> ReedSolomon<F> {
    // The number of code words, and the number of bytes of each.
    pub fn shape(&self) -> Shape
        ensures { (result.words ≡ self.now.words) × (result.length ≡ self.now.length + 2 * self.now.errors) }
    {
        Shape {
            words: self.words,
            length: self.length + 2 * self.errors,
        }
    }

    // Makes a code word of the data of every word.
    fn encode_words(&self, generator: &Multiples, from: &[u8], to: &mut [u8])
        requires rows { GeneratorRows (F.Field.meaning self.now.field) self.now.root self.now.errors generator.now.rows }
        requires lengths { (length from.now ≡ self.now.words * self.now.length) × (length to.old ≡ self.now.words * (self.now.length + 2 * self.now.errors)) }
        ensures { to.new ≡ words_encoded (F.Field.meaning self.now.field) self.now.root self.now.length self.now.errors self.now.words from.now }
    {
        let n = self.length + 2 * self.errors;
        for (w, bytes) in from.chunks_exact(self.length).enumerate() {
            fill_word(generator, bytes, &mut to[w * n..(w + 1) * n]);
        }
    }

    // Corrects one word and hands up its data; says how many bytes were corrected, or none where no code word is near.
    fn decode_word(&self, roots: &Multiples, word: &mut [u8], data: &mut [u8]) -> Option<u32>
        requires rows { RootRows (F.Field.meaning self.now.field) self.now.root roots.now.rows }
        requires lengths { (length word.old ≡ self.now.length + 2 * self.now.errors) × (length «data».old ≡ self.now.length) }
        ensures { WordRead (F.Field.meaning self.now.field) self.now.root self.now.length self.now.errors word.old result «data».new }
    {
        let count = correct_word(&self.field, roots, self.root, self.errors, word)?;
        data.copy_from_slice(&word[0..self.length]);
        Some(count)
    }

    // Corrects every word and hands up the data of all; says how many bytes were corrected, or which word is the lowest with no code word near.
    fn decode_words(&self, roots: &Multiples, from: &mut [u8], to: &mut [u8]) -> Result<u32, Fault>
        requires rows { RootRows (F.Field.meaning self.now.field) self.now.root roots.now.rows }
        requires lengths { (length from.old ≡ self.now.words * (self.now.length + 2 * self.now.errors)) × (length to.old ≡ self.now.words * self.now.length) }
        ensures { WordsRead (words_decoded (F.Field.meaning self.now.field) self.now.root self.now.length self.now.errors self.now.words from.old) result to.new }
    {
        let k = self.length;
        let mut count = 0;
        for (w, word) in from.chunks_exact_mut(k + 2 * self.errors).enumerate() {
            count += self
                .decode_word(roots, word, &mut to[w * k..(w + 1) * k])
                .ok_or(Fault::NoCodeWord { word: w as u32 })?;
        }
        Ok(count)
    }
}

impl<F: Field> Stage for ReedSolomon<F> {
    ghost meaning = { λ s. coding (F.Field.meaning s.field) s.root s.words s.length s.errors };

    ghost rule = { λ s.
        coding_rule _ (F.Field.rule _) s.root s.words s.length s.errors
        (record { root = s.root_high; words_low = s.words_low; words_high = s.words_high; data_low = s.data_low; errors_low = s.errors_low; errors_high = s.errors_high; room = s.room }) };

    fn upper(&self) -> usize {
        self.words * self.length
    }

    fn lower(&self) -> usize {
        self.words * (self.length + 2 * self.errors)
    }

    fn encode(&self, from: &mut [u8], to: &mut [u8]) {
        let generator = generator_multiples(&self.field, self.root, 2 * self.errors);
        clear(to);
        self.encode_words(&generator, &from[..self.upper()], &mut to[..self.lower()]);
        clear(from);
    }

    fn decode(&self, from: &mut [u8], to: &mut [u8]) -> Result<u32, Fault> {
        let roots = root_multiples(&self.field, self.root);
        clear(to);
        let answer = self.decode_words(&roots, &mut from[..self.lower()], &mut to[..self.upper()]);
        clear(from);
        if answer.is_err() {
            clear(to);
        }
        answer
    }
}
