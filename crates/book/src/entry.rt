// The record of an entry.
ghost use Rattle.std.specs.Prelude.{◌≡◌};
ghost use Rattle.book.specs.Running.{refusal_of, counts_of};

use crate::contents::EntryLine;
use crate::fault::EntryFault;
use stack::corrections::Corrections;

// What the contents say of an entry, and what became of it.
#[derive(Clone, Copy, Debug, PartialEq, Eq)]
pub struct Entry {
    pub line: EntryLine,
    // Where its result begins in the result buffer.
    pub place: usize,
    // How many bytes its result has; they are zero where it is refused.
    pub size: usize,
    // What was corrected, nothing for a write; or why it is refused.
    pub answer: Result<Corrections, EntryFault>,
}

impl Entry {
    // Why the entry is refused, where it is.
    pub fn refusal(&self) -> Option<EntryFault>
        ensures { result ≡ refusal_of self.now.answer }
    {
        self.answer.err()
    }

    // What was corrected: nothing where the entry is refused.
    pub fn counts(&self) -> Corrections
        ensures { result ≡ counts_of self.now.answer }
    {
        self.answer.unwrap_or_default()
    }
}
