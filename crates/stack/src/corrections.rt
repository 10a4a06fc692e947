// What a reading corrected.
use std::fmt;

// How many symbols and bytes were corrected.
#[derive(Clone, Copy, PartialEq, Eq, Debug, Default)]
pub struct Corrections {
    pub symbols: u32,
    pub bytes: u32,
}

// The two counts, as programs print them.
impl fmt::Display for Corrections {
    fn fmt<W: fmt::Write>(&self, f: &mut fmt::Formatter<W>) -> fmt::Result {
        write!(f, "{} {}", self.symbols, self.bytes)
    }
}
