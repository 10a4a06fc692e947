// A station that is not in service.
ghost use Rattle.std.specs.Prelude.{◌≡◌};

// An idle station bears its number, and nothing else: it neither writes nor reads.
#[derive(Drop, PartialEq, Eq, Debug)]
pub struct Idle {
    pub(crate) number: u32,
}

impl Idle {
    // An idle station of this number.
    pub fn new(number: u32) -> Idle
        ensures { result.number ≡ number }
    {
        Idle { number }
    }

    // The station's number.
    pub fn number(&self) -> u32
        ensures { result ≡ self.now.number }
    {
        self.number
    }
}
