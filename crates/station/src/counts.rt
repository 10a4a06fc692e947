// The counts of a station.
ghost use Rattle.std.specs.Prelude.{◌≡◌, ◌-◌};

// What a station did since it was tuned.
#[derive(Clone, Copy, PartialEq, Eq, Debug, Default)]
pub struct Counts {
    // Blocks written.
    pub written: u32,
    // Reads that were tried: those not refused by 3, 4 or 9.
    pub tried: u32,
    // Tried reads that gave a body.
    pub given: u32,
    // Tried reads that gave none.
    pub refused: u32,
    // Answers spent by acknowledging.
    pub acknowledged: u32,
    // Answers spent by declining.
    pub declined: u32,
    // Symbols corrected in the bodies given.
    pub symbols: u64,
    // Bytes corrected in the bodies given.
    pub bytes: u64,
}

impl Counts {
    // The number of answers that are owed.
    pub fn owed(&self) -> u32
        ensures { result ≡ self.now.given - self.now.acknowledged - self.now.declined }
    {
        self.given
            .saturating_sub(self.acknowledged)
            .saturating_sub(self.declined)
    }
}
