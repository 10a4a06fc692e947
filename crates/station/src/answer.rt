// What a read gives: what was corrected, and the answer that is owed for the block.
ghost use Rattle.std.specs.Prelude.{◌≡◌};

use stack::corrections::Corrections;

// An answer that is owed for a block. It is made by a read alone, cannot be copied, and cannot be let go: only spending it ends it.
pub struct PendingAnswer {
    pub(crate) station: u32,
    pub(crate) block: u32,
}

impl PendingAnswer {
    // The number of the station that read the block.
    pub fn station(&self) -> u32
        ensures { result ≡ self.now.station }
    {
        self.station
    }

    // The number of the block.
    pub fn block(&self) -> u32
        ensures { result ≡ self.now.block }
    {
        self.block
    }
}

// A block that was read: what was corrected in it, and the answer owed for it.
pub struct Given {
    pub corrections: Corrections,
    pub answer: PendingAnswer,
}
