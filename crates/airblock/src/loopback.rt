// A block put on the air and read back unharmed.
ghost use Rattle.airblock.specs.Loops.{Looped};

use stack::carrier::Carrier;
use stack::corrections::Corrections;
use stack::fault::Refusal;

// Puts the body at the front of `first` on the air and reads the symbols back as they are.
pub fn loopback<C: Carrier<Reading = u8>>(
    carrier: &C,
    first: &mut [u8],
    second: &mut [u8],
    steps: &mut [u64],
    symbols: &mut [u8],
) -> Result<Corrections, Refusal>
    ensures { Looped (C.Carrier.fits carrier.now) (C.Carrier.meaning carrier.now) first.old first.new symbols.new result }
{
    carrier.put(first, second, symbols)?;
    carrier.get(first, second, steps, symbols)
}
