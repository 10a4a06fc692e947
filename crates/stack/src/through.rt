// A stage and the carrier that it stands on, both ways.
ghost use Rattle.std.specs.Prelude.{◌≡◌, ◌≤◌, ◌↔◌, IsTrue, length, take};
ghost use Rattle.stack.specs.Calls.{Sent, Got};
ghost use Rattle.stack.specs.Meaning.{stacked, raised, Meets};

use crate::carrier::Carrier;
use crate::corrections::Corrections;
use crate::fault::CarrierFault;
use crate::stage::Stage;

// Whether a stage may be set on a carrier: the lengths meet, and the carrier is below 32 high.
pub fn meets<S: Stage, C: Carrier>(stage: &S, carrier: &C) -> bool
    ensures { C.Carrier.fits carrier.now → IsTrue result ↔ Meets (S.Stage.meaning stage.now) (C.Carrier.meaning carrier.now) }
{
    stage.lower() == carrier.body_length() && carrier.height() < 32
}

// How long the byte buffers must be at least: as the longer body of the stage, and as the carrier needs.
pub fn byte_need<S: Stage, C: Carrier>(stage: &S, carrier: &C) -> usize
    ensures { result ≡ (stacked (S.Stage.meaning stage.now) (C.Carrier.meaning carrier.now)).byte_need }
{
    stage.upper().max(stage.lower().max(carrier.byte_need()))
}

// Encodes the body at the front of `first`, and sends what it is encoded to.
pub fn send<S: Stage, C: Carrier>(
    stage: &S,
    carrier: &C,
    first: &mut [u8],
    second: &mut [u8],
    symbols: &mut [u8],
)
    requires { (length second.old ≡ length first.old) × (((stacked (S.Stage.meaning stage.now) (C.Carrier.meaning carrier.now)).byte_need ≤ length first.old) × (length symbols.old ≡ (C.Carrier.meaning carrier.now).air)) }
    ensures { C.Carrier.fits carrier.now → Meets (S.Stage.meaning stage.now) (C.Carrier.meaning carrier.now) → Sent ((C.Carrier.meaning carrier.now).sent ((S.Stage.meaning stage.now).encode (take (S.Stage.meaning stage.now).upper first.old))) first.old second.old first.new second.new symbols.new }
{
    stage.encode(first, second);
    carrier.send(second, first, symbols);
}

// Receives a body into `second`, and decodes it into `first`.
pub fn receive<S: Stage, C: Carrier>(
    stage: &S,
    carrier: &C,
    first: &mut [u8],
    second: &mut [u8],
    steps: &mut [u64],
    readings: &[C::Reading],
) -> Result<Corrections, CarrierFault>
    requires { (length second.old ≡ length first.old) × (((stacked (S.Stage.meaning stage.now) (C.Carrier.meaning carrier.now)).byte_need ≤ length first.old) × (((C.Carrier.meaning carrier.now).step_need ≤ length steps.old) × (length readings.now ≡ (C.Carrier.meaning carrier.now).air))) }
    ensures { C.Carrier.fits carrier.now → Meets (S.Stage.meaning stage.now) (C.Carrier.meaning carrier.now) → Got (raised (S.Stage.meaning stage.now) ((C.Carrier.meaning carrier.now).got readings.now)) first.old second.old steps.old result first.new second.new steps.new }
{
    match carrier.receive(second, first, steps, readings) {
        Ok(below) => {
            let count = stage.decode(second, first)?;
            Ok(Corrections {
                symbols: below.symbols,
                bytes: below.bytes.saturating_add(count),
            })
        }
        Err(below) => Err(CarrierFault {
            depth: below.depth.saturating_add(1),
            fault: below.fault,
        }),
    }
}
