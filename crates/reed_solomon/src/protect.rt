// A Reed-Solomon code on a carrier, with the block interleaver of its words between them.
ghost use Rattle.std.specs.Prelude.{◌≡◌, ◌+◌, ◌*◌, MatchResult};
ghost use Rattle.reed_solomon.specs.Bursts.{Protected};
ghost use Rattle.reed_solomon.specs.Protecting.{Stands, Apart};

use crate::stage::{ReedSolomon, Shape};
use galois::field::Field;
use stack::carrier::Carrier;
use stack::stack::{Stack, Unstacked};
use stages::interleaver::Interleaver;

// Sets a Reed-Solomon code on a block interleaver of its words on a carrier; hands code and carrier back where they do not meet.
pub fn protect<F: Field + Drop, C: Carrier>(
    code: ReedSolomon<F>,
    carrier: C,
) -> Result<Stack<ReedSolomon<F>, Stack<Interleaver, C>>, Unstacked<ReedSolomon<F>, C>>
    ensures made { MatchResult result (λ p. (p.stage ≡ code) × (p.carrier.stage.block.grid.rows ≡ code.words) × (p.carrier.stage.block.grid.columns ≡ code.length + 2 * code.errors) × (p.carrier.carrier ≡ carrier) × (C.Carrier.fits carrier → Stands (C.Carrier.fits p.carrier.carrier) (F.Field.meaning p.stage.field) p.stage.root p.stage.words p.stage.length p.stage.errors p.carrier.stage.block.grid.rows p.carrier.stage.block.grid.columns (C.Carrier.meaning p.carrier.carrier))) (λ u. (u.stage ≡ code) × (u.carrier ≡ carrier) × (C.Carrier.fits carrier → Apart code.words code.length code.errors (C.Carrier.meaning carrier))) }
    ensures protected { C.Carrier.fits carrier → (C.Carrier.meaning carrier).body ≡ code.words * (code.length + 2 * code.errors) → Protected (F.Field.meaning code.field) code.root code.words code.length code.errors (C.Carrier.meaning carrier) }
{
    let Shape { words, length } = code.shape();
    let Some(interleaver) = Interleaver::new(words, length) else {
        return Err(Unstacked {
            stage: code,
            carrier,
        });
    };
    let lower = match Stack::new(interleaver, carrier) {
        Ok(lower) => lower,
        Err(apart) => {
            return Err(Unstacked {
                stage: code,
                carrier: apart.carrier,
            });
        }
    };
    Stack::new(code, lower).map_err(|apart| {
        let (_, carrier) = apart.carrier.into_parts();
        Unstacked {
            stage: apart.stage,
            carrier,
        }
    })
}
