// The memory that a station's calls are lent, and the body that is sent.
ghost use Rattle.std.specs.Prelude.{◌≡◌, ◌%◌};

use crate::sample::Sample;
use stack::carrier::Carrier;
use std::alloc::{AllocError, Global};

// The byte of the body at this place: 00 01 02 .. ff 00 ..
fn body_byte(place: usize) -> u8
    ensures { result ≡ place % 256 }
{
    (place % 256) as u8
}

// Two byte buffers, a step buffer, the symbols of a block, readings of them, and the length of its body.
#[derive(Drop)]
pub struct Desk<R> {
    pub first: Vec<u8>,
    pub second: Vec<u8>,
    pub steps: Vec<u64>,
    pub symbols: Vec<u8>,
    pub readings: Vec<R>,
    pub body: usize,
}

impl<R: Sample> Desk<R> {
    // Memory as a carrier needs it.
    pub fn new<C: Carrier<Reading = R>>(heap: Global, carrier: &C) -> Result<Desk<R>, AllocError> {
        let need = carrier.byte_need();
        let air = carrier.air_length();
        Ok(Desk {
            first: vec![in heap; 0u8; need]?,
            second: vec![in heap; 0u8; need]?,
            steps: vec![in heap; 0u64; carrier.step_need()]?,
            symbols: vec![in heap; 0u8; air]?,
            readings: vec![in heap; R::clean(0); air]?,
            body: carrier.body_length(),
        })
    }

    // Hears the symbols that were sent, wrong at the places of which `is_wrong` says so.
    pub fn hear<F: Fn(usize) -> bool>(&mut self, is_wrong: F)
        requires { F.IsAlwaysCallable is_wrong }
    {
        for (place, (symbol, reading)) in self.symbols.iter().zip(&mut self.readings).enumerate() {
            *reading = if is_wrong(place) {
                R::wrong(*symbol)
            } else {
                R::clean(*symbol)
            };
        }
    }
}

impl<R> Desk<R> {
    // Lays the body out in the first buffer.
    pub fn lay(&mut self) {
        for (place, byte) in self.first.iter_mut().enumerate() {
            *byte = body_byte(place);
        }
    }

    // Whether the first buffer begins with that body.
    pub fn is_back(&self) -> bool {
        self.first
            .iter()
            .take(self.body)
            .enumerate()
            .all(|(place, byte)| *byte == body_byte(place))
    }
}
