// One step of the decoder on vectors of 32 lanes.
ghost use Rattle.std.specs.Prelude.{◌≡◌, ℕ, ◌+◌, ◌-◌, ◌*◌, ◌%◌, ◌^◌, ◌<◌, ◌≤◌, not, ◌++◌, length, if◌then◌else◌, nat_lt, slice_index};
ghost use Rattle.convolution.specs.Code.{bit, mark};
ghost use Rattle.convolution.specs.Lanes.{Selected, Turns, Near, Masks};
ghost use Rattle.convolution.specs.Slots.{cost_of};
ghost use Rattle.convolution.specs.Trellis.{bit_of};

use crate::costs::MarkCosts;
use std::simd::prelude::*;

// The costs at even places, and those at odd ones.
fn split(low: u16x32, high: u16x32) -> (u16x32, u16x32)
    ensures even { (s : ℕ) → s < 32 → slice_index result.0 s ≡ slice_index (low ++ high) (2 * s) }
    ensures odd { (s : ℕ) → s < 32 → slice_index result.1 s ≡ slice_index (low ++ high) (2 * s + 1) }
{
    low.deinterleave(high)
}

// The sums of each pair of lanes.
fn add(a: u16x32, b: u16x32) -> u16x32
    requires { ((s : ℕ) → s < 32 → slice_index a s < 2 ^ 15) × ((s : ℕ) → s < 32 → slice_index b s < 2 ^ 15) }
    ensures { (s : ℕ) → s < 32 → slice_index result s ≡ slice_index a s + slice_index b s }
{
    a.strict_add(b)
}

// The lesser of each pair of lanes, and a mask of those where it is the first.
fn choose(a: u16x32, b: u16x32) -> (u16x32, u64)
    ensures long { length result.0 ≡ 32 }
    ensures least { (s : ℕ) → s < 32 → slice_index result.0 s ≡ (if nat_lt (slice_index b s) (slice_index a s) then slice_index b s else slice_index a s) }
    ensures kept { (s : ℕ) → s < 32 → bit_of result.1 s ≡ bit (not (nat_lt (slice_index b s) (slice_index a s))) }
    ensures below { result.1 < 2 ^ 32 }
{
    let first = a.simd_le(b);
    (first.select(a, b), first.to_bitmask())
}

// The lesser of the two ways into every state, and which bit left on it: `same` and `other` have the costs of the windows.
pub fn select(low: u16x32, high: u16x32, same: u16x32, other: u16x32) -> (u16x32, u16x32, u64)
    requires small { (s : ℕ) → s < 64 → slice_index (low ++ high) s < 2 ^ 15 }
    requires few { ((s : ℕ) → s < 32 → slice_index same s < 2 ^ 15) × ((s : ℕ) → s < 32 → slice_index other s < 2 ^ 15) }
    ensures { (cost : ℕ → ℕ) → Turns cost same other → Selected cost 0 (low ++ high) (result.0 ++ result.1) result.2 }
{
    let (even, odd) = split(low, high);
    let (first, a) = choose(add(even, same), add(odd, other));
    let (second, b) = choose(add(even, other), add(odd, same));
    (first, second, !(a | b << 32))
}

// What the marks in a mask add, modulo 2^16, to the cost for mark 0.
pub fn swing(mask: u16x32, costs: MarkCosts) -> u16x32
    ensures long { length result ≡ 32 }
    ensures each { (m s : ℕ) → s < 32 → Masks m mask → (slice_index result s + costs.zero) % 65536 ≡ cost_of costs (mark m (2 * s)) }
{
    mask & u16x32::splat((costs.one as u16).wrapping_sub(costs.zero as u16))
}

// `total` less each lane.
pub fn turned(total: u16, c: u16x32) -> u16x32
    requires { (s : ℕ) → s < 32 → slice_index c s ≤ total }
    ensures { (s : ℕ) → s < 32 → slice_index result s ≡ total - slice_index c s }
{
    u16x32::splat(total).strict_sub(c)
}

// The same amount off each lane.
fn lower(a: u16x32, k: u16) -> u16x32
    requires { (s : ℕ) → s < 32 → k ≤ slice_index a s }
    ensures long { length result ≡ 32 }
    ensures each { (s : ℕ) → s < 32 → slice_index result s + k ≡ slice_index a s }
{
    a.strict_sub(u16x32::splat(k))
}

// Takes 8192 off all costs once the first is large.
pub fn rebase(low: u16x32, high: u16x32) -> (u16x32, u16x32)
    requires { Near (low ++ high) × (slice_index (low ++ high) 0 < 17000) }
    ensures long { length result.0 ≡ 32 }
    ensures lower { ((k : ℕ) × ((s : ℕ) → s < 64 → slice_index (result.0 ++ result.1) s + k ≡ slice_index (low ++ high) s)) × (slice_index (result.0 ++ result.1) 0 < 2 ^ 14) }
{
    if low.to_array()[0] < 16384 {
        (low, high)
    } else {
        (lower(low, 8192), lower(high, 8192))
    }
}
