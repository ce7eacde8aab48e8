// The leaves of the scheme: ratio, mismatch, piece, the two directions of a flux, and its parts.
#![tactic(auto)]

ghost use Rattle.std.specs.Prelude.{◌≡◌, ◌≤◌, ◌<◌, ◌-◌, min};
ghost use Rattle.units.specs.Limiter.{limiter_of};
ghost use Rattle.scheme.specs.Leaves.{mismatch_of, half_limit, IsMismatch, Giver, IsPiece, IsSplit, IsFluxPart};
ghost use Rattle.model.specs.Scheme as model;

use units::{Air, FIXED_LIMITER, Limiter, Mismatch, POSITIVE_LIMITER, SCALE, Tracer};

const TWICE_SCALE: u64 = 2 * SCALE;

// What passes a face towards its high side and towards its low side; one of the two is 0.
#[derive(Clone, Copy)]
pub struct Flux {
    pub to_high: Air,
    pub to_low: Air,
}

pub fn ratio(m: Air, t: Tracer) -> u64
    requires { 0 < m.0 }
    ensures { result ≡ model.ratio m.0 t.0 }
{
    let have = m.0 as u64;
    let amount = t.0 as u64;
    SCALE * amount / have
}

// The lesser of the distances from q down to `low` and up to `high`; 0 where q is outside them.
fn between(low: u64, q: u64, high: u64) -> u64
    ensures { result ≡ min (q - low) (high - q) }
{
    q.saturating_sub(low).min(high.saturating_sub(q))
}

// Half of a mismatch's limit: by the positive limiter the ratio itself, by the fixed one its distance to the nearer bound, by the
// first one, and by any other number, that to the nearer of its neighbours.
fn half_limit(l: Limiter, low: u64, q: u64, high: u64) -> u64
    ensures { result ≡ half_limit (limiter_of l) low q high }
{
    match l.number {
        POSITIVE_LIMITER => q,
        FIXED_LIMITER => between(l.lo, q, l.hi),
        _ => between(low, q, high),
    }
}

// The mismatch of a cell of ratio q between neighbours of the ratios qa and qb, by its tracer's limiter.
pub fn mismatch(l: Limiter, qa: u64, q: u64, qb: u64) -> Mismatch
    ensures { IsMismatch (limiter_of l) qa q qb result }
{
    let low = qa.min(qb);
    let high = qa.max(qb);
    let limit = half_limit(l, low, q, high);
    Mismatch {
        size: ((high - low) / 2).min(limit.saturating_mul(2)),
        positive: qa <= qb,
    }
}

// The tracer in `m` units of air from the high end of a cell.
pub fn high_piece(d: Mismatch, have: Air, t: Tracer, m: Air) -> Tracer
    requires { Giver d have t m }
    ensures { IsPiece (model.high_piece (mismatch_of d) have.0 t.0 m.0) t result }
{
    let air = have.0 as u64;
    let amount = t.0 as u64;
    let part = m.0 as u64;
    let level = TWICE_SCALE * part * amount;
    let tilt = d.size * part * (air - part);
    let numerator = if d.positive {
        level + tilt
    } else {
        level - tilt
    };
    let whole = numerator / TWICE_SCALE; // then mostly a division of 32 bits
    let piece = (whole / air) as u32;
    Tracer::new(piece)
}

// From the low end: the same with the opposite mismatch.
pub fn low_piece(d: Mismatch, have: Air, t: Tracer, m: Air) -> Tracer
    requires { Giver d have t m }
    ensures { IsPiece (model.low_piece (mismatch_of d) have.0 t.0 m.0) t result }
{
    let opposite = Mismatch {
        size: d.size,
        positive: !d.positive,
    };
    high_piece(opposite, have, t, m)
}

// What a flux passes. The size of -2^31 does not fit an i32, so that its sign is not turned there.
impl From<i32> for Flux {
    ghost from_gives = { IsSplit };

    fn from(f: i32) -> Flux {
        let none = Air::new(0);
        let size = Air::new(f.unsigned_abs());
        if f < 0 {
            Flux {
                to_high: none,
                to_low: size,
            }
        } else {
            Flux {
                to_high: size,
                to_low: none,
            }
        }
    }
}

// Part `s` of `n` of what passes in one direction.
pub fn flux_part(n: u32, s: u32, f: Air) -> Air
    requires { (0 < s) × (s ≤ n) }
    ensures { IsFluxPart n s f result }
{
    if n == 1 || f.0 == 0 {
        return f;
    }
    let count = n as u64;
    let step = s as u64;
    let size = f.0 as u64;
    let upto = step * size / count;
    let before = (step - 1) * size / count;
    let part = (upto - before) as u32;
    Air::new(part)
}
