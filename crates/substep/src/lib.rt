// What a substep does in a row and in a layer alike, over lent lists: the parts of the fluxes, the ratios, a piece, and what a cell has afterwards.
// A lent list holds numbers, and its parameter's name says of what: air, or a tracer (gas). A number becomes an amount, `Air::new(..)` or `Tracer::new(..)`, where it is read; amounts are added and subtracted only by functions that take and give amounts of one unit.
#![tactic(auto)]

ghost use Rattle.std.specs.Prelude.{◌≡◌, ◌+◌, ◌-◌, ◌≤◌, length};
ghost use Rattle.model.specs.Basic.{at};
ghost use Rattle.model.specs.Scheme.{high_piece, low_piece};
ghost use Rattle.units.specs.Limiter.{limiter_of};
ghost use Rattle.substep.specs.Faces.{NothingPasses, PartsNeed, AreParts};
ghost use Rattle.substep.specs.Cells.{CellFlows, Sums, may_pass};
ghost use Rattle.substep.specs.Pieces.{HasAir, AreRatios, PieceNeed, mismatch_in};

use scheme::{Flux, flux_part, high_piece, low_piece, mismatch, ratio};
use units::{AIR_LIMIT, Air, AirSum, Amount, Limiter, Sum, Tracer};

// What passes each face, of air or of a tracer, as numbers, lent to be read: `up` towards the face's high side, `down` towards its low side. Each list has an entry for each face, and may be longer, also than the other.
#[derive(Clone, Copy)]
pub struct LentFlow<'a> {
    pub up: &'a [u32],
    pub down: &'a [u32],
}

// A flow with lists of its own: F is the room for faces.
#[derive(Clone, Copy)]
pub struct Flow<const F: usize> {
    pub up: [u32; F],
    pub down: [u32; F],
}

impl<const F: usize> Flow<F> {
    // A flow in which nothing passes.
    pub fn none() -> Self
        ensures { NothingPasses result.up result.down }
    {
        Flow {
            up: [0; F],
            down: [0; F],
        }
    }

    // The flow, to be read: two lists, each with room for F faces.
    pub fn lent(&self) -> LentFlow<'_>
        ensures { (result.up.now ≡ self.now.up) × (result.down.now ≡ self.now.down) × (length result.up.now ≡ F) × (length result.down.now ≡ F) }
    {
        LentFlow {
            up: &self.up,
            down: &self.down,
        }
    }
}

// Part s of n of each flux: the air that passes its face towards the high side, and towards the low side.
pub fn fill_parts(fluxes: &[i32], n: u32, s: u32, up: &mut [u32], down: &mut [u32])
    requires { PartsNeed (length fluxes.now) n s (length up.old) (length down.old) }
    ensures { AreParts fluxes.now n s up.new down.new }
{
    for i in 0..fluxes.len() {
        let f = Flux::from(fluxes[i]);
        let high = flux_part(n, s, f.to_high);
        let low = flux_part(n, s, f.to_low);
        up[i] = high.0;
        down[i] = low.0;
    }
}

// The ratio of each of n cells.
pub fn fill_ratios(air: &[u32], gas: &[u32], n: usize, q: &mut [u64])
    requires { HasAir n air.now gas.now q.old }
    ensures { AreRatios n air.now gas.now q.new }
{
    for c in 0..n {
        q[c] = ratio(Air::new(air[c]), Tracer::new(gas[c]));
    }
}

// The piece of m units of air from cell c's high end, none where no air passes; its mismatch is taken by the tracer's limiter from the ratios of cells a and b.
pub fn high_end(
    l: Limiter,
    air: &[u32],
    gas: &[u32],
    q: &[u64],
    a: usize,
    c: usize,
    b: usize,
    m: Air,
) -> Tracer
    requires { PieceNeed air.now gas.now q.now a c b m.0 }
    ensures { result.0 ≡ high_piece (mismatch_in (limiter_of l) q.now a c b) (at air.now c) (at gas.now c) m.0 }
{
    if m.0 == 0 {
        return Tracer::new(0);
    }
    let have = Air::new(air[c]);
    let amount = Tracer::new(gas[c]);
    high_piece(mismatch(l, q[a], q[c], q[b]), have, amount, m)
}

// The same from its low end: a function of its own, since the documents have two pieces, and one with the piece as a parameter would say neither.
pub fn low_end(
    l: Limiter,
    air: &[u32],
    gas: &[u32],
    q: &[u64],
    a: usize,
    c: usize,
    b: usize,
    m: Air,
) -> Tracer
    requires { PieceNeed air.now gas.now q.now a c b m.0 }
    ensures { result.0 ≡ low_piece (mismatch_in (limiter_of l) q.now a c b) (at air.now c) (at gas.now c) m.0 }
{
    if m.0 == 0 {
        return Tracer::new(0);
    }
    let have = Air::new(air[c]);
    let amount = Tracer::new(gas[c]);
    low_piece(mismatch(l, q[a], q[c], q[b]), have, amount, m)
}

// What passes two faces together.
pub fn both<const KIND: u8>(x: Amount<KIND>, y: Amount<KIND>) -> Sum<KIND>
    ensures { (result.0 ≡ x.entry.0 + y.entry.0) × (result.0 ≤ 8589934590) }
{
    Sum::new((x.0 as u64) + (y.0 as u64))
}

// Whether a cell gives no more air than it has, and then has 1 to 65,535.
pub fn cell_allows(have: Air, enters: AirSum, leaves: AirSum) -> bool
    requires { Sums enters.0 leaves.0 }
    ensures { result ≡ may_pass have.0 enters.0 leaves.0 }
{
    let m = have.0 as u64;
    let all = m + enters.0;
    let out = leaves.0;
    (out <= m) & ((out + 1 <= all) & (all <= out + (AIR_LIMIT as u64)))
}

// A cell's amount with what enters it and without what leaves it.
pub fn after<const KIND: u8>(
    have: Amount<KIND>,
    enters: Sum<KIND>,
    leaves: Sum<KIND>,
) -> Amount<KIND>
    requires { CellFlows have.0 enters.0 leaves.0 }
    ensures { result.0 ≡ have.entry.0 + enters.entry.0 - leaves.entry.0 }
{
    Amount::new(((have.0 as u64) + enters.0 - leaves.0) as u32)
}
