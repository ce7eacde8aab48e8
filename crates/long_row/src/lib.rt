// One row of a layer in a long sweep, over the row's lent parts: where the faces' air comes from, the air afterwards, and a tracer's amounts.
// A point of the line is a number: the air before it, in 64 bits. The row is swept where it lies on the line the second time.
#![tactic(auto)]

ghost use Rattle.std.specs.Prelude.{◌≡◌, ◌+◌, ◌-◌, ◌≤◌, ◌<◌, length};
ghost use Rattle.model.specs.Sweep.{forward, backward};
ghost use Rattle.model.specs.Long.{long_air_fits};
ghost use Rattle.units.specs.Limiter.{limiter_of};
ghost use Rattle.long_row.specs.Air.{LongNeed, AreDepartures, DeparturesServe, air_by};
ghost use Rattle.long_row.specs.Gas.{SlopesNeed, AreSlopes, LongGasNeed, gas_by};

use line::{air_sum, edges_serve, new_air, tracer_between};
use row::{east_of, west_of};
use scheme::{Flux, mismatch};
use substep::fill_ratios;
use units::{Air, AirSum, Limiter, MOST_COLUMNS, Mismatch};

pub const MOST_DEPARTURES: usize = MOST_COLUMNS + 2; // the line's start, and one of each face

const MOST_STRETCHES: usize = MOST_COLUMNS + 1; // between them

// Where the air at a face comes from: x − F, for the air x before the face and its flux F.
fn departure_of(x: AirSum, f: i32) -> u64
    requires { (x.0 ≤ 4294967295) × (forward f ≤ x.0 + backward f) }
    ensures { result ≡ x.0 + backward f - forward f }
{
    let flow = Flux::from(f);
    let low = flow.to_low;
    let high = flow.to_high;
    x.0 + (low.0 as u64) - (high.0 as u64)
}

// The line's start, then the departure of each face, from the west face of column 0 to the east face of the last.
pub fn fill_departures(air: &[u32], fluxes: &[i32], e: &mut [u64])
    requires { LongNeed air.now fluxes.now × (length air.now + 1 < length e.old) }
    ensures { AreDepartures air.now fluxes.now e.new }
{
    let w = air.len();
    let mut x = air_sum(air, w); // the air before the face
    e[0] = 0;
    e[1] = departure_of(x, fluxes[w - 1]);
    for j in 0..w {
        x = x.plus(Air::new(air[j]));
        e[j + 2] = departure_of(x, fluxes[j]);
    }
}

// Place 17: whether every cell's air afterwards, the air between the departures of its two faces, is 1 to 65,535.
pub fn air_serves(air: &[u32], fluxes: &[i32]) -> bool
    requires { LongNeed air.now fluxes.now }
    ensures { result ≡ long_air_fits (length air.now) fluxes.now air.now }
{
    let w = air.len();
    let end = w + 2;
    let mut e = [0u64; MOST_DEPARTURES];
    fill_departures(air, fluxes, &mut e);
    edges_serve(&e[1..end], w)
}

// The row's air afterwards.
pub fn move_air(e: &[u64], air: &mut [u32])
    requires { DeparturesServe air.old e.now }
    ensures { air.new ≡ air_by (length air.old) e.now }
{
    let w = air.len();
    let end = w + 2;
    new_air(&e[1..end], w, air);
}

// The mismatch of each column with its neighbours in the ring, by the tracer's limiter and the ratios.
fn fill_slopes(l: Limiter, q: &[u64], w: usize, slopes: &mut [Mismatch])
    requires { SlopesNeed w q.now slopes.old }
    ensures { AreSlopes (limiter_of l) w q.now slopes.new }
{
    for c in 0..w {
        let west = west_of(w, c);
        let east = east_of(w, c);
        slopes[c] = mismatch(l, q[west], q[c], q[east]);
    }
}

// A tracer's amounts in the row afterwards: those on the line between the departures of each cell's two faces.
pub fn move_gas(l: Limiter, gas: &mut [u32], air: &[u32], e: &[u64])
    requires { LongGasNeed gas.old air.now e.now }
    ensures { gas.new ≡ gas_by (limiter_of l) e.now air.now gas.old }
{
    let w = air.len();
    let end = w + 1;
    let none = Mismatch {
        size: 0,
        positive: false,
    };
    let mut q = [0u64; MOST_COLUMNS];
    let mut slopes = [none; MOST_COLUMNS];
    let mut between = [0u32; MOST_STRETCHES]; // the first is before the row
    fill_ratios(air, &gas[..], w, &mut q);
    fill_slopes(l, &q, w, &mut slopes);
    tracer_between(air, &gas[..], &slopes, w, e, end, &mut between);
    gas.copy_from_slice(&between[1..end]);
}
