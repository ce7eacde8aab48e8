// A line of cells, of a column or of a row: its air, and the air and the tracer between edges on it.
// An edge is a number: air counted from the line's low end, in 64 bits, since an edge that does not serve may be any number.
// `air` and `newair` hold air, `gas` and `newgas` a tracer, `slopes` the mismatch in each cell.
#![tactic(auto)]

ghost use Rattle.std.specs.Prelude.{◌≡◌, ◌&&◌, ◌+◌, ◌-◌, ◌≤◌, ◌<◌, length, leb, ltb};
ghost use Rattle.model.specs.Limits.{air_limit};
ghost use Rattle.model.specs.Basic.{every};
ghost use Rattle.line.specs.Line.{AirNeed, IsAirSum, serves_at, Served, IsNewAir, LineNeed, IsWalk};
ghost use Rattle.line.specs.Tracer.{AtStart, TurnNeed, IsTurn};

use scheme::low_piece;
use units::{AIR_LIMIT, Air, AirSum, Amount, Mismatch, Tracer};

// The air of the first k cells.
pub fn air_sum(air: &[u32], k: usize) -> AirSum
    requires { AirNeed k air.now }
    ensures { IsAirSum k air.now result.0 }
{
    let mut sum = AirSum::new(0);
    for i in 0..k {
        sum = sum.plus(Air::new(air[i]));
    }
    sum
}

// Whether a new cell between two edges has air, and at most 65,535.
fn cell_serves(low: u64, high: u64) -> bool
    ensures { result ≡ ltb low high && leb (high - low) air_limit }
{
    low < high && high - low <= AIR_LIMIT as u64
}

// Whether k + 1 edges rise strictly, with no new cell above 65,535.
pub fn edges_serve(e: &[u64], k: usize) -> bool
    requires { k < length e.now }
    ensures { result ≡ every k (serves_at e.now) }
{
    let mut ok = true;
    for j in 0..k {
        ok &= cell_serves(e[j], e[j + 1]);
    }
    ok
}

// The air between two edges.
fn air_between(low: u64, high: u64) -> Air
    requires { (low ≤ high) × (high - low ≤ air_limit) }
    ensures { result.0 ≡ high - low }
{
    Air::new((high - low) as u32)
}

// The air from the end of the cells passed to an edge in the cell after them. Its own function, since what is passed is air and no edge, so that its type is asked for.
fn air_inside(passed: AirSum, edge: u64) -> Air
    requires { (passed.0 ≤ edge) × (edge - passed.0 ≤ air_limit) }
    ensures { result.0 ≡ edge - passed.0 }
{
    air_between(passed.0, edge)
}

// The air of the k new cells between k + 1 edges.
pub fn new_air(e: &[u64], k: usize, newair: &mut [u32])
    requires { Served k e.now × (k ≤ length newair.old) }
    ensures { IsNewAir k e.now newair.new }
{
    for j in 0..k {
        newair[j] = air_between(e[j], e[j + 1]).0;
    }
}

// The sum and the difference of two amounts of one kind. Functions of their own and no `impl Add`: here their requires says that they fit.
fn plus<const KIND: u8>(a: Amount<KIND>, b: Amount<KIND>) -> Amount<KIND>
    requires { a.0 + b.0 ≤ 4294967295 }
    ensures { result.0 ≡ a.entry.0 + b.entry.0 }
{
    Amount::new(a.0 + b.0)
}

fn minus<const KIND: u8>(a: Amount<KIND>, b: Amount<KIND>) -> Amount<KIND>
    requires { b.0 ≤ a.0 }
    ensures { result.0 ≡ a.entry.0 - b.entry.0 }
{
    Amount::new(a.0 - b.0)
}

// Where a walk along the line stands: the cells passed, their air and their tracer, the edges passed after edge 0, the tracer up to the last of them, and how many of these edges lie where a cell ends.
#[derive(Clone, Copy)]
struct Place {
    i: usize,
    passed: AirSum,
    whole: Tracer,
    j: usize,
    last: Tracer,
    ends: usize,
}

impl Place {
    // Before the first cell, at edge 0.
    fn start() -> Self
        ensures { AtStart result }
    {
        Place {
            i: 0,
            passed: AirSum::new(0),
            whole: Tracer::new(0),
            j: 0,
            last: Tracer::new(0),
            ends: 0,
        }
    }

    // One cell on, where the cells up to its end have the air `passed` and the tracer `whole`.
    fn past_cell(self, passed: AirSum, whole: Tracer) -> Self
        requires { self.i < 18446744073709551615 }
        ensures { result ≡ record { i = self.i + 1; passed = passed; whole = whole; j = self.j; last = self.last; ends = self.ends } }
    {
        Place {
            i: self.i + 1,
            passed,
            whole,
            ..self
        }
    }

    // One edge on, where the line up to it has the tracer `upto`.
    fn past_edge(self, upto: Tracer) -> Self
        requires { self.j < 18446744073709551615 }
        ensures { result ≡ record { i = self.i; passed = self.passed; whole = self.whole; j = self.j + 1; last = upto; ends = self.ends } }
    {
        Place {
            j: self.j + 1,
            last: upto,
            ..self
        }
    }
}

// Walks on along the n cells once, from the first, until the last edge or the last cell is passed.
// A step passes cell c, or the high edge of new cell j where that is reached first, so that no range counts the steps. Where the edge is the cell's end, the piece is the whole cell, without a division.
fn walk_turn(
    air: &[u32],
    gas: &[u32],
    slopes: &[Mismatch],
    n: usize,
    e: &[u64],
    m: usize,
    newgas: &mut [u32],
    start: Place,
) -> Place
    requires { TurnNeed n air.now gas.now slopes.now e.now m newgas.old start }
    ensures { IsTurn n air.now gas.now slopes.now e.now m newgas.new start result }
{
    let mut place = start;
    let mut c = 0;
    while place.j < m {
        let have = Air::new(air[c]);
        let t = Tracer::new(gas[c]);
        let end = place.passed.plus(have);
        let edge = e[place.j + 1];
        if end.0 < edge {
            place = place.past_cell(end, plus(place.whole, t));
            c += 1;
            if c == n {
                return place;
            }
            continue;
        }
        if end.0 == edge {
            let upto = plus(place.whole, t);
            newgas[place.j] = minus(upto, place.last).0;
            place = place.past_edge(upto);
            place.ends += 1;
            continue;
        }
        let inside = air_inside(place.passed, edge);
        let next = plus(place.whole, low_piece(slopes[c], have, t, inside));
        newgas[place.j] = minus(next, place.last).0;
        place = place.past_edge(next);
    }
    place
}

// A walk that has been made: its steps, and how many edges after edge 0 lie where a cell ends.
#[derive(Clone, Copy)]
pub struct Walked {
    pub steps: usize,
    pub ends: usize,
}

// A tracer's amounts between m + 1 edges on the line that n cells make, laid one after the other: cell i of the line is cell i mod n.
// The walk goes along the line once, turn after turn, until the last edge is passed; a column has one turn, and a row's turns are not known before.
pub fn tracer_between(
    air: &[u32],
    gas: &[u32],
    slopes: &[Mismatch],
    n: usize,
    e: &[u64],
    m: usize,
    newgas: &mut [u32],
) -> Walked
    requires { LineNeed n air.now gas.now slopes.now e.now m newgas.old }
    ensures { IsWalk n air.now gas.now slopes.now e.now m newgas.new result.steps result.ends }
{
    let mut place = Place::start();
    while place.j < m {
        place = walk_turn(air, gas, slopes, n, e, m, newgas, place);
    }
    Walked {
        steps: place.i + place.j,
        ends: place.ends,
    }
}
