// Places 1 to 4, which every call tests: the grid, the lent lengths, the air, the tracers' totals; 21, the limiters, of the calls that move air; 22, the books, of every call but a load; and place 8, of both sweeps.
// The tests of whole buffers have no early exit, so that the compiler can vectorise them, and each buffer is read once.
#![tactic(auto)]

ghost use Rattle.std.specs.Prelude.{◌≡◌, ◌+◌, ◌*◌, ◌<◌, ◌≤◌, leb, length, unsigned_abs};
ghost use Rattle.model.specs.Limits.{total_limit, most_cells, block_numbers};
ghost use Rattle.model.specs.Basic.{at, sum, every};
ghost use Rattle.model.specs.World.{air_fits};
ghost use Rattle.model.specs.Sweep.{flux};
ghost use Rattle.units.specs.Grid.{grid_of, world_in, InRange};
ghost use Rattle.places.specs.Totals.{IsTotal, TracersFit, AreTotals};
ghost use Rattle.places.specs.Tested.{lent_serves, lengths_serve, ledger_serves, IsWorldTested, IsTested};

use books::books_balance;
use limiters::limiters_fit;
use units::{
    AIR_LIMIT, Air, Answer, Grid, LEDGER_BLOCK, MOST_TRACERS, Refusal, TOTAL_LIMIT, World,
    grid_fits, world_cells,
};

// Every tracer's total; 0 for tracers that a grid does not have.
pub type Totals = [u64; MOST_TRACERS];

// Whether a cell's air is 1 to 65,535.
pub fn air_in_range(m: Air) -> bool
    ensures { result ≡ air_fits m.0 }
{
    (1 <= m.0) & (m.0 <= AIR_LIMIT)
}

// Place 3: whether every cell's air is in range. `all` has the bits of every cell's air.
pub fn air_fits(air: &[u32]) -> bool
    ensures { result ≡ every (length air.now) (λ i. air_fits (at air.now i)) }
{
    let mut all: u32 = 0;
    let mut some = true;
    for m in air {
        all |= *m;
        some &= 1 <= *m;
    }
    some & (all <= AIR_LIMIT)
}

// A sum of amounts, each added in 64 bits.
fn wide_total(gas: &[u32]) -> u64
    requires { length gas.now ≤ most_cells }
    ensures { IsTotal gas.now result }
{
    let mut sum: u64 = 0;
    for x in gas {
        sum += *x as u64;
    }
    sum
}

// The sum of a block of at most 8,192 amounts, its two halves side by side. `all` has the bits of the amounts summed: where it
// is below 2^20, no sum passed 32 bits. Sums and bits are of 32 bits, so that the loop runs at the speed of memory.
fn block_total(gas: &[u32]) -> u64
    requires { length gas.now ≤ 8192 }
    ensures { IsTotal gas.now result }
{
    let half = gas.len() / 2;
    let mut all: u32 = 0;
    let mut first: u32 = 0;
    let mut second: u32 = 0;
    for i in 0..half {
        let x = gas[i];
        let y = gas[half + i];
        all = all | x | y;
        first = first.wrapping_add(x);
        second = second.wrapping_add(y);
    }
    if all >= 1048576 {
        return wide_total(gas);
    }
    let end = half + half;
    let rest = wide_total(&gas[end..]); // one amount, or none
    (first as u64) + (second as u64) + rest
}

// A tracer's sum over all cells.
pub fn gas_total(gas: &[u32]) -> u64
    requires { length gas.now ≤ most_cells }
    ensures { (result ≡ sum (length gas.now) (at gas.now)) × (result < 562949953421312) }
{
    let mut sum: u64 = 0;
    for block in gas.chunks(8192) {
        sum += block_total(block);
    }
    sum
}

// The totals of the first n tracers, each over `cells` cells; 0 for the others.
pub fn totals(tracers: &[u32], cells: usize, n: usize) -> Totals
    requires { TracersFit tracers.now cells n }
    ensures { AreTotals tracers.now cells n result }
{
    let mut sums = [0u64; MOST_TRACERS];
    for t in 0..n {
        let a = t * cells;
        sums[t] = gas_total(&tracers[a..a + cells]);
    }
    sums
}

// Place 4: whether the totals of the first n tracers are at most 268,435,455.
pub fn totals_fit(sums: Totals, n: usize) -> bool
    requires { n ≤ 8 }
    ensures { result ≡ every n (λ t. leb (at sums t) total_limit) }
{
    let mut ok = true;
    for t in 0..n {
        ok &= sums[t] <= TOTAL_LIMIT;
    }
    ok
}

// What a call is lent besides the world, with its length: nothing, a row's fluxes, a layer's fluxes, a table.
#[derive(Clone, Copy)]
pub enum Lent {
    Nothing,
    RowFluxes(usize),
    LayerFluxes(usize),
    Table(usize),
}

// Whether that length is the grid's.
pub fn lent_fits(g: Grid, lent: Lent) -> bool
    requires { InRange g }
    ensures { result ≡ lent_serves (grid_of g) lent }
{
    let w = g.w as usize;
    let rows = g.r as usize;
    let k = g.k as usize;
    match lent {
        Lent::Nothing => true,
        Lent::RowFluxes(n) => n == w,
        Lent::LayerFluxes(n) => n == w * (rows + 1),
        Lent::Table(n) => n == 2 * (k + 1),
    }
}

// Place 2: whether the lent lengths are the grid's.
pub fn lengths_fit(w: World, lent: Lent) -> bool
    requires { InRange w.grid }
    ensures { result ≡ lengths_serve (world_in w.entry) lent }
{
    let cells = world_cells(w.grid) as usize;
    let n = w.grid.n as usize;
    let amounts = (w.air.len() == cells) & (w.tracers.len() == n * cells);
    amounts & (w.ledger.len() == n * LEDGER_BLOCK) & lent_fits(w.grid, lent)
}

// Place 21: whether the limiters of the first n tracers are sound, in a call that is lent fluxes or a table; other calls do not test them.
pub fn limiters_serve(ledger: &[u32], n: usize, lent: Lent) -> bool
    requires { (n * block_numbers ≤ length ledger.now) × (n ≤ 8) }
    ensures { result ≡ ledger_serves ledger.now n lent }
{
    match lent {
        Lent::Nothing => true,
        Lent::RowFluxes(_) | Lent::LayerFluxes(_) | Lent::Table(_) => limiters_fit(ledger, n),
    }
}

// Places 1 to 4, in this order: all that a load tests. They give every tracer's total.
pub fn world_places(w: World, lent: Lent) -> Answer<Totals>
    ensures { IsWorldTested (world_in w.entry) lent result }
{
    if !grid_fits(w.grid) {
        return Err(Refusal::GridRange);
    }
    if !lengths_fit(w, lent) {
        return Err(Refusal::Lengths);
    }
    if !air_fits(w.air) {
        return Err(Refusal::AirRange);
    }
    let n = w.grid.n as usize;
    let sums = totals(w.tracers, world_cells(w.grid) as usize, n);
    if !totals_fit(sums, n) {
        return Err(Refusal::Totals);
    }
    Ok(sums)
}

// Places 1 to 4, where the call tests it 21, and 22, in this order, of every call but a load. The sums of place 4 serve for 22.
pub fn common_places(w: World, lent: Lent) -> Answer<Totals>
    ensures { IsTested (world_in w.entry) lent result }
{
    let sums = world_places(w, lent)?;
    let n = w.grid.n as usize;
    if !limiters_serve(w.ledger, n, lent) {
        return Err(Refusal::Limiters);
    }
    if !books_balance(w.ledger, sums, n) {
        return Err(Refusal::Books);
    }
    Ok(sums)
}

// Place 8: whether every flux's size is at most the limit.
pub fn fluxes_fit(fluxes: &[i32], limit: Air) -> bool
    ensures { result ≡ every (length fluxes.now) (λ i. leb (unsigned_abs (flux fluxes.now i)) limit.0) }
{
    let mut ok = true;
    for f in fluxes {
        ok &= f.unsigned_abs() <= limit.0;
    }
    ok
}
