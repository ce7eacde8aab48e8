// The row of every tracer: loaded from the lent amounts, carried through a sweep's substeps as an array of 8 arrays of 72 amounts, written back.
// Every piece of a tracer is taken into a list before any amount changes.
#![tactic(auto)]

ghost use Rattle.std.specs.Prelude.{◌≡◌};
ghost use Rattle.units.specs.Limiter.{limiter_of};
ghost use Rattle.substep.specs.Faces.{flow_of};
ghost use Rattle.rows.specs.Gas.{StepNeed, PiecesNeed, ArePieces, row_stepped, StepsNeed, AreSteps};
ghost use Rattle.rows.specs.Rows.{RowsFit, AreRows, StoreNeed, stored_rows};
ghost use Rattle.rows.specs.Swept.{SweepNeed, AreSwept};

use limiters::limiter_at;
use row::{east_of, pass, west_of};
use substep::{Flow, LentFlow, fill_parts, fill_ratios, high_end, low_end};
use units::{AIR, Air, Limiter, MOST_COLUMNS, MOST_TRACERS, TRACER};

// The rows of all tracers: the first w amounts of each of the first n are used.
// One array by value, with the number of tracers beside it and not a slice: docs/DECISIONS.md names this form for a row of all tracers.
pub type Rows = [[u32; MOST_COLUMNS]; MOST_TRACERS];

// Where a row lies in the lent amounts of n tracers of `cells` cells each: w cells of each tracer, from its cell `first` on.
#[derive(Clone, Copy)]
pub struct RowPart {
    pub first: usize,
    pub w: usize,
    pub cells: usize,
    pub n: usize,
}

// The pieces through each face i: from column i's high end, and from the low end of the column east of it; l is the tracer's limiter.
fn fill_pieces(
    l: Limiter,
    air: &[u32],
    gas: &[u32],
    q: &[u64],
    flow: LentFlow,
    up: &mut [u32],
    down: &mut [u32],
)
    requires { PiecesNeed air.now gas.now q.now flow.up.now flow.down.now up.old down.old }
    ensures { ArePieces (limiter_of l) air.now gas.now (flow_of flow.entry.up.now flow.entry.down.now) (flow_of up.new down.new) }
{
    let w = air.len();
    for i in 0..w {
        let west = west_of(w, i);
        let east = east_of(w, i);
        let next = east_of(w, east);
        let eastward = Air::new(flow.up[i]);
        let westward = Air::new(flow.down[i]);
        let p = high_end(l, air, gas, q, west, i, east, eastward);
        let r = low_end(l, air, gas, q, i, east, next, westward);
        up[i] = p.0;
        down[i] = r.0;
    }
}

// A tracer's amounts in a row after one substep.
fn step_gas(l: Limiter, gas: &mut [u32], air: &[u32], flow: LentFlow)
    requires { StepNeed gas.old air.now flow.up.now flow.down.now }
    ensures { gas.new ≡ row_stepped (limiter_of l) gas.old air.now flow.entry.up.now flow.entry.down.now }
{
    let mut q = [0; MOST_COLUMNS];
    let mut pieces: Flow<MOST_COLUMNS> = Flow::none();
    fill_ratios(air, gas, air.len(), &mut q);
    fill_pieces(l, air, gas, &q, flow, &mut pieces.up, &mut pieces.down);
    pass::<TRACER>(gas, pieces.lent());
}

// The rows of the first `tracers` tracers after one substep, each with the limiter of its block of the ledger.
fn step_rows(rows: &mut Rows, ledger: &[u32], air: &[u32], flow: LentFlow, tracers: usize)
    requires { StepsNeed tracers rows.old ledger.now air.now flow.up.now flow.down.now }
    ensures { AreSteps tracers rows.old ledger.now air.now flow.entry.up.now flow.entry.down.now rows.new }
{
    for t in 0..tracers {
        let l = limiter_at(ledger, t);
        step_gas(l, &mut rows[t][0..air.len()], air, flow);
    }
}

// The row of each tracer, from its part of the lent amounts: tracer t's starts at `first` past t·K·C.
pub fn load_rows(tracers: &[u32], part: RowPart) -> Rows
    requires { RowsFit tracers.now part.first part.cells part.w part.n }
    ensures { AreRows tracers.now part.first part.cells part.w part.n result }
{
    let mut rows = [[0; MOST_COLUMNS]; MOST_TRACERS];
    for t in 0..part.n {
        let a = t * part.cells + part.first;
        rows[t][0..part.w].copy_from_slice(&tracers[a..a + part.w]);
    }
    rows
}

// Writes the row of each tracer back to its part.
pub fn store_rows(rows: &Rows, tracers: &mut [u32], part: RowPart)
    requires { StoreNeed tracers.old part.first part.cells part.w part.n rows.now }
    ensures { tracers.new ≡ stored_rows tracers.old part.first part.cells part.w part.n rows.now }
{
    for t in 0..part.n {
        let a = t * part.cells + part.first;
        tracers[a..a + part.w].copy_from_slice(&rows[t][..part.w]);
    }
}

// The rows of the first `tracers` tracers after n substeps, carried by value; the substeps are made in the row's lent air too.
pub fn sweep_rows(
    mut rows: Rows,
    ledger: &[u32],
    air: &mut [u32],
    fluxes: &[i32],
    n: u32,
    tracers: usize,
) -> Rows
    requires { SweepNeed rows ledger.now air.old fluxes.now n tracers }
    ensures { AreSwept rows ledger.now air.old fluxes.now n tracers air.new result }
{
    let mut flow: Flow<MOST_COLUMNS> = Flow::none();
    for s in 0..n {
        fill_parts(fluxes, n, s + 1, &mut flow.up, &mut flow.down);
        let passes = flow.lent();
        step_rows(&mut rows, ledger, air, passes, tracers);
        pass::<AIR>(air, passes);
    }
    rows
}
