// The remap of all columns.
// The call takes the grid and each lent buffer as a parameter of its own, as the C interface does: its signature says which buffers it writes.
#![tactic(auto)]

ghost use Rattle.std.specs.Prelude.{◌≡◌, ◌||◌, ◌+◌, ◌*◌, ◌≤◌, ◌<◌, eqb, length};
ghost use Rattle.model.specs.Basic.{at, every};
ghost use Rattle.model.specs.Walk.{budget};
ghost use Rattle.units.specs.Limiter.{limiter_of};
ghost use Rattle.substep.specs.Pieces.{HasAir, AreRatios};
ghost use Rattle.column.specs.Column.{firsts};
ghost use Rattle.column.specs.Gas.{IsCounted};
ghost use Rattle.remap.specs.Columns.{ColumnNeed, column_of, column_set};
ghost use Rattle.remap.specs.Served.{ReadNeed, IsColumn, ColumnsNeed, serves_at};
ghost use Rattle.remap.specs.Gas.{GasNeed, IsGasMoved};
ghost use Rattle.remap.specs.Tracers.{ColumnTracersNeed, AreTracersMoved};
ghost use Rattle.remap.specs.Moved.{ColumnsTracersNeed, AreMoved};
ghost use Rattle.remap.specs.RemapPlace.{IsRemapPlace};
ghost use Rattle.model.specs.Step.{remap as remap_call};
ghost use Rattle.units.specs.Answer.{Agrees};
ghost use Rattle.units.specs.Grid.{world_in, world_of};

use column::{fill_edges, remap_gas, table_fits};
use limiters::limiter_at;
use line::{Walked, air_sum, edges_serve, new_air};
use places::{Lent, common_places};
use scheme::ratio;
use units::{
    Air, Answer, Grid, Limiter, MOST_EDGES, MOST_LAYERS, Mismatch, Refusal, Tracer, World,
    layer_cells,
};

// Where a column stands in lent amounts: at place c of the `cells` places of each of k layers.
#[derive(Clone, Copy)]
struct Stand {
    c: usize,
    cells: usize,
    k: usize,
}

// A column's old air, and its new edges in it.
#[derive(Drop)]
struct Column {
    air: [u32; MOST_LAYERS],
    e: [u64; MOST_EDGES],
}

impl Column {
    fn empty() -> Self {
        Column {
            air: [0; MOST_LAYERS],
            e: [0; MOST_EDGES],
        }
    }
}

// Copies a column of lent amounts to the first k entries of `column`.
fn read_column(list: &[u32], p: Stand, column: &mut [u32])
    requires { ColumnNeed list.now p.c p.cells p.k × (p.k ≤ length column.old) }
    ensures { firsts p.k column.new ≡ column_of p.k p.cells list.now p.c }
{
    for i in 0..p.k {
        column[i] = list[i * p.cells + p.c];
    }
}

// Copies a tracer's column in the same way, and finds the ratios by the column's air, in one loop.
fn read_ratios(gas: &[u32], air: &[u32], p: Stand, column: &mut [u32], q: &mut [u64])
    requires { ColumnNeed gas.now p.c p.cells p.k × HasAir p.k air.now column.old q.old }
    ensures { (firsts p.k column.new ≡ column_of p.k p.cells gas.now p.c) × AreRatios p.k air.now column.new q.new }
{
    for i in 0..p.k {
        let amount = gas[i * p.cells + p.c];
        column[i] = amount;
        q[i] = ratio(Air::new(air[i]), Tracer::new(amount));
    }
}

// Writes a column back.
fn write_column(column: &[u32], list: &mut [u32], p: Stand)
    requires { ColumnNeed list.old p.c p.cells p.k × (p.k ≤ length column.now) }
    ensures { list.new ≡ column_set p.cells list.old p.c (at column.now) p.k }
{
    for i in 0..p.k {
        list[i * p.cells + p.c] = column[i];
    }
}

// Copies a column's air, and fills the table's edges in it.
fn read_edges(air: &[u32], table: &[u32], p: Stand, column: &mut Column)
    requires { ReadNeed air.now table.now p.c p.cells p.k }
    ensures { IsColumn air.now table.now p.c p.cells p.k column.new.air column.new.e }
{
    read_column(air, p, &mut column.air);
    let sum = air_sum(&column.air, p.k);
    fill_edges(table, sum, p.k, &mut column.e);
}

// Place 12, before anything is written: whether every column's edges serve.
fn columns_serve(air: &[u32], table: &[u32], cells: usize, k: usize) -> bool
    requires { ColumnsNeed air.now table.now cells k }
    ensures { result ≡ every cells (serves_at k cells table.now air.now) }
{
    let mut column = Column::empty();
    for c in 0..cells {
        read_edges(air, table, Stand { c, cells, k }, &mut column);
        if !edges_serve(&column.e, k) {
            return false;
        }
    }
    true
}

// Whether place c is a cap's.
fn is_cap(c: usize, cells: usize) -> bool
    requires { c < cells }
    ensures { result ≡ eqb c 0 || eqb (c + 1) cells }
{
    (c == 0) | (c + 1 == cells)
}

// Remaps one tracer, by its limiter, in a column, by one walk. The lists after p are filled on the way; they are lent, so that they are made once for all columns and tracers (measured: made for each column, a remap of two layers takes 1.2 of the time).
// They are no struct: in one, the compiler cannot tell the new amounts, which are written, from the old ones, which are read (measured: a remap takes 1.04 of the time).
fn move_gas(
    l: Limiter,
    gas: &mut [u32],
    column: &Column,
    p: Stand,
    old: &mut [u32; MOST_LAYERS],
    q: &mut [u64; MOST_LAYERS],
    slopes: &mut [Mismatch; MOST_LAYERS],
    new: &mut [u32; MOST_LAYERS],
) -> Walked
    requires { GasNeed gas.old column.now.air column.now.e p.c p.cells p.k }
    ensures { IsGasMoved (limiter_of l) gas.old column.now.air column.now.e p.c p.cells p.k gas.new × (result.steps + 1 ≡ budget p.k) × IsCounted p.k column.now.air column.now.e result.ends }
{
    read_ratios(gas, &column.air, p, old, q);
    let cap = is_cap(p.c, p.cells);
    let walked = remap_gas(l, &column.air, old, cap, &column.e, p.k, q, slopes, new);
    write_column(new, gas, p);
    walked
}

// Remaps the n tracers in that column, each by its limiter, one after the other, and gives the steps of their walks together; the ends are those of each of them, since all walks go by the same air and edges.
fn move_column(
    tracers: &mut [u32],
    ledger: &[u32],
    column: &Column,
    p: Stand,
    n: usize,
    old: &mut [u32; MOST_LAYERS],
    q: &mut [u64; MOST_LAYERS],
    slopes: &mut [Mismatch; MOST_LAYERS],
    new: &mut [u32; MOST_LAYERS],
) -> Walked
    requires { ColumnTracersNeed tracers.old ledger.now column.now.air column.now.e p.c p.cells p.k n }
    ensures { AreTracersMoved tracers.old ledger.now column.now.air column.now.e p.c p.cells p.k n tracers.new × (result.steps + n ≡ n * budget p.k) × IsCounted p.k column.now.air column.now.e result.ends }
{
    let mut all = Walked { steps: 0, ends: 0 };
    for t in 0..n {
        let a = t * (p.k * p.cells);
        let b = a + p.k * p.cells;
        let l = limiter_at(ledger, t);
        let walked = move_gas(l, &mut tracers[a..b], column, p, old, q, slopes, new);
        all.steps += walked.steps;
        all.ends = walked.ends;
    }
    all
}

// The steps of all walks, and exactly the pairs of an old and a new layer that share air, in all columns.
#[derive(Clone, Copy)]
struct Moved {
    steps: usize,
    count: u32,
}

// Remaps all columns, one after the other. A column's air is written last: the walks go by what it was.
fn move_columns(
    tracers: &mut [u32],
    ledger: &[u32],
    air: &mut [u32],
    table: &[u32],
    cells: usize,
    k: usize,
    n: usize,
) -> Moved
    requires { ColumnsTracersNeed tracers.old ledger.now air.old table.now cells k n }
    ensures { AreMoved tracers.old ledger.now air.old table.now cells k n tracers.new air.new result.steps result.count }
{
    let none = Mismatch {
        size: 0,
        positive: false,
    };
    let mut old = [0u32; MOST_LAYERS];
    let mut q = [0u64; MOST_LAYERS];
    let mut slopes = [none; MOST_LAYERS];
    let mut new = [0u32; MOST_LAYERS];
    let mut column = Column::empty();
    let mut moved = Moved { steps: 0, count: 0 };
    for c in 0..cells {
        let p = Stand { c, cells, k };
        read_edges(air, table, p, &mut column);
        let walked = move_column(
            tracers,
            ledger,
            &column,
            p,
            n,
            &mut old,
            &mut q,
            &mut slopes,
            &mut new,
        );
        moved.steps += walked.steps;
        let pairs = 2 * k - walked.ends;
        moved.count += pairs as u32;
        new_air(&column.e, k, &mut column.air);
        write_column(&column.air, air, p);
    }
    moved
}

// Places 1 to 4, 21, 11 and 12; the columns start at cell 0. The count comes with the walks.
fn remap_place(w: World, table: &[u32]) -> Answer<()>
    ensures { IsRemapPlace (world_in w.entry) table.now result }
{
    common_places(w, Lent::Table(table.len()))?;
    let k = w.grid.k as usize;
    if !table_fits(table, k) {
        return Err(Refusal::Table);
    }
    let cells = layer_cells(w.grid) as usize;
    if !columns_serve(w.air, table, cells, k) {
        return Err(Refusal::Remap);
    }
    Ok(())
}

// Remaps all columns, in the air and in all tracers. Its count is exactly the number of pairs of an old and a new layer that share some air, summed over columns.
pub fn remap(g: Grid, air: &mut [u32], tracers: &mut [u32], ledger: &[u32], table: &[u32]) -> Answer
    ensures { Agrees (world_of g air.old tracers.old ledger.now) (remap_call table.now) result (world_of g air.new tracers.new ledger.now) }
{
    let w = World {
        grid: g,
        air,
        tracers,
        ledger,
    };
    remap_place(w, table)?;
    let cells = layer_cells(g) as usize;
    let k = g.k as usize;
    let n = g.n as usize;
    let moved = move_columns(tracers, ledger, air, table, cells, k, n);
    Ok(moved.count)
}
