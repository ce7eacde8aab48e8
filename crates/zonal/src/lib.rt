// The zonal sweep of one row in one layer; the count before the sweep, and the sweep with a given count.
// The calls and `sweep_row` take the grid and each lent buffer as a parameter of its own, as the C interface does: their signatures say which buffers they write.
#![tactic(auto)]

ghost use Rattle.model.specs.Step.{zonal as zonal_call, count_zonal, zonal_with_count};
ghost use Rattle.units.specs.Answer.{Agrees};
ghost use Rattle.units.specs.Grid.{grid_of, world_of, world_in};
ghost use Rattle.zonal.specs.ZonalPlace.{IsZonalPlace};
ghost use Rattle.zonal.specs.RowSwept.{RowReady, IsSwept};

use row::count;
use row_place::row_place;
use rows::{RowPart, load_rows, store_rows, sweep_rows};
use units::{Answer, Grid, Refusal, World, world_cells};

// Where a row starts, and its substep count.
#[derive(Clone, Copy)]
struct ZonalRow {
    first: usize,
    substeps: u32,
}

// Places 1 to 4, 21, 5, 8 and 9.
fn zonal_place(w: World, layer: u32, row: u32, fluxes: &[i32]) -> Answer<ZonalRow>
    ensures { IsZonalPlace (world_in w.entry) layer row fluxes.now result }
{
    let first = row_place(w, layer, row, fluxes)?;
    let end = first + w.grid.w as usize;
    let substeps = count(&w.air[first..end], fluxes).ok_or(Refusal::Zonal)?;
    Ok(ZonalRow { first, substeps })
}

// The row, swept in the air and in all tracers; of the air only its cells are lent on.
fn sweep_row(
    g: Grid,
    air: &mut [u32],
    tracers: &mut [u32],
    ledger: &[u32],
    row: ZonalRow,
    fluxes: &[i32],
)
    requires { RowReady (grid_of g) air.old tracers.old ledger.now row.first fluxes.now row.substeps }
    ensures { IsSwept (grid_of g) air.old tracers.old ledger.now row.first fluxes.now row.substeps air.new tracers.new }
{
    let part = RowPart {
        first: row.first,
        w: g.w as usize,
        cells: world_cells(g) as usize,
        n: g.n as usize,
    };
    let end = part.first + part.w;
    let rows = load_rows(tracers, part);
    let swept = sweep_rows(
        rows,
        ledger,
        &mut air[part.first..end],
        fluxes,
        row.substeps,
        part.n,
    );
    store_rows(&swept, tracers, part);
}

// Sweeps one row in one layer, in the air and in all tracers.
pub fn zonal(
    g: Grid,
    air: &mut [u32],
    tracers: &mut [u32],
    ledger: &[u32],
    layer: u32,
    row: u32,
    fluxes: &[i32],
) -> Answer
    ensures { Agrees (world_of g air.old tracers.old ledger.now) (zonal_call layer row fluxes.now) result (world_of g air.new tracers.new ledger.now) }
{
    let w = World {
        grid: g,
        air,
        tracers,
        ledger,
    };
    let found = zonal_place(w, layer, row, fluxes)?;
    sweep_row(g, air, tracers, ledger, found, fluxes);
    Ok(found.substeps)
}

// The count of the sweep before it is made; everything is only read.
pub fn count_zonal(
    g: Grid,
    air: &[u32],
    tracers: &[u32],
    ledger: &[u32],
    layer: u32,
    row: u32,
    fluxes: &[i32],
) -> Answer
    ensures { Agrees (world_of g air.now tracers.now ledger.now) (count_zonal layer row fluxes.now) result (world_of g air.now tracers.now ledger.now) }
{
    let w = World {
        grid: g,
        air,
        tracers,
        ledger,
    };
    Ok(zonal_place(w, layer, row, fluxes)?.substeps)
}

// The same sweep with a given count, which must be the one that it has.
pub fn zonal_with_count(
    g: Grid,
    air: &mut [u32],
    tracers: &mut [u32],
    ledger: &[u32],
    layer: u32,
    row: u32,
    given: u32,
    fluxes: &[i32],
) -> Answer
    ensures { Agrees (world_of g air.old tracers.old ledger.now) (zonal_with_count layer row given fluxes.now) result (world_of g air.new tracers.new ledger.now) }
{
    let w = World {
        grid: g,
        air,
        tracers,
        ledger,
    };
    let found = zonal_place(w, layer, row, fluxes)?;
    if given != found.substeps {
        return Err(Refusal::GivenCount);
    }
    sweep_row(g, air, tracers, ledger, found, fluxes);
    Ok(given)
}
