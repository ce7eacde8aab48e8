// Places 1 to 4, 21, 5 and 8 of a sweep of one row in one layer, with substeps or without.
#![tactic(auto)]

ghost use Rattle.units.specs.Grid.{world_in};
ghost use Rattle.row_place.specs.RowPlace.{IsRowPlace};

use places::{Lent, common_places, fluxes_fit};
use units::{Air, Answer, Refusal, World, ZONAL_LIMIT, row_start};

// The places in this order, and then where the row starts.
pub fn row_place(w: World, layer: u32, row: u32, fluxes: &[i32]) -> Answer<usize>
    ensures { IsRowPlace (world_in w.entry) layer row fluxes.now result }
{
    common_places(w, Lent::RowFluxes(fluxes.len()))?;
    if layer >= w.grid.k || row >= w.grid.r {
        return Err(Refusal::Index);
    }
    if !fluxes_fit(fluxes, Air::new(ZONAL_LIMIT)) {
        return Err(Refusal::Fluxes);
    }
    Ok(row_start(w.grid, layer, row) as usize)
}
