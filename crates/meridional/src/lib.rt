// The meridional sweep of one layer.
// A call takes the grid and each lent buffer as a parameter of its own, as the C interface does: its signature says which buffers it writes.
#![tactic(auto)]

ghost use Rattle.std.specs.Prelude.{◌≡◌};
ghost use Rattle.model.specs.Step.{meridional as meridional_call};
ghost use Rattle.units.specs.Answer.{Agrees};
ghost use Rattle.units.specs.Grid.{grid_of, world_of, world_in};
ghost use Rattle.substep.specs.Faces.{flow_of};
ghost use Rattle.meridional.specs.LayerPlace.{Rooms, LayerNeed, IsPermit, IsLayerPlace};
ghost use Rattle.meridional.specs.LayerTracers.{LayerTracersNeed, swept_tracers};

use layer::{Shape, layer_allowed, pass_layer};
use layer_gas::step_layer_gas;
use limiters::limiter_at;
use places::{Lent, common_places, fluxes_fit};
use substep::{Flow, LentFlow, fill_parts};
use units::{
    AIR, Air, Answer, Grid, MERIDIONAL_LIMIT, MOST_FACES, MOST_LAYER_CELLS, Refusal, World,
    layer_cells, layer_start, world_cells,
};

// Fills flow with the air that passes each face, up northward and down southward, and says whether the substep is allowed.
fn layer_permits(
    g: Grid,
    air: &[u32],
    first: usize,
    fluxes: &[i32],
    flow: &mut Flow<MOST_FACES>,
) -> bool
    requires { LayerNeed (grid_of g) air.now first fluxes.now }
    ensures { IsPermit (grid_of g) air.now first fluxes.now flow.new.up flow.new.down result }
{
    let end = first + layer_cells(g) as usize;
    fill_parts(fluxes, 1, 1, &mut flow.up, &mut flow.down);
    layer_allowed(&air[first..end], flow.lent(), Shape::of(g))
}

// Places 1 to 4, 21, 5, 8 and 10, and then where the layer starts, with the air that passes each face in flow.
fn layer_place(w: World, layer: u32, fluxes: &[i32], flow: &mut Flow<MOST_FACES>) -> Answer<usize>
    ensures { IsLayerPlace (world_in w.entry) layer fluxes.now flow.new.up flow.new.down result }
{
    common_places(w, Lent::LayerFluxes(fluxes.len()))?;
    if layer >= w.grid.k {
        return Err(Refusal::Index);
    }
    if !fluxes_fit(fluxes, Air::new(MERIDIONAL_LIMIT)) {
        return Err(Refusal::Fluxes);
    }
    let first = layer_start(w.grid, layer) as usize;
    if !layer_permits(w.grid, w.air, first, fluxes, flow) {
        return Err(Refusal::Meridional);
    }
    Ok(first)
}

// The layer of every tracer, swept where it is lent, with the limiter of its block of the ledger; `air` is the layer's.
fn sweep_tracers(
    g: Grid,
    tracers: &mut [u32],
    ledger: &[u32],
    air: &[u32],
    flow: LentFlow,
    first: usize,
)
    requires { Rooms flow.up.now flow.down.now × LayerTracersNeed (grid_of g) tracers.old ledger.now air.now (flow_of flow.up.now flow.down.now) first }
    ensures { tracers.new ≡ swept_tracers (grid_of g) tracers.old ledger.now air.now (flow_of flow.entry.up.now flow.entry.down.now) first }
{
    let shape = Shape::of(g);
    let wide = layer_cells(g) as usize;
    let cells = world_cells(g) as usize;
    let mut q = [0u64; MOST_LAYER_CELLS];
    let mut carried: Flow<MOST_FACES> = Flow::none();
    for t in 0..g.n as usize {
        let a = t * cells + first;
        let l = limiter_at(ledger, t);
        step_layer_gas(
            l,
            &mut tracers[a..a + wide],
            air,
            flow,
            shape,
            &mut q,
            &mut carried.up,
            &mut carried.down,
        );
    }
}

// Sweeps one layer with its caps, in the air and in all tracers.
pub fn meridional(
    g: Grid,
    air: &mut [u32],
    tracers: &mut [u32],
    ledger: &[u32],
    layer: u32,
    fluxes: &[i32],
) -> Answer
    ensures { Agrees (world_of g air.old tracers.old ledger.now) (meridional_call layer fluxes.now) result (world_of g air.new tracers.new ledger.now) }
{
    let mut flow: Flow<MOST_FACES> = Flow::none();
    let w = World {
        grid: g,
        air,
        tracers,
        ledger,
    };
    let a = layer_place(w, layer, fluxes, &mut flow)?;
    let e = a + layer_cells(g) as usize; // of the layer's part, which is lent twice
    let passes = flow.lent();
    sweep_tracers(g, tracers, ledger, &air[a..e], passes, a);
    pass_layer::<AIR>(&mut air[a..e], passes, Shape::of(g));
    Ok(1)
}
