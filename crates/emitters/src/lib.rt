// The calls on a tracer's standing emitters: one is added or removed, all of them emit in a tick, their units a tick are read. Each takes the grid and the lent buffers one by one, as its C function does, so that its signature says which of them it writes.
#![tactic(auto)]

ghost use Rattle.std.specs.Prelude.{◌≡◌, ◌<◌, length};
ghost use Rattle.model.specs.Limits.{most_emitters, block_numbers};
ghost use Rattle.model.specs.Emitters.{standing, emitter_added, removed_at, ticked};
ghost use Rattle.ledger.specs.Block.{Kept};
ghost use Rattle.model.specs.Step.{add_emitter, remove_emitter, tick as tick_call, units_a_tick};
ghost use Rattle.units.specs.Grid.{world_of, world_in};
ghost use Rattle.units.specs.Answer.{Agrees};
ghost use Rattle.emitters.specs.Place.{IsEmitterPlace};
ghost use Rattle.emitters.specs.Tick.{EmitNeed};

use books::{emission_fits, enter_emitted_in};
use ledger::{
    Emitter, add, emitter_at, kept_units, place_of, records_fit, remove, standing_in, takes,
};
use limiters::{Block, block_at};
use places::{Lent, common_places};
use units::{Answer, Grid, LEDGER_BLOCK, Refusal, World, world_cells};

// The places before a call's own, the named tracer and the records of all tracers; they give the tracer's total, and its record fits the world.
fn emitter_place(w: World, tracer: u32) -> Answer<u64>
    ensures { IsEmitterPlace (world_in w.entry) tracer result }
{
    let totals = common_places(w, Lent::Nothing)?;
    if tracer >= w.grid.n {
        return Err(Refusal::Index);
    }
    let n = w.grid.n as usize;
    let cells = world_cells(w.grid) as usize;
    if !records_fit(w.ledger, n, cells) {
        return Err(Refusal::Index);
    }
    Ok(totals[tracer as usize])
}

// Adds an emitter in a tracer's part of the ledger; and removes the one in place i. They write where it is lent: a copy of the block would want a function of libc, and so more stack than the calls.
fn add_in(part: &mut [u32], emitter: Emitter)
    requires { (length part.old ≡ block_numbers) × Kept part.old × (standing part.old < most_emitters) }
    ensures { (part.new ≡ emitter_added part.old emitter.id emitter.cell emitter.units) × (length part.new ≡ block_numbers) }
{
    let Some(block) = part.as_mut_array() else {
        unreachable!()
    };
    add(block, emitter);
}

fn remove_in(part: &mut [u32], i: usize)
    requires { (length part.old ≡ block_numbers) × Kept part.old × (i < standing part.old) }
    ensures { (part.new ≡ removed_at part.old i) × (length part.new ≡ block_numbers) }
{
    let Some(block) = part.as_mut_array() else {
        unreachable!()
    };
    remove(block, i);
}

// Adds an emitter to a tracer, under an id that it has not.
pub fn add_emitter(
    g: Grid,
    air: &[u32],
    tracers: &[u32],
    ledger: &mut [u32],
    tracer: u32,
    cell: u32,
    id: u32,
    units: u32,
) -> Answer
    ensures { Agrees (world_of g air.now tracers.now ledger.old) (add_emitter tracer cell id units) result (world_of g air.now tracers.now ledger.new) }
{
    let w = World {
        grid: g,
        air,
        tracers,
        ledger,
    };
    emitter_place(w, tracer)?;
    if cell >= world_cells(g) {
        return Err(Refusal::Index);
    }
    if !takes(block_at(ledger, tracer as usize), id) {
        return Err(Refusal::EmitterAdded);
    }
    let a = (tracer as usize) * LEDGER_BLOCK;
    add_in(
        &mut ledger[a..a + LEDGER_BLOCK],
        Emitter { id, cell, units },
    );
    Ok(0)
}

// Removes the emitter of that id from a tracer.
pub fn remove_emitter(
    g: Grid,
    air: &[u32],
    tracers: &[u32],
    ledger: &mut [u32],
    tracer: u32,
    id: u32,
) -> Answer
    ensures { Agrees (world_of g air.now tracers.now ledger.old) (remove_emitter tracer id) result (world_of g air.now tracers.now ledger.new) }
{
    let w = World {
        grid: g,
        air,
        tracers,
        ledger,
    };
    emitter_place(w, tracer)?;
    let Some(i) = place_of(block_at(ledger, tracer as usize), id) else {
        return Err(Refusal::EmitterAbsent);
    };
    let a = (tracer as usize) * LEDGER_BLOCK;
    remove_in(&mut ledger[a..a + LEDGER_BLOCK], i);
    Ok(0)
}

// Emits the units of every standing emitter.
fn emit(gas: &mut [u32], block: &Block)
    requires { EmitNeed block.now gas.old }
    ensures { gas.new ≡ ticked block.now (standing block.now) gas.old }
{
    for i in 0..standing_in(block) {
        let emitter = emitter_at(block, i);
        gas[emitter.cell as usize] += emitter.units;
    }
}

// Emits the units of all of a tracer's emitters, or of none, and enters their sum in the tracer's book.
pub fn tick(g: Grid, air: &[u32], tracers: &mut [u32], ledger: &mut [u32], tracer: u32) -> Answer
    ensures { Agrees (world_of g air.now tracers.old ledger.old) (tick_call tracer) result (world_of g air.now tracers.new ledger.new) }
{
    let w = World {
        grid: g,
        air,
        tracers,
        ledger,
    };
    let total = emitter_place(w, tracer)?;
    let t = tracer as usize;
    let block = block_at(ledger, t);
    let kept = kept_units(block);
    if !emission_fits(block, total, kept) {
        return Err(Refusal::Emission);
    }
    let cells = world_cells(g) as usize;
    let first = t * cells;
    emit(&mut tracers[first..first + cells], block);
    let a = t * LEDGER_BLOCK;
    enter_emitted_in(&mut ledger[a..a + LEDGER_BLOCK], kept as u32);
    Ok(0)
}

// A tracer's units a tick.
pub fn units_a_tick(
    g: Grid,
    air: &[u32],
    tracers: &[u32],
    ledger: &[u32],
    tracer: u32,
) -> Answer<u64>
    ensures { Agrees (world_of g air.now tracers.now ledger.now) (units_a_tick tracer) result (world_of g air.now tracers.now ledger.now) }
{
    let w = World {
        grid: g,
        air,
        tracers,
        ledger,
    };
    emitter_place(w, tracer)?;
    Ok(kept_units(block_at(ledger, tracer as usize)))
}
