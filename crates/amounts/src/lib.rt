// The calls that move no air: load, emission, withdrawal, and the readings of a total and of a cell. Each takes the grid and the lent buffers one by one, as its C function does, so that its signature says which of them it writes.
#![tactic(auto)]

ghost use Rattle.model.specs.Step.{load as load_call, emission as emission_call, withdrawal as withdrawal_call, total as total_call, cell as cell_call};
ghost use Rattle.units.specs.Grid.{world_of, world_in};
ghost use Rattle.units.specs.Answer.{Agrees};
ghost use Rattle.amounts.specs.Amount.{IsCellPlace};

use books::{emission_fits, enter_emitted_in, enter_withdrawn_in, withdrawal_fits};
use ledger::renew;
use limiters::block_at;
use places::{Lent, common_places, world_places};
use units::{Answer, Grid, LEDGER_BLOCK, Refusal, World, world_cells};

// Tests lent air and tracers, and leaves for every tracer no emitter, the first limiter, and its total in its book.
pub fn load(g: Grid, air: &[u32], tracers: &[u32], ledger: &mut [u32]) -> Answer
    ensures { Agrees (world_of g air.now tracers.now ledger.old) load_call result (world_of g air.now tracers.now ledger.new) }
{
    let w = World {
        grid: g,
        air,
        tracers,
        ledger,
    };
    let totals = world_places(w, Lent::Nothing)?;
    renew(ledger, totals, g.n as usize);
    Ok(0)
}

// A tracer's total.
pub fn total(g: Grid, air: &[u32], tracers: &[u32], ledger: &[u32], tracer: u32) -> Answer
    ensures { Agrees (world_of g air.now tracers.now ledger.now) (total_call tracer) result (world_of g air.now tracers.now ledger.now) }
{
    let w = World {
        grid: g,
        air,
        tracers,
        ledger,
    };
    let totals = common_places(w, Lent::Nothing)?;
    if tracer >= g.n {
        return Err(Refusal::Index);
    }
    Ok(totals[tracer as usize] as u32)
}

// A cell's amount of a tracer: where it stands among the amounts of all tracers, and the tracer's total.
#[derive(Clone, Copy)]
struct CellPlace {
    index: usize,
    total: u64,
}

// Places 1 to 5 of a call that names a tracer and a cell.
fn amount_place(w: World, tracer: u32, cell: u32) -> Answer<CellPlace>
    ensures { IsCellPlace (world_in w.entry) tracer cell result }
{
    let totals = common_places(w, Lent::Nothing)?;
    if tracer >= w.grid.n {
        return Err(Refusal::Index);
    }
    let cells = world_cells(w.grid);
    if cell >= cells {
        return Err(Refusal::Index);
    }
    let t = tracer as usize;
    Ok(CellPlace {
        index: t * (cells as usize) + (cell as usize),
        total: totals[t],
    })
}

// A cell's amount of a tracer, the cell numbered over all layers.
pub fn cell(g: Grid, air: &[u32], tracers: &[u32], ledger: &[u32], tracer: u32, cell: u32) -> Answer
    ensures { Agrees (world_of g air.now tracers.now ledger.now) (cell_call tracer cell) result (world_of g air.now tracers.now ledger.now) }
{
    let w = World {
        grid: g,
        air,
        tracers,
        ledger,
    };
    let place = amount_place(w, tracer, cell)?;
    Ok(tracers[place.index])
}

// Adds an amount of a tracer in one cell, and enters it in the tracer's book.
pub fn emission(
    g: Grid,
    air: &[u32],
    tracers: &mut [u32],
    ledger: &mut [u32],
    tracer: u32,
    cell: u32,
    amount: u32,
) -> Answer
    ensures { Agrees (world_of g air.now tracers.old ledger.old) (emission_call tracer cell amount) result (world_of g air.now tracers.new ledger.new) }
{
    let w = World {
        grid: g,
        air,
        tracers,
        ledger,
    };
    let place = amount_place(w, tracer, cell)?;
    let t = tracer as usize;
    if !emission_fits(block_at(ledger, t), place.total, u64::from(amount)) {
        return Err(Refusal::Emission);
    }
    tracers[place.index] += amount;
    let a = t * LEDGER_BLOCK;
    enter_emitted_in(&mut ledger[a..a + LEDGER_BLOCK], amount);
    Ok(0) // counts not named are 0
}

// Takes an amount of a tracer from one cell, and enters it in the tracer's book.
pub fn withdrawal(
    g: Grid,
    air: &[u32],
    tracers: &mut [u32],
    ledger: &mut [u32],
    tracer: u32,
    cell: u32,
    amount: u32,
) -> Answer
    ensures { Agrees (world_of g air.now tracers.old ledger.old) (withdrawal_call tracer cell amount) result (world_of g air.now tracers.new ledger.new) }
{
    let w = World {
        grid: g,
        air,
        tracers,
        ledger,
    };
    let place = amount_place(w, tracer, cell)?;
    let had = tracers[place.index];
    let t = tracer as usize;
    if !withdrawal_fits(block_at(ledger, t), had, amount) {
        return Err(Refusal::Withdrawal);
    }
    tracers[place.index] = had - amount;
    let a = t * LEDGER_BLOCK;
    enter_withdrawn_in(&mut ledger[a..a + LEDGER_BLOCK], amount);
    Ok(0)
}
