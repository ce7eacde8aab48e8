// The public calls for C and Rust. Each takes the grid's four numbers and the lent buffers, and returns one number: answer · 2^32 + count.
// An export's parameters are those of its C declaration, one by one, so each stands here in full, though many are alike.
// The reading of the units a tick has a count of 64 bits, so it has two exports: one for the answer, one for the count.
#![tactic(auto)]

ghost use Rattle.std.specs.Prelude.{◌≡◌};
ghost use Rattle.model.specs.Step.{load, emission, withdrawal, zonal, long_zonal, meridional, remap, total, cell as cell_call, add_emitter, remove_emitter, tick, units_a_tick, count_zonal, zonal_with_count, set_limiter};
ghost use Rattle.boundary.specs.Returned.{packed_of, Returns, Answers, Counts, lent_world};

use units::{Answer, Grid, count, number};

// Answer · 2^32 + count, so that a refusal changes no lent number.
fn packed(a: Answer) -> u64
    ensures { result ≡ packed_of a }
{
    (number(a) as u64) * 4294967296 + (count(a) as u64)
}

#[unsafe(no_mangle)]
pub extern "C" fn puldeho_raw_load(
    w: u32,
    r: u32,
    k: u32,
    n: u32,
    air: &[u32],
    tracers: &[u32],
    ledger: &mut [u32],
) -> u64
    ensures { Returns (lent_world w r k n air.now tracers.now ledger.old) load result (lent_world w r k n air.now tracers.now ledger.new) }
{
    let g = Grid { w, r, k, n };
    packed(amounts::load(g, air, tracers, ledger))
}

#[unsafe(no_mangle)]
pub extern "C" fn puldeho_raw_emission(
    w: u32,
    r: u32,
    k: u32,
    n: u32,
    air: &[u32],
    tracers: &mut [u32],
    ledger: &mut [u32],
    tracer: u32,
    cell: u32,
    amount: u32,
) -> u64
    ensures { Returns (lent_world w r k n air.now tracers.old ledger.old) (emission tracer cell amount) result (lent_world w r k n air.now tracers.new ledger.new) }
{
    let g = Grid { w, r, k, n };
    packed(amounts::emission(g, air, tracers, ledger, tracer, cell, amount))
}

#[unsafe(no_mangle)]
pub extern "C" fn puldeho_raw_withdrawal(
    w: u32,
    r: u32,
    k: u32,
    n: u32,
    air: &[u32],
    tracers: &mut [u32],
    ledger: &mut [u32],
    tracer: u32,
    cell: u32,
    amount: u32,
) -> u64
    ensures { Returns (lent_world w r k n air.now tracers.old ledger.old) (withdrawal tracer cell amount) result (lent_world w r k n air.now tracers.new ledger.new) }
{
    let g = Grid { w, r, k, n };
    packed(amounts::withdrawal(g, air, tracers, ledger, tracer, cell, amount))
}

#[unsafe(no_mangle)]
pub extern "C" fn puldeho_raw_total(
    w: u32,
    r: u32,
    k: u32,
    n: u32,
    air: &[u32],
    tracers: &[u32],
    ledger: &[u32],
    tracer: u32,
) -> u64
    ensures { Returns (lent_world w r k n air.now tracers.now ledger.now) (total tracer) result (lent_world w r k n air.now tracers.now ledger.now) }
{
    let g = Grid { w, r, k, n };
    packed(amounts::total(g, air, tracers, ledger, tracer))
}

#[unsafe(no_mangle)]
pub extern "C" fn puldeho_raw_cell(
    w: u32,
    r: u32,
    k: u32,
    n: u32,
    air: &[u32],
    tracers: &[u32],
    ledger: &[u32],
    tracer: u32,
    cell: u32,
) -> u64
    ensures { Returns (lent_world w r k n air.now tracers.now ledger.now) (cell_call tracer cell) result (lent_world w r k n air.now tracers.now ledger.now) }
{
    let g = Grid { w, r, k, n };
    packed(amounts::cell(g, air, tracers, ledger, tracer, cell))
}

#[unsafe(no_mangle)]
pub extern "C" fn puldeho_raw_zonal(
    w: u32,
    r: u32,
    k: u32,
    n: u32,
    air: &mut [u32],
    tracers: &mut [u32],
    ledger: &[u32],
    layer: u32,
    row: u32,
    fluxes: &[i32],
) -> u64
    ensures { Returns (lent_world w r k n air.old tracers.old ledger.now) (zonal layer row fluxes.now) result (lent_world w r k n air.new tracers.new ledger.now) }
{
    let g = Grid { w, r, k, n };
    packed(zonal::zonal(g, air, tracers, ledger, layer, row, fluxes))
}

#[unsafe(no_mangle)]
pub extern "C" fn puldeho_raw_long_zonal(
    w: u32,
    r: u32,
    k: u32,
    n: u32,
    air: &mut [u32],
    tracers: &mut [u32],
    ledger: &[u32],
    layer: u32,
    row: u32,
    fluxes: &[i32],
) -> u64
    ensures { Returns (lent_world w r k n air.old tracers.old ledger.now) (long_zonal layer row fluxes.now) result (lent_world w r k n air.new tracers.new ledger.now) }
{
    let g = Grid { w, r, k, n };
    packed(long_zonal::long_zonal(g, air, tracers, ledger, layer, row, fluxes))
}

#[unsafe(no_mangle)]
pub extern "C" fn puldeho_raw_meridional(
    w: u32,
    r: u32,
    k: u32,
    n: u32,
    air: &mut [u32],
    tracers: &mut [u32],
    ledger: &[u32],
    layer: u32,
    fluxes: &[i32],
) -> u64
    ensures { Returns (lent_world w r k n air.old tracers.old ledger.now) (meridional layer fluxes.now) result (lent_world w r k n air.new tracers.new ledger.now) }
{
    let g = Grid { w, r, k, n };
    packed(meridional::meridional(g, air, tracers, ledger, layer, fluxes))
}

#[unsafe(no_mangle)]
pub extern "C" fn puldeho_raw_remap(
    w: u32,
    r: u32,
    k: u32,
    n: u32,
    air: &mut [u32],
    tracers: &mut [u32],
    ledger: &[u32],
    table: &[u32],
) -> u64
    ensures { Returns (lent_world w r k n air.old tracers.old ledger.now) (remap table.now) result (lent_world w r k n air.new tracers.new ledger.now) }
{
    let g = Grid { w, r, k, n };
    packed(remap::remap(g, air, tracers, ledger, table))
}

#[unsafe(no_mangle)]
pub extern "C" fn puldeho_raw_add_emitter(
    w: u32,
    r: u32,
    k: u32,
    n: u32,
    air: &[u32],
    tracers: &[u32],
    ledger: &mut [u32],
    tracer: u32,
    cell: u32,
    id: u32,
    units: u32,
) -> u64
    ensures { Returns (lent_world w r k n air.now tracers.now ledger.old) (add_emitter tracer cell id units) result (lent_world w r k n air.now tracers.now ledger.new) }
{
    let g = Grid { w, r, k, n };
    packed(emitters::add_emitter(g, air, tracers, ledger, tracer, cell, id, units))
}

#[unsafe(no_mangle)]
pub extern "C" fn puldeho_raw_remove_emitter(
    w: u32,
    r: u32,
    k: u32,
    n: u32,
    air: &[u32],
    tracers: &[u32],
    ledger: &mut [u32],
    tracer: u32,
    id: u32,
) -> u64
    ensures { Returns (lent_world w r k n air.now tracers.now ledger.old) (remove_emitter tracer id) result (lent_world w r k n air.now tracers.now ledger.new) }
{
    let g = Grid { w, r, k, n };
    packed(emitters::remove_emitter(g, air, tracers, ledger, tracer, id))
}

#[unsafe(no_mangle)]
pub extern "C" fn puldeho_raw_tick(
    w: u32,
    r: u32,
    k: u32,
    n: u32,
    air: &[u32],
    tracers: &mut [u32],
    ledger: &mut [u32],
    tracer: u32,
) -> u64
    ensures { Returns (lent_world w r k n air.now tracers.old ledger.old) (tick tracer) result (lent_world w r k n air.now tracers.new ledger.new) }
{
    let g = Grid { w, r, k, n };
    packed(emitters::tick(g, air, tracers, ledger, tracer))
}

#[unsafe(no_mangle)]
pub extern "C" fn puldeho_raw_units_a_tick(
    w: u32,
    r: u32,
    k: u32,
    n: u32,
    air: &[u32],
    tracers: &[u32],
    ledger: &[u32],
    tracer: u32,
) -> u32
    ensures { Answers (lent_world w r k n air.now tracers.now ledger.now) (units_a_tick tracer) result (lent_world w r k n air.now tracers.now ledger.now) }
{
    let g = Grid { w, r, k, n };
    number(emitters::units_a_tick(g, air, tracers, ledger, tracer))
}

#[unsafe(no_mangle)]
pub extern "C" fn puldeho_raw_units_a_tick_number(
    w: u32,
    r: u32,
    k: u32,
    n: u32,
    air: &[u32],
    tracers: &[u32],
    ledger: &[u32],
    tracer: u32,
) -> u64
    ensures { Counts (lent_world w r k n air.now tracers.now ledger.now) (units_a_tick tracer) result (lent_world w r k n air.now tracers.now ledger.now) }
{
    let g = Grid { w, r, k, n };
    emitters::units_a_tick(g, air, tracers, ledger, tracer).unwrap_or(0)
}

#[unsafe(no_mangle)]
pub extern "C" fn puldeho_raw_count_zonal(
    w: u32,
    r: u32,
    k: u32,
    n: u32,
    air: &[u32],
    tracers: &[u32],
    ledger: &[u32],
    layer: u32,
    row: u32,
    fluxes: &[i32],
) -> u64
    ensures { Returns (lent_world w r k n air.now tracers.now ledger.now) (count_zonal layer row fluxes.now) result (lent_world w r k n air.now tracers.now ledger.now) }
{
    let g = Grid { w, r, k, n };
    packed(zonal::count_zonal(g, air, tracers, ledger, layer, row, fluxes))
}

#[unsafe(no_mangle)]
pub extern "C" fn puldeho_raw_zonal_with_count(
    w: u32,
    r: u32,
    k: u32,
    n: u32,
    air: &mut [u32],
    tracers: &mut [u32],
    ledger: &[u32],
    layer: u32,
    row: u32,
    given: u32,
    fluxes: &[i32],
) -> u64
    ensures { Returns (lent_world w r k n air.old tracers.old ledger.now) (zonal_with_count layer row given fluxes.now) result (lent_world w r k n air.new tracers.new ledger.now) }
{
    let g = Grid { w, r, k, n };
    packed(zonal::zonal_with_count(g, air, tracers, ledger, layer, row, given, fluxes))
}

#[unsafe(no_mangle)]
pub extern "C" fn puldeho_raw_set_limiter(
    w: u32,
    r: u32,
    k: u32,
    n: u32,
    air: &[u32],
    tracers: &[u32],
    ledger: &mut [u32],
    tracer: u32,
    limiter: u32,
    lo: u64,
    hi: u64,
) -> u64
    ensures { Returns (lent_world w r k n air.now tracers.now ledger.old) (set_limiter tracer limiter lo hi) result (lent_world w r k n air.now tracers.now ledger.new) }
{
    let g = Grid { w, r, k, n };
    packed(choice::set_limiter(g, air, tracers, ledger, tracer, limiter, lo, hi))
}
