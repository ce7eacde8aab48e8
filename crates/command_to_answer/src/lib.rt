// Makes the call that a command asks for, with the lists that its body holds, in exactly the slices that it is lent.
// Each takes the grid and the lent slices one by one, as the calls do: which of them it writes is in its signature.
#![tactic(auto)]

ghost use Rattle.std.specs.Prelude.{ℕ, ◌≡◌, ◌+◌, ◌*◌, ◌≤◌, length};
ghost use Rattle.program.specs.Bytes.{signed, numbers_at, fluxes_at};
ghost use Rattle.model.specs.Step.{zonal, meridional, remap};
ghost use Rattle.units.specs.Answer.{Agrees};
ghost use Rattle.units.specs.Grid.{world_of};
ghost use Rattle.stages.specs.Buffers.{buffers};
ghost use Rattle.stages.specs.Stage.{SmallGrid};
ghost use Rattle.command_to_answer.specs.Fill.{decoded};
ghost use Rattle.command_to_answer.specs.Makes.{CallNeed, MakesCall, MakeNeed, Makes, LoadNeed, MakesLoad};

use commands::{Call, Command};
use fields::number_4;
use units::{Answer, Grid, MOST_COLUMNS, MOST_EDGES, PROGRAM_FACES};

// A number that a body holds in 4 bytes: as it is, or, for a flux, signed as two's complement.
trait Number: Copy {
    ghost of_bits: { ℕ → Self };

    fn from_bits(bits: u32) -> Self
        ensures { result ≡ of_bits bits };
}

impl Number for u32 {
    ghost of_bits = { λ bits. bits };

    fn from_bits(bits: u32) -> u32 {
        bits
    }
}

impl Number for i32 {
    ghost of_bits = { signed };

    fn from_bits(bits: u32) -> i32 {
        bits.cast_signed()
    }
}

// The numbers of 4 bytes each that fill `out`.
fn decode<N: Number>(bytes: &[u8], out: &mut [N])
    requires { 4 * length out.old ≤ length bytes.now }
    ensures { out.new ≡ decoded N.of_bits bytes.now (length out.old) }
{
    for i in 0..out.len() {
        out[i] = N::from_bits(number_4(bytes, 4 * i));
    }
}

// A zonal sweep with the fluxes of a record's body.
fn make_zonal(
    g: Grid,
    layer: u32,
    row: u32,
    body: &[u8],
    air: &mut [u32],
    tracers: &mut [u32],
    ledger: &[u32],
) -> Answer
    requires { (SmallGrid g) × (2 + 4 * g.w ≤ length body.now) }
    ensures { Agrees (world_of g air.old tracers.old ledger.now) (zonal layer row (fluxes_at body.now 2 g.w)) result (world_of g air.new tracers.new ledger.now) }
{
    let w = g.w as usize;
    let mut fluxes = [0i32; MOST_COLUMNS];
    decode(&body[2..], &mut fluxes[..w]);
    zonal::zonal(g, air, tracers, ledger, layer, row, &fluxes[..w])
}

// A meridional sweep with the fluxes of a record's body.
fn make_meridional(
    g: Grid,
    layer: u32,
    body: &[u8],
    air: &mut [u32],
    tracers: &mut [u32],
    ledger: &[u32],
) -> Answer
    requires { (SmallGrid g) × (1 ≤ g.k) × (1 + 4 * (g.w * (g.r + 1)) ≤ length body.now) }
    ensures { Agrees (world_of g air.old tracers.old ledger.now) (meridional layer (fluxes_at body.now 1 (g.w * (g.r + 1)))) result (world_of g air.new tracers.new ledger.now) }
{
    let faces = (g.w as usize) * ((g.r as usize) + 1);
    let mut fluxes = [0i32; PROGRAM_FACES];
    decode(&body[1..], &mut fluxes[..faces]);
    meridional::meridional(g, air, tracers, ledger, layer, &fluxes[..faces])
}

// A remap with the table of a record's body.
fn make_remap(g: Grid, body: &[u8], air: &mut [u32], tracers: &mut [u32], ledger: &[u32]) -> Answer
    requires { (SmallGrid g) × (4 * (2 * (g.k + 1)) ≤ length body.now) }
    ensures { Agrees (world_of g air.old tracers.old ledger.now) (remap (numbers_at body.now 0 (2 * (g.k + 1)))) result (world_of g air.new tracers.new ledger.now) }
{
    let numbers = 2 * ((g.k as usize) + 1);
    let mut table = [0u32; 2 * MOST_EDGES];
    decode(body, &mut table[..numbers]);
    remap::remap(g, air, tracers, ledger, &table[..numbers])
}

// Makes a call in the world of exactly these slices.
pub fn make_call(
    g: Grid,
    call: Call,
    body: &[u8],
    air: &mut [u32],
    tracers: &mut [u32],
    ledger: &mut [u32],
) -> Answer
    requires { CallNeed g call body.now }
    ensures { MakesCall g call body.now result (buffers air.old tracers.old ledger.old) (buffers air.new tracers.new ledger.new) }
{
    match call {
        Call::Emission(e) => {
            amounts::emission(g, air, tracers, ledger, e.tracer, e.cell, e.amount)
        }
        Call::Withdrawal(e) => {
            amounts::withdrawal(g, air, tracers, ledger, e.tracer, e.cell, e.amount)
        }
        Call::Zonal { layer, row } => make_zonal(g, layer, row, body, air, tracers, ledger),
        Call::Meridional { layer } => make_meridional(g, layer, body, air, tracers, ledger),
        Call::Remap => make_remap(g, body, air, tracers, ledger),
        Call::Total { tracer } => amounts::total(g, air, tracers, ledger, tracer),
        Call::Cell { tracer, cell } => amounts::cell(g, air, tracers, ledger, tracer, cell),
    }
}

// Makes the call that a command asks for there. A grid and a load are no calls: of them it makes none.
pub fn make(
    g: Grid,
    c: Command,
    body: &[u8],
    air: &mut [u32],
    tracers: &mut [u32],
    ledger: &mut [u32],
) -> Answer
    requires { MakeNeed g c body.now }
    ensures { Makes g c body.now result (buffers air.old tracers.old ledger.old) (buffers air.new tracers.new ledger.new) }
{
    match c {
        Command::Call(call) => make_call(g, call, body, air, tracers, ledger),
        Command::Grid(_) | Command::Load => Ok(0),
    }
}

// A load with the lists of a record's body, decoded into exactly these slices, and with an empty ledger.
pub fn make_load(
    g: Grid,
    body: &[u8],
    air: &mut [u32],
    tracers: &mut [u32],
    ledger: &mut [u32],
) -> Answer
    requires { LoadNeed body.now (buffers air.old tracers.old ledger.old) }
    ensures { MakesLoad g body.now (buffers air.old tracers.old ledger.old) result (buffers air.new tracers.new ledger.new) }
{
    decode(body, air);
    let at = 4 * air.len();
    decode(&body[at..], tracers);
    ledger.fill(0);
    amounts::load(g, air, tracers, ledger)
}
