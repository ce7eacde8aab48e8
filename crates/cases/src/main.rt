// Marked cases m1 to m10, further cases x1 to x5, a thin gas and the largest numerator of a piece (y6-1, y6-12), cases y1-1 to y1-7 of the long sweep, and
// y7-2 and y7-4 of the limiters, run through the sweeps and the remap: name, answer, count, all air, all tracers.
// In grids of one row of four columns; the first and the last amount of a layer are the caps'. No emitter stands; the first limiter, where no other is named.
#![tactic(auto)]

use std::io::{self, Print};
use units::{Answer, Grid, LEDGER_BLOCK, LIMITER_PLACE};

fn amounts(rt: &impl Print, l: &[u32]) -> io::Result<()> {
    for n in l {
        print!(rt; " {n}")?;
    }
    Ok(())
}

fn report(rt: &impl Print, name: &str, answer: Answer, air: &[u32], gas: &[u32]) -> io::Result<()> {
    let number = units::number(answer);
    let count = units::count(answer);
    print!(rt; "{name} {number} {count} air")?;
    amounts(rt, air)?;
    print!(rt; " tracer")?;
    amounts(rt, gas)?;
    println!(rt; "")
}

fn layers(k: u32) -> Grid {
    Grid {
        w: 4,
        r: 1,
        k,
        n: 1,
    }
}

// The ledger of one tracer as a load leaves it, with this limiter.
fn chosen(g: Grid, air: &[u32], gas: &[u32], limiter: u32, hi: u32) -> [u32; LEDGER_BLOCK] {
    let mut ledger = [0u32; LEDGER_BLOCK];
    let _ = amounts::load(g, air, gas, &mut ledger); // a refused load leaves the limiter to what follows
    ledger[LIMITER_PLACE] = limiter;
    ledger[LIMITER_PLACE + 3] = hi;
    ledger
}

// Row tracer 0, 300, 200, 50 by a limiter whose lower bound is 0.
fn limited(rt: &impl Print, name: &str, limiter: u32, hi: u32) -> io::Result<()> {
    let mut air = [100u32; 6];
    let mut gas = [0, 0, 300, 200, 50, 0];
    let ledger = chosen(layers(1), &air, &gas, limiter, hi);
    let answer = zonal::zonal(layers(1), &mut air, &mut gas, &ledger, 0, 0, &[0, 50, 0, 0]);
    report(rt, name, answer, &air, &gas)
}

fn case(
    rt: &impl Print,
    name: &str,
    from: [u32; 6],
    had: [u32; 6],
    fluxes: [i32; 4],
) -> io::Result<()> {
    let mut air = from;
    let mut gas = had;
    let ledger = chosen(layers(1), &air, &gas, 1, 0);
    let answer = zonal::zonal(layers(1), &mut air, &mut gas, &ledger, 0, 0, &fluxes);
    report(rt, name, answer, &air, &gas)
}

fn long_case(rt: &impl Print, name: &str, fluxes: [i32; 4]) -> io::Result<()> {
    let mut air = [100u32; 6];
    let mut gas = [0, 0, 100, 200, 100, 0];
    let ledger = chosen(layers(1), &air, &gas, 1, 0);
    let answer = long_zonal::long_zonal(layers(1), &mut air, &mut gas, &ledger, 0, 0, &fluxes);
    report(rt, name, answer, &air, &gas)
}

// A meridional sweep with fluxes out of the south cap, and none into the north cap.
fn from_south(rt: &impl Print, name: &str, south: u32) -> io::Result<()> {
    let mut air = [south, 200, 200, 200, 200, 200];
    let mut gas = [50, 10, 20, 30, 40, 5];
    let ledger = chosen(layers(1), &air, &gas, 1, 0);
    let fluxes = [60, 60, -50, 0, 0, 0, 0, 0];
    let answer = meridional::meridional(layers(1), &mut air, &mut gas, &ledger, 0, &fluxes);
    report(rt, name, answer, &air, &gas)
}

fn columns(rt: &impl Print) -> io::Result<()> {
    let mut air = [100u32; 18];
    let mut gas = [
        0, 0, 0, 0, 0, 0, 100, 100, 100, 100, 100, 100, 200, 200, 200, 200, 200, 200,
    ];
    let ledger = chosen(layers(3), &air, &gas, 1, 0);
    let answer = remap::remap(
        layers(3),
        &mut air,
        &mut gas,
        &ledger,
        &[0, 0, 0, 32768, 200, 0, 0, 65536],
    );
    report(rt, "m9", answer, &air, &gas)?;
    let mut thin = [1u32; 12];
    let mut none = [0u32; 12];
    let empty = chosen(layers(2), &thin, &none, 1, 0);
    let refused = remap::remap(
        layers(2),
        &mut thin,
        &mut none,
        &empty,
        &[0, 0, 0, 16384, 0, 65536],
    );
    report(rt, "m10", refused, &thin, &none)
}

fn main(rt: HostRuntime) -> io::Result<()> {
    let even = [100u32; 6];
    let peak = [0, 0, 100, 200, 100, 0];
    case(&rt, "m1", even, peak, [0, 50, 0, 0])?;
    case(&rt, "m2", even, peak, [-50, 0, 0, 0])?;
    case(&rt, "m3", even, peak, [0, 0, 50, 0])?;
    case(&rt, "m4", even, peak, [0, 99, 0, 0])?;
    case(&rt, "m5", even, peak, [0, 100, 0, 0])?;
    case(&rt, "m6", even, [300u32; 6], [150, 150, 150, 150])?;
    case(&rt, "m7", even, peak, [1600, 1600, 1600, 1600])?;
    case(&rt, "m8", even, peak, [1601, 1601, 1601, 1601])?;
    case(
        &rt,
        "x1",
        [100, 928, 314, 81, 658, 100],
        [0, 221, 496, 522, 317, 0],
        [421, 462, 475, 229],
    )?;
    case(
        &rt,
        "x2",
        even,
        [0, 3, 1, 8, 5, 0],
        [-151, -151, -151, -151],
    )?;
    case(
        &rt,
        "x5",
        [100, 1, 1000, 1000, 1000, 100],
        [0u32; 6],
        [9, 0, 0, 10],
    )?;
    case(
        &rt,
        "x5",
        [100, 1, 1000, 1000, 1000, 100],
        [0u32; 6],
        [20, 0, 0, 21],
    )?;
    case(
        &rt,
        "y6-1",
        [100, 57676, 34847, 38263, 33495, 100],
        [0, 56, 34, 39, 34, 0],
        [8104, 8176, 3143, 1267],
    )?;
    case(
        &rt,
        "y6-12",
        [100, 2, 65535, 1, 5, 100],
        [0, 0, 268435455, 0, 0, 0],
        [1, 65535, 1, 0],
    )?;
    long_case(&rt, "y1-1", [0, 50, 0, 0])?;
    long_case(&rt, "y1-2", [400, 400, 400, 400])?;
    long_case(&rt, "y1-3", [-400, -400, -400, -400])?;
    long_case(&rt, "y1-4", [-250, -250, -230, -270])?;
    long_case(&rt, "y1-5", [401, 400, 400, 400])?;
    long_case(&rt, "y1-6", [100, 0, 0, 0])?;
    long_case(&rt, "y1-7", [401, 0, 0, 0])?;
    limited(&rt, "y7-2", 2, 0)?;
    limited(&rt, "y7-4", 3, 851968)?;
    from_south(&rt, "x3", 100)?;
    from_south(&rt, "x4", 170)?;
    columns(&rt)
}

// Tracer 1's block is put after tracer 0's, which stays as it was, and is read there again.
#[cfg(test)]
#[test]
fn puts_a_block(rt: HostRuntime) {
    let mut ledger = [7; 2 * LEDGER_BLOCK];
    let mut block = [0; LEDGER_BLOCK];
    block[0] = 1;
    block[LEDGER_BLOCK - 1] = 59;
    limiters::put_block(&mut ledger, 1, &block);
    assert_eq!(rt; ledger[LEDGER_BLOCK - 1], 7);
    assert_eq!(rt; ledger[LEDGER_BLOCK], 1);
    assert_eq!(rt; ledger[LEDGER_BLOCK + 1], 0);
    assert_eq!(rt; ledger[2 * LEDGER_BLOCK - 1], 59);
    assert_eq!(rt; *limiters::block_at(&ledger, 1), block);
}
