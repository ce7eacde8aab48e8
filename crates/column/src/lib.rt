// The remap of one column in lent lists: edges, ratios and mismatches, new amounts, and the count of pairs. A column is a line of cells whose low end is its top (crate line).
// A list's first k entries count, of a list of edges the first k + 1. `air` holds air, `gas` and `newgas` a tracer, `q` its ratios, `slopes` the layers' mismatches.
#![tactic(auto)]

ghost use Rattle.std.specs.Prelude.{◌≡◌, ◌&&◌, ◌+◌, ◌-◌, ◌*◌, ◌/◌, ◌≤◌, ◌<◌, length, leb};
ghost use Rattle.model.specs.Limits.{table_limit, table_scale, most_layers};
ghost use Rattle.model.specs.Step.{table_fits};
ghost use Rattle.units.specs.Limiter.{limiter_of};
ghost use Rattle.scheme.specs.Leaves.{mismatch_of};
ghost use Rattle.column.specs.Column.{EdgesNeed, AreEdges};
ghost use Rattle.column.specs.Gas.{mismatch_unless, SlopesNeed, AreSlopes, ColumnGasNeed, IsRemapped};

use line::{Walked, tracer_between};
use scheme::mismatch;
use units::{AirSum, Limiter, Mismatch, PRESENT_LIMITER, TABLE_LIMIT, TABLE_SCALE};

// The mismatch of a layer that has none.
const PLAIN: Mismatch = Mismatch {
    size: 0,
    positive: true,
};

// Whether a pair of the table is in its ranges.
fn pair_fits(a: u32, b: u32) -> bool
    ensures { result ≡ leb a table_limit && leb b table_scale }
{
    (a <= TABLE_LIMIT) & (b <= TABLE_SCALE)
}

// Place 11: whether the table's first pair is (0, 0), its last (0, 65,536), and every pair in its ranges.
pub fn table_fits(table: &[u32], k: usize) -> bool
    requires { (k ≤ most_layers) × (length table.now ≡ 2 * (k + 1)) }
    ensures { result ≡ table_fits k table.now }
{
    let first = (table[0] == 0) & (table[1] == 0);
    let ends = first & (table[2 * k] == 0) & (table[2 * k + 1] == TABLE_SCALE);
    let mut ok = true;
    for j in 0..k + 1 {
        ok &= pair_fits(table[2 * j], table[2 * j + 1]);
    }
    ends & ok
}

// The edge of the pair (a, b) in a column of p units of air.
fn edge_of(a: u32, b: u32, p: AirSum) -> u64
    requires { p.0 ≤ table_limit }
    ensures { result ≡ a + b * p.0 / table_scale }
{
    (a as u64) + (b as u64) * p.0 / (TABLE_SCALE as u64)
}

// The k + 1 edges of a column of p units of air.
pub fn fill_edges(table: &[u32], p: AirSum, k: usize, e: &mut [u64])
    requires { EdgesNeed table.now p.0 k e.old }
    ensures { AreEdges table.now p.0 k e.new }
{
    for j in 0..k + 1 {
        e[j] = edge_of(table[2 * j], table[2 * j + 1], p);
    }
}

// The mismatch of a layer by the tracer's limiter and the ratios above, in and below it, or none.
fn layer_mismatch(l: Limiter, none: bool, above: u64, own: u64, below: u64) -> Mismatch
    ensures { mismatch_of result ≡ mismatch_unless (limiter_of l) none above own below }
{
    if none {
        PLAIN
    } else {
        mismatch(l, above, own, below)
    }
}

// The mismatch of each of k layers: none in a cap's column, and none in the top and bottom layers, whatever the limiter. A ratio is read once, from the top down.
fn fill_slopes_by(l: Limiter, q: &[u64], cap: bool, k: usize, slopes: &mut [Mismatch])
    requires { SlopesNeed k q.now slopes.old }
    ensures { AreSlopes (limiter_of l) cap k q.now slopes.new }
{
    let last = k - 1;
    let mut own = q[0];
    let mut above = own;
    for i in 0..last {
        let below = q[i + 1];
        slopes[i] = layer_mismatch(l, cap | (i == 0), above, own, below);
        above = own;
        own = below;
    }
    slopes[last] = PLAIN;
}

// The same, with a loop for the first limiter alone, in whose machine code no layer asks for the limiter (measured: 3 % of a remap).
fn fill_slopes(l: Limiter, q: &[u64], cap: bool, k: usize, slopes: &mut [Mismatch])
    requires { SlopesNeed k q.now slopes.old }
    ensures { AreSlopes (limiter_of l) cap k q.now slopes.new }
{
    if l.number == PRESENT_LIMITER {
        let first = Limiter {
            number: PRESENT_LIMITER,
            lo: 0,
            hi: 0,
        };
        fill_slopes_by(first, q, cap, k, slopes);
    } else {
        fill_slopes_by(l, q, cap, k, slopes);
    }
}

// A tracer's amounts in a column's k new layers, from the old ones and their ratios: the mismatches by its limiter, and one walk. It gives back the walk's steps, at most 2k, and how many edges lie where an old layer ends; 2k less these are exactly the pairs of an old and a new layer that share air.
// `cap` says whether the column is a cap's; `slopes` is filled on the way.
pub fn remap_gas(
    l: Limiter,
    air: &[u32],
    gas: &[u32],
    cap: bool,
    e: &[u64],
    k: usize,
    q: &[u64],
    slopes: &mut [Mismatch],
    newgas: &mut [u32],
) -> Walked
    requires { ColumnGasNeed k air.now gas.now q.now slopes.old e.now newgas.old }
    ensures { IsRemapped (limiter_of l) cap k air.now gas.now e.now newgas.new result.steps result.ends }
{
    fill_slopes(l, q, cap, k, slopes);
    tracer_between(air, gas, slopes, k, e, k, newgas)
}
