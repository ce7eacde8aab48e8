// One row of a layer: whether a substep is allowed, the substep in its air or in a tracer's amounts, and the number of substeps.
#![tactic(auto)]

ghost use Rattle.std.specs.Prelude.{◌≡◌, ◌<◌, ◌≤◌, length};
ghost use Rattle.model.specs.Sweep.{ring, east_of, west_of, allowed, after_flow, serves};
ghost use Rattle.substep.specs.Faces.{flow_of};
ghost use Rattle.row.specs.Columns.{FaceRoom, IsExchange, Passing};
ghost use Rattle.row.specs.Substeps.{row_mesh, RowNeed, IsFound};

use substep::{Flow, LentFlow, after, both, cell_allows, fill_parts};
use units::{AIR, Air, Amount, MOST_COLUMNS, MOST_SUBSTEPS, Sum};

// The columns east and west of column i in a row of w.
pub fn east_of(w: usize, i: usize) -> usize
    requires { i < w }
    ensures { (result ≡ east_of w i) × (result < w) }
{
    if i + 1 == w { 0 } else { i + 1 }
}

pub fn west_of(w: usize, i: usize) -> usize
    requires { i < w }
    ensures { (result ≡ west_of w i) × (result < w) }
{
    if i == 0 { w - 1 } else { i - 1 }
}

// What enters column i of w through its two faces, and what leaves it.
fn exchange<const KIND: u8>(flow: LentFlow, w: usize, i: usize) -> (Sum<KIND>, Sum<KIND>)
    requires { (i < w) × FaceRoom w flow.up.now flow.down.now }
    ensures { IsExchange w flow.entry.up.now flow.entry.down.now i result.0.0 result.1.0 }
{
    let west = west_of(w, i);
    let enters = both(Amount::new(flow.up[west]), Amount::new(flow.down[i]));
    let leaves = both(Amount::new(flow.down[west]), Amount::new(flow.up[i]));
    (enters, leaves)
}

// Whether the substep is allowed in every column.
fn row_allowed(air: &[u32], flow: LentFlow) -> bool
    requires { FaceRoom (length air.now) flow.up.now flow.down.now }
    ensures { result ≡ allowed (ring (length air.now)) (flow_of flow.entry.up.now flow.entry.down.now) air.now }
{
    for i in 0..air.len() {
        let (enters, leaves) = exchange(flow, air.len(), i);
        if !cell_allows(Air::new(air[i]), enters, leaves) {
            return false;
        }
    }
    true
}

// Passes on a row's amounts, of air or of one tracer, by what passes each face.
pub fn pass<const KIND: u8>(amounts: &mut [u32], flow: LentFlow)
    requires { Passing amounts.old flow.up.now flow.down.now }
    ensures { amounts.new ≡ after_flow (ring (length amounts.old)) (flow_of flow.entry.up.now flow.entry.down.now) amounts.old }
{
    let w = amounts.len();
    for i in 0..w {
        let (enters, leaves) = exchange::<KIND>(flow, w, i);
        amounts[i] = after(Amount::new(amounts[i]), enters, leaves).0;
    }
}

// Whether n serves: all n substeps, one after another, are allowed. They are made in the list lent.
fn serves(air: &mut [u32], fluxes: &[i32], n: u32) -> bool
    requires { RowNeed air.old fluxes.now }
    ensures { result ≡ serves (row_mesh fluxes.now) fluxes.now air.old n }
{
    let mut flow = Flow::<MOST_COLUMNS>::none();
    for s in 0..n {
        fill_parts(fluxes, n, s + 1, &mut flow.up, &mut flow.down);
        let passes = flow.lent();
        if !row_allowed(air, passes) {
            return false;
        }
        pass::<AIR>(air, passes);
    }
    true
}

// The same, made in a copy.
fn copy_serves(air: &[u32], fluxes: &[i32], n: u32) -> bool
    requires { RowNeed air.now fluxes.now }
    ensures { result ≡ serves (row_mesh fluxes.now) fluxes.now air.now n }
{
    let mut room = [0; MOST_COLUMNS];
    let row = &mut room[..air.len()];
    row.copy_from_slice(air);
    serves(row, fluxes, n)
}

// The smallest number of substeps from 1 to 16 that serves. A Range and not `1..=`: std's law of what `find` finds is of a Range.
pub fn count(air: &[u32], fluxes: &[i32]) -> Option<u32>
    requires { RowNeed air.now fluxes.now }
    ensures { IsFound air.now fluxes.now result }
{
    (1..MOST_SUBSTEPS + 1).find(|n| copy_serves(air, fluxes, *n))
}
