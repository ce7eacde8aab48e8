// A tracer of one layer through the meridional substep: the pieces that the air carries through each face, and what they leave.
// Cell 0 is the south cap, cell 1 + j the cell between face j and face w + j, and the last cell the north cap.
// `flow` is the air that passes each face, up northward and down southward; `gas_up` and `gas_down` are the tracer that it carries.
// Every piece is taken before any amount changes.
#![tactic(auto)]

ghost use Rattle.std.specs.Prelude.{◌≡◌, ◌+◌, ◌*◌, ◌≤◌, ◌<◌};
ghost use Rattle.model.specs.Limits.{most_faces};
ghost use Rattle.model.specs.Basic.{at};
ghost use Rattle.model.specs.Scheme.{high_piece, low_piece};
ghost use Rattle.model.specs.Limiters.{rule_for};
ghost use Rattle.model.specs.Sweep.{south_of, north_of, layer, cell_mismatch, pieces};
ghost use Rattle.units.specs.Limiter.{limiter_of};
ghost use Rattle.substep.specs.Faces.{flow_of, Same, stepped};
ghost use Rattle.substep.specs.Pieces.{AreRatios, Neighbours};
ghost use Rattle.layer_gas.specs.Gas.{GivesPiece, Step};

use layer::{Shape, pass_layer};
use substep::{LentFlow, fill_ratios, high_end, low_end};
use units::{Air, Limiter, TRACER, Tracer};

// The cell south of a face, and the cell north of it, where n cells lie between the caps.
fn south_of(w: usize, face: usize) -> usize
    requires { face ≤ most_faces }
    ensures { result ≡ south_of w face }
{
    if face < w { 0 } else { 1 + (face - w) }
}

fn north_of(n: usize, face: usize) -> usize
    requires { n ≤ 3168 }
    ensures { result ≡ north_of n face }
{
    if face < n { 1 + face } else { 1 + n }
}

// The piece of m units of air that pass face i northward, from the high end of the cell south of it.
// The south cap is its own neighbour on both sides, so that its mismatch is none by every limiter.
fn northward(
    l: Limiter,
    air: &[u32],
    gas: &[u32],
    q: &[u64],
    shape: Shape,
    i: usize,
    m: Air,
) -> Tracer
    requires { GivesPiece shape.w shape.rows air.now gas.now q.now i (south_of shape.w i) m.0 }
    ensures { result.0 ≡ high_piece (cell_mismatch (rule_for (limiter_of l)) (layer shape.w shape.rows) air.now gas.now (south_of shape.w i)) (at air.now (south_of shape.w i)) (at gas.now (south_of shape.w i)) m.0 }
{
    let c = south_of(shape.w, i);
    if i < shape.w {
        return high_end(l, air, gas, q, c, c, c, m);
    }
    let a = south_of(shape.w, i - shape.w);
    let b = north_of(shape.rows * shape.w, i);
    high_end(l, air, gas, q, a, c, b, m)
}

// The same southward, from the low end of the cell north of it. Two functions, as the document has two pieces: one for both ends would answer by cases, and the neighbours of any cell in a function of their own cost a sweep 1.1 of its time (measured).
fn southward(
    l: Limiter,
    air: &[u32],
    gas: &[u32],
    q: &[u64],
    shape: Shape,
    i: usize,
    m: Air,
) -> Tracer
    requires { GivesPiece shape.w shape.rows air.now gas.now q.now i (north_of (shape.rows * shape.w) i) m.0 }
    ensures { result.0 ≡ low_piece (cell_mismatch (rule_for (limiter_of l)) (layer shape.w shape.rows) air.now gas.now (north_of (shape.rows * shape.w) i)) (at air.now (north_of (shape.rows * shape.w) i)) (at gas.now (north_of (shape.rows * shape.w) i)) m.0 }
{
    let n = shape.rows * shape.w;
    let c = north_of(n, i);
    if n <= i {
        return low_end(l, air, gas, q, c, c, c, m);
    }
    let a = south_of(shape.w, i);
    let b = north_of(n, shape.w + i);
    low_end(l, air, gas, q, a, c, b, m)
}

// The pieces through each face, in both directions.
fn fill_pieces(
    l: Limiter,
    air: &[u32],
    gas: &[u32],
    q: &[u64],
    flow: LentFlow,
    shape: Shape,
    gas_up: &mut [u32],
    gas_down: &mut [u32],
)
    requires { Step shape.w shape.rows air.now gas.now flow.up.now flow.down.now q.now gas_up.old gas_down.old × AreRatios (layer shape.w shape.rows).cells air.now gas.now q.now }
    ensures { Same (layer shape.w shape.rows).faces (flow_of gas_up.new gas_down.new) (pieces (rule_for (limiter_of l)) (layer shape.w shape.rows) (flow_of flow.entry.up.now flow.entry.down.now) air.now gas.now) }
{
    for i in 0..shape.w + shape.rows * shape.w {
        let to_north = Air::new(flow.up[i]);
        let to_south = Air::new(flow.down[i]);
        let p = northward(l, air, gas, q, shape, i, to_north);
        let r = southward(l, air, gas, q, shape, i, to_south);
        gas_up[i] = p.0;
        gas_down[i] = r.0;
    }
}

// A layer's tracer after an allowed substep; q, gas_up and gas_down are room for its ratios and pieces.
pub fn step_layer_gas(
    l: Limiter,
    gas: &mut [u32],
    air: &[u32],
    flow: LentFlow,
    shape: Shape,
    q: &mut [u64],
    gas_up: &mut [u32],
    gas_down: &mut [u32],
)
    requires { Step shape.w shape.rows air.now gas.old flow.up.now flow.down.now q.old gas_up.old gas_down.old }
    ensures { gas.new ≡ stepped (rule_for (limiter_of l)) (layer shape.w shape.rows) (flow_of flow.entry.up.now flow.entry.down.now) air.now gas.old }
{
    fill_ratios(air, &gas[..], air.len(), q);
    fill_pieces(l, air, &gas[..], q, flow, shape, gas_up, gas_down);
    let carried = LentFlow {
        up: gas_up,
        down: gas_down,
    };
    pass_layer::<TRACER>(gas, carried, shape);
}
