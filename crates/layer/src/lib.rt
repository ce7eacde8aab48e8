// The meridional substep of one layer with its two caps: whether it is allowed, and the air or a tracer passed on by what passes each face.
// Cell 0 is the south cap, cell 1 + j the cell between face j and face w + j, and the last cell the north cap.
// A flow's `up` is northward and its `down` southward: of air where the air is tested or passed on, of the tracer that the air carries where a tracer is.
#![tactic(auto)]

ghost use Rattle.std.specs.Prelude.{◌≡◌, ◌+◌, ◌*◌, ◌≤◌, ◌<◌, length};
ghost use Rattle.model.specs.Basic.{at, every};
ghost use Rattle.model.specs.Sweep.{layer, after_flow, allowed};
ghost use Rattle.units.specs.Grid.{InRange};
ghost use Rattle.substep.specs.Faces.{flow_of};
ghost use Rattle.substep.specs.Cells.{cell_allowed};
ghost use Rattle.layer.specs.Cells.{Size, Fit, CapFaces, IsSum};
ghost use Rattle.layer.specs.Passing.{Passing, PassingRows, PassedRows};

use substep::{LentFlow, after, both, cell_allows};
use units::{Air, AirSum, Amount, Grid, Sum};

// The shape of a layer: w columns, and the rows between its caps.
#[derive(Clone, Copy)]
pub struct Shape {
    pub w: usize,
    pub rows: usize,
    ghost size: { Size w rows },
}

impl Shape {
    // That of the layers of a grid.
    pub fn of(g: Grid) -> Self
        requires { InRange g }
        ensures { (result.w ≡ g.w) × (result.rows ≡ g.r) }
    {
        Shape {
            w: g.w as usize,
            rows: g.r as usize,
        }
    }
}

// What passes the w faces of a cap, from face `first` on, in one direction.
fn cap<const KIND: u8>(side: &[u32], first: usize, w: usize) -> Sum<KIND>
    requires { CapFaces (length side.now) first w }
    ensures { IsSum side.now first w result.0 }
{
    let mut total = Sum::new(0);
    for x in &side[first..first + w] {
        let face = Amount::new(*x);
        total = total.plus(face);
    }
    total
}

// What passes the two faces of cell 1 + j, face j as in the first list and face w + j as in the second.
fn across<const KIND: u8>(low: &[u32], high: &[u32], w: usize, j: usize) -> Sum<KIND>
    requires { (j < length low.now) × (w + j < length high.now) }
    ensures { (result.0 ≡ at low.now j + at high.now (w + j)) × (result.0 ≤ 8589934590) }
{
    both(Amount::new(low[j]), Amount::new(high[w + j]))
}

// Whether every cell between the caps allows the substep.
fn rows_allow(air: &[u32], flow: LentFlow, shape: Shape) -> bool
    requires { Fit shape.w shape.rows air.now flow.up.now flow.down.now }
    ensures { result ≡ every (shape.rows * shape.w) (λ j. cell_allowed (layer shape.w shape.rows) (flow_of flow.entry.up.now flow.entry.down.now) air.now (1 + j)) }
{
    let mut ok = true;
    for j in 0..shape.rows * shape.w {
        let enters = across(flow.up, flow.down, shape.w, j);
        let leaves = across(flow.down, flow.up, shape.w, j);
        ok &= cell_allows(Air::new(air[1 + j]), enters, leaves);
    }
    ok
}

// Whether the substep is allowed: by the south cap, the rows and the north cap.
pub fn layer_allowed(air: &[u32], flow: LentFlow, shape: Shape) -> bool
    requires { Fit shape.w shape.rows air.now flow.up.now flow.down.now }
    ensures { result ≡ allowed (layer shape.w shape.rows) (flow_of flow.entry.up.now flow.entry.down.now) air.now }
{
    let w = shape.w;
    let n = shape.rows * w;
    let south_in: AirSum = cap(flow.down, 0, w);
    let south_out: AirSum = cap(flow.up, 0, w);
    let north_in: AirSum = cap(flow.up, n, w);
    let north_out: AirSum = cap(flow.down, n, w);
    let at_south = cell_allows(Air::new(air[0]), south_in, south_out);
    let at_north = cell_allows(Air::new(air[1 + n]), north_in, north_out);
    at_south & rows_allow(air, flow, shape) & at_north
}

// Passes on the amounts of the cells between the caps, after that of the south cap.
fn pass_rows<const KIND: u8>(amounts: &mut [u32], flow: LentFlow, shape: Shape)
    requires { PassingRows shape.w shape.rows amounts.old flow.up.now flow.down.now }
    ensures { PassedRows shape.w shape.rows amounts.old flow.entry.up.now flow.entry.down.now amounts.new }
{
    for j in 0..shape.rows * shape.w {
        let c = 1 + j;
        let enters: Sum<KIND> = across(flow.up, flow.down, shape.w, j);
        let leaves: Sum<KIND> = across(flow.down, flow.up, shape.w, j);
        amounts[c] = after(Amount::new(amounts[c]), enters, leaves).0;
    }
}

// Passes on a layer's air by the air that passes each face, or a tracer by the pieces that it carries.
pub fn pass_layer<const KIND: u8>(amounts: &mut [u32], flow: LentFlow, shape: Shape)
    requires { Passing shape.w shape.rows amounts.old flow.up.now flow.down.now }
    ensures { amounts.new ≡ after_flow (layer shape.w shape.rows) (flow_of flow.entry.up.now flow.entry.down.now) amounts.old }
{
    let w = shape.w;
    let n = shape.rows * w;
    let north = 1 + n;
    let south_in: Sum<KIND> = cap(flow.down, 0, w);
    let south_out: Sum<KIND> = cap(flow.up, 0, w);
    amounts[0] = after(Amount::new(amounts[0]), south_in, south_out).0;
    pass_rows::<KIND>(amounts, flow, shape);
    let north_in: Sum<KIND> = cap(flow.up, n, w);
    let north_out: Sum<KIND> = cap(flow.down, n, w);
    amounts[north] = after(Amount::new(amounts[north]), north_in, north_out).0;
}
