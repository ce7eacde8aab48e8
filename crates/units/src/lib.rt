// Air units and tracer units with their sums, mismatches, the grid, and the answer of a call.
#![tactic(auto)]

ghost use Rattle.std.specs.Prelude.{◌≡◌, ◌≤◌, ◌+◌};
ghost use Rattle.model.specs.Limits.{most_layer_cells, most_cells};
ghost use Rattle.model.specs.World.{layer_cells, world_cells, layer_start, row_start};
ghost use Rattle.model.specs.Step.{grid_fits};
ghost use Rattle.units.specs.Grid.{grid_of, InRange, LayerThere, RowThere};
ghost use Rattle.units.specs.Answer.{refusal_number, number_of, count_of};

// The limits that the code needs, each once. Contracts tie them to the model's (crates/model/specs/Limits.antt).
pub const SCALE: u64 = 262144; // of ratio, mismatch and piece

pub const TABLE_SCALE: u32 = 65536; // of a table's b

pub const AIR_LIMIT: u32 = 65535;

pub const TOTAL_LIMIT: u64 = 268435455;

pub const SUM_LIMIT: u64 = 4294967295; // of a tracer's book: emitted, and withdrawn

pub const ZONAL_LIMIT: u32 = 1048560;

pub const MERIDIONAL_LIMIT: u32 = 65535;

pub const TABLE_LIMIT: u32 = 2097120;

pub const MOST_SUBSTEPS: u32 = 16;

// The sizes of arrays, of which a grid uses the first entries: the library has no heap, so that each has room for the largest grid.
pub const MOST_COLUMNS: usize = 72;

pub const MOST_ROWS: usize = 44;

pub const MOST_LAYERS: usize = 32;

pub const MOST_EDGES: usize = 33; // of a column

pub const MOST_TRACERS: usize = 8;

pub const MOST_LAYER_CELLS: usize = 3170;

pub const MOST_FACES: usize = 3240; // of a layer

pub const MOST_EMITTERS: usize = 16; // of a tracer

pub const LEDGER_BLOCK: usize = 59; // numbers of the ledger for each tracer

pub const LIMITER_PLACE: usize = 51; // where its limiter stands in them

pub const BOOK_PLACE: usize = 56; // and its book: loaded, emitted, withdrawn

// A limiter's number, as set_limiter takes it. Numbers and no enum: C may lend a ledger with any number there, and `limiters::limiter_at` gives it as it is.
pub const PRESENT_LIMITER: u32 = 1;

pub const POSITIVE_LIMITER: u32 = 2;

pub const FIXED_LIMITER: u32 = 3;

pub const PROGRAM_CELLS: usize = 2048; // of the largest world that the runner program takes

pub const PROGRAM_TRACERS: usize = 2;

pub const PROGRAM_AMOUNTS: usize = 4096; // of all tracers in it

pub const PROGRAM_LEDGER: usize = 118; // numbers of its ledger

pub const PROGRAM_FACES: usize = 2118; // of a layer that the program takes

pub const PROGRAM_BODY: usize = 24576; // bytes of the longest body of a record

// What an amount is of: a const parameter of its type. A number and no type: document 01 wants structs of one field, and a type as parameter wants a second one.
pub const AIR: u8 = 0;

pub const TRACER: u8 = 1;

// An amount in units. Air units and tracer units are separate counts, so their amounts have two types: no function adds an amount of one to an amount of the other.
#[derive(Clone, Copy)]
pub struct Amount<const KIND: u8>(pub u32);

pub type Air = Amount<AIR>;

pub type Tracer = Amount<TRACER>;

// A sum of amounts, in 64 bits.
#[derive(Clone, Copy)]
pub struct Sum<const KIND: u8>(pub u64);

pub type AirSum = Sum<AIR>;

pub type TracerSum = Sum<TRACER>;

impl<const KIND: u8> Amount<KIND> {
    pub fn new(units: u32) -> Self
        ensures { result.0 ≡ units }
    {
        Amount(units)
    }
}

impl<const KIND: u8> Sum<KIND> {
    pub fn new(units: u64) -> Self
        ensures { result.0 ≡ units }
    {
        Sum(units)
    }

    // The sum with one amount more.
    pub fn plus(self, x: Amount<KIND>) -> Self
        requires { self.0 ≤ 9223372036854775807 }
        ensures { result.0 ≡ self.entry.0 + x.entry.0 }
    {
        Sum(self.0 + u64::from(x.0))
    }
}

// A mismatch as its size and its sign, the two in which document 01 takes a piece: a signed number would be taken apart into them in each of its products.
#[derive(Clone, Copy)]
pub struct Mismatch {
    pub size: u64,
    pub positive: bool,
}

// A tracer's limiter: its number, 1 to 3, and its bounds, in the ratio's scale. A number that is none of these is refused where a call tests it.
#[derive(Clone, Copy)]
pub struct Limiter {
    pub number: u32,
    pub lo: u64,
    pub hi: u64,
}

// W columns, R rows, K layers, N tracers.
#[derive(Clone, Copy)]
pub struct Grid {
    pub w: u32,
    pub r: u32,
    pub k: u32,
    pub n: u32,
}

// The world of a call, to be read: the grid, and the lent buffers.
#[derive(Clone, Copy)]
pub struct World<'a> {
    pub grid: Grid,
    pub air: &'a [u32],
    pub tracers: &'a [u32],
    pub ledger: &'a [u32],
}

// The place that refuses a call, by its number.
#[derive(Clone, Copy, PartialEq, Eq, Debug)]
pub enum Refusal {
    GridRange = 1,
    Lengths = 2,
    AirRange = 3,
    Totals = 4,
    Index = 5,
    Emission = 6,
    Withdrawal = 7,
    Fluxes = 8,
    Zonal = 9,
    Meridional = 10,
    Table = 11,
    Remap = 12,
    LongFlux = 16,
    LongAir = 17,
    EmitterAdded = 18,
    EmitterAbsent = 19,
    GivenCount = 20,
    Limiters = 21,
    Books = 22,
}

impl From<Refusal> for u32 {
    ghost from_gives = { λ r n. n ≡ refusal_number r };

    fn from(r: Refusal) -> u32 {
        r as u32
    }
}

// What a call answers: accepted, with its count, or refused.
pub type Answer<Count = u32> = Result<Count, Refusal>;

// The answer's number: 0, or the refusal's.
pub fn number<Count: Copy>(answer: Answer<Count>) -> u32
    ensures { result ≡ number_of answer }
{
    match answer {
        Ok(_) => 0,
        Err(r) => u32::from(r),
    }
}

// The answer's count: 0 with a refusal.
pub fn count(answer: Answer) -> u32
    ensures { result ≡ count_of answer }
{
    answer.unwrap_or(0)
}

// Place 1: whether W, R, K and N are in their ranges.
pub fn grid_fits(g: Grid) -> bool
    ensures { result ≡ grid_fits (grid_of g) }
{
    let columns = (4 <= g.w) & (g.w <= MOST_COLUMNS as u32);
    let rows = (1 <= g.r) & (g.r <= MOST_ROWS as u32);
    let layers = (1 <= g.k) & (g.k <= MOST_LAYERS as u32);
    let tracers = (1 <= g.n) & (g.n <= MOST_TRACERS as u32);
    columns & rows & layers & tracers
}

// C, the cells of a layer.
pub fn layer_cells(g: Grid) -> u32
    requires { InRange g }
    ensures { (result ≡ layer_cells (grid_of g)) × (result ≤ most_layer_cells) }
{
    let w = g.w;
    let r = g.r;
    2 + r * w
}

// K·C, all cells of the world.
pub fn world_cells(g: Grid) -> u32
    requires { InRange g }
    ensures { (result ≡ world_cells (grid_of g)) × (result ≤ most_cells) }
{
    let k = g.k;
    k * layer_cells(g)
}

// Where row r of layer k starts among all cells.
pub fn row_start(g: Grid, k: u32, r: u32) -> u32
    requires { RowThere g k r }
    ensures { (result ≡ row_start (grid_of g) k r) × (result + g.w ≤ world_cells (grid_of g)) }
{
    let w = g.w;
    k * layer_cells(g) + (1 + r * w)
}

// Where layer k starts among all cells.
pub fn layer_start(g: Grid, k: u32) -> u32
    requires { LayerThere g k }
    ensures { (result ≡ layer_start (grid_of g) k) × (result + layer_cells (grid_of g) ≤ world_cells (grid_of g)) }
{
    k * layer_cells(g)
}
