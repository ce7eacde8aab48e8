// What the runner's records have set up, and the grids that the program takes.
#![tactic(auto)]

ghost use Rattle.std.specs.Prelude.{◌≡◌, ◌≤◌};
ghost use Rattle.model.specs.Limits.{program_cells};
ghost use Rattle.model.specs.World.{world_cells};
ghost use Rattle.program.specs.Records.{grid_refusal};
ghost use Rattle.units.specs.Grid.{grid_of};
ghost use Rattle.stages.specs.Buffers.{no_world, buffers_in};
ghost use Rattle.stages.specs.Stage.{grid_of_stage, fault_number, refused_number, refusal_of, IsSettled, SmallGrid};

use units::{
    Grid, PROGRAM_AMOUNTS, PROGRAM_CELLS, PROGRAM_LEDGER, PROGRAM_TRACERS, Refusal, grid_fits,
    world_cells,
};

// What the records so far have set up: nothing, a grid, a world in the program's buffers.
#[derive(Clone, Copy)]
pub enum Stage {
    Start,
    Gridded(Grid),
    Loaded(Grid),
}

// The program's buffers, with room for every world that it takes; a world stands at their start.
#[derive(Drop)]
pub struct Buffers {
    pub air: [u32; PROGRAM_CELLS],
    pub tracers: [u32; PROGRAM_AMOUNTS],
    pub ledger: [u32; PROGRAM_LEDGER],
}

impl Buffers {
    // Before the first load: zeros.
    pub fn new() -> Self
        ensures { buffers_in result ≡ no_world }
    {
        Buffers {
            air: [0; PROGRAM_CELLS],
            tracers: [0; PROGRAM_AMOUNTS],
            ledger: [0; PROGRAM_LEDGER],
        }
    }
}

// The program's own refusals, by their number.
#[derive(Clone, Copy, PartialEq, Eq, Debug)]
pub enum Fault {
    Kind = 13,
    Length = 14,
    ProgramGrid = 15,
}

impl From<Fault> for u32 {
    ghost from_gives = { λ f n. n ≡ fault_number f };

    fn from(f: Fault) -> u32 {
        f as u32
    }
}

// Why the program does not take a grid: a call's place refuses it, or it is larger than the program's buffers.
#[derive(Clone, Copy, PartialEq, Eq, Debug)]
pub enum GridRefusal {
    Call(Refusal),
    Program(Fault),
}

impl From<GridRefusal> for u32 {
    ghost from_gives = { λ r n. n ≡ refused_number r };

    fn from(r: GridRefusal) -> u32 {
        match r {
            GridRefusal::Call(place) => u32::from(place),
            GridRefusal::Program(fault) => u32::from(fault),
        }
    }
}

// Whether the program takes a grid, or why not: 15 after 1.
pub fn grid_refusal(g: Grid) -> Result<(), GridRefusal>
    ensures { refusal_of result ≡ grid_refusal (grid_of g) }
{
    if !grid_fits(g) {
        return Err(GridRefusal::Call(Refusal::GridRange));
    }
    if world_cells(g) > PROGRAM_CELLS as u32 || g.n > PROGRAM_TRACERS as u32 {
        return Err(GridRefusal::Program(Fault::ProgramGrid));
    }
    Ok(())
}

impl Stage {
    // The same stage, or the start where its grid is one that the program does not take.
    pub fn settled(self) -> Self
        ensures { IsSettled self result }
    {
        match self {
            Stage::Gridded(g) | Stage::Loaded(g) if grid_refusal(g).is_err() => Stage::Start,
            _ => self,
        }
    }

    // The stage's grid; one of no cells at the start, as the document's state has it.
    pub fn grid(self) -> Grid
        ensures { grid_of result ≡ grid_of_stage self }
    {
        match self {
            Stage::Start => Grid {
                w: 0,
                r: 0,
                k: 0,
                n: 0,
            },
            Stage::Gridded(g) | Stage::Loaded(g) => g,
        }
    }
}

// All cells of a grid that the program takes, or none of the grid at the start, of which units::world_cells does not speak.
pub fn cells_of(g: Grid) -> usize
    requires { SmallGrid g }
    ensures { (result ≡ world_cells (grid_of g)) × (result ≤ program_cells) }
{
    let w = g.w as usize;
    let r = g.r as usize;
    let k = g.k as usize;
    k * (2 + r * w)
}
