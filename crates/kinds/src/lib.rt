// The kinds of records: where each may stand, and how long its body is.
#![tactic(auto)]

ghost use Rattle.std.specs.Prelude.{◌≡◌, ◌≤◌};
ghost use Rattle.program.specs.Records.{is_start, is_loaded, in_place, body_length};
ghost use Rattle.units.specs.Grid.{grid_of};
ghost use Rattle.stages.specs.Buffers.{empty};
ghost use Rattle.stages.specs.Limits.{program_body};
ghost use Rattle.stages.specs.Stage.{plain_state, SmallGrid};
ghost use Rattle.kinds.specs.Kind.{known_or_not, Names};

use stages::{Fault, Stage, cells_of};
use units::Grid;

#[derive(Clone, Copy, PartialEq, Eq, Debug)]
pub enum Kind {
    Grid,
    Load,
    Emission,
    Withdrawal,
    Zonal,
    Meridional,
    Remap,
    Total,
    Cell,
}

// The kind that a byte names; a byte that names none is refused as a kind out of place is.
impl TryFrom<u8> for Kind {
    type Error = Fault;

    ghost try_from_gives = { Names };

    fn try_from(byte: u8) -> Result<Self, Fault> {
        Ok(match byte {
            1 => Kind::Grid,
            2 => Kind::Load,
            3 => Kind::Emission,
            4 => Kind::Withdrawal,
            5 => Kind::Zonal,
            6 => Kind::Meridional,
            7 => Kind::Remap,
            8 => Kind::Total,
            9 => Kind::Cell,
            _ => return Err(Fault::Kind),
        })
    }
}

fn is_start(stage: Stage) -> bool
    ensures { result ≡ is_start (plain_state stage empty) }
{
    matches!(stage, Stage::Start)
}

fn is_loaded(stage: Stage) -> bool
    ensures { result ≡ is_loaded (plain_state stage empty) }
{
    matches!(stage, Stage::Loaded(_))
}

// Place 13: whether a record of this kind may come now; one of no kind may not.
pub fn in_place(stage: Stage, kind: Option<Kind>) -> bool
    ensures { result ≡ in_place (plain_state stage empty) (known_or_not kind) }
{
    match kind {
        None => false,
        Some(Kind::Grid) => is_start(stage),
        Some(Kind::Load) => !is_start(stage),
        Some(
            Kind::Emission
            | Kind::Withdrawal
            | Kind::Zonal
            | Kind::Meridional
            | Kind::Remap
            | Kind::Total
            | Kind::Cell,
        ) => is_loaded(stage),
    }
}

// The length of a body, which the kind and the grid fix; none of no kind.
pub fn body_length(g: Grid, kind: Option<Kind>) -> usize
    requires { SmallGrid g }
    ensures { (result ≡ body_length (grid_of g) (known_or_not kind)) × (result ≤ program_body) }
{
    let w = g.w as usize;
    let r = g.r as usize;
    let k = g.k as usize;
    let n = g.n as usize;
    let cells = cells_of(g);
    match kind {
        None => 0,
        Some(Kind::Grid) => 4,
        Some(Kind::Load) => 4 * (cells + n * cells),
        Some(Kind::Emission | Kind::Withdrawal) => 7,
        Some(Kind::Zonal) => 2 + 4 * w,
        Some(Kind::Meridional) => 1 + 4 * (w * (r + 1)),
        Some(Kind::Remap) => 4 * (2 * (k + 1)),
        Some(Kind::Total) => 1,
        Some(Kind::Cell) => 3,
    }
}
