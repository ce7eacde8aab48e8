// What a record asks for: a kind with its whole body as a command.
#![tactic(auto)]

ghost use Rattle.kinds.specs.Kind.{kind_is};
ghost use Rattle.commands.specs.Command.{ParseNeed, Parses};

use fields::{Amount, number_1, number_2, parse_amount, parse_grid};
use kinds::Kind;
use units::Grid;

// What a record asks for, but for its lists, which stay in its body.
#[derive(Clone, Copy)]
pub enum Command {
    Grid(Grid),
    Load,
    Call(Call),
}

// A call in the loaded world.
#[derive(Clone, Copy)]
pub enum Call {
    Emission(Amount),
    Withdrawal(Amount),
    Zonal { layer: u32, row: u32 },
    Meridional { layer: u32 },
    Remap,
    Total { tracer: u32 },
    Cell { tracer: u32, cell: u32 },
}

// What a record with its whole body asks for.
pub fn parse(kind: Kind, body: &[u8]) -> Command
    requires { ParseNeed (kind_is kind) body.now }
    ensures { Parses (kind_is kind) body.now result }
{
    let call = match kind {
        Kind::Grid => return Command::Grid(parse_grid(body)),
        Kind::Load => return Command::Load,
        Kind::Emission => Call::Emission(parse_amount(body)),
        Kind::Withdrawal => Call::Withdrawal(parse_amount(body)),
        Kind::Zonal => Call::Zonal {
            layer: number_1(body, 0),
            row: number_1(body, 1),
        },
        Kind::Meridional => Call::Meridional {
            layer: number_1(body, 0),
        },
        Kind::Remap => Call::Remap,
        Kind::Total => Call::Total {
            tracer: number_1(body, 0),
        },
        Kind::Cell => Call::Cell {
            tracer: number_1(body, 0),
            cell: number_2(body, 1),
        },
    };
    Command::Call(call)
}
