// Carries out a record of the runner in the program's buffers.
#![tactic(auto)]

ghost use Rattle.std.specs.Prelude.{◌≡◌, None};
ghost use Rattle.model.specs.Step.{load};
ghost use Rattle.stages.specs.Buffers.{buffers, buffers_in, held};
ghost use Rattle.commands.specs.Command.{call_is};
ghost use Rattle.units.specs.Grid.{grid_of};
ghost use Rattle.units.specs.Answer.{number_of, count_of};
ghost use Rattle.program.specs.Records.{line};
ghost use Rattle.record_to_line.specs.Outcome.{line_is, load_world, AnswersLoad, Made, TakesGrid, TakeNeed, TakesLoad, TakesCall, CarryNeed, CarriesCommand, Carries};

use command_to_answer::{make_call, make_load};
use commands::{Call, Command};
use lines::Line;
use records::read;
use stages::{Buffers, Stage, cells_of, grid_refusal};
use units::{Answer, Grid, LEDGER_BLOCK, PROGRAM_AMOUNTS, PROGRAM_CELLS, PROGRAM_LEDGER, number};

// What comes of a record: its line, and the next stage; none after the program's last line.
#[derive(Clone, Copy)]
pub struct Outcome {
    pub line: Line,
    pub next: Option<Stage>,
}

// The line of a call's answer: the count is taken out only when the call was accepted.
fn line_of(kind: u32, answer: Answer) -> Line
    ensures { line_is result ≡ line kind (number_of answer) (count_of answer) }
{
    let Ok(count) = answer else {
        return Line {
            kind,
            answer: number(answer),
            count: 0, // none with a refusal
        };
    };
    Line {
        kind,
        answer: 0,
        count,
    }
}

// The program's last line, with a refusal of its own.
fn last_line(kind: u32, refusal: u32) -> Outcome
    ensures { (line_is result.line ≡ line kind refusal 0) × (result.next ≡ None) }
{
    Outcome {
        line: Line {
            kind,
            answer: refusal,
            count: 0,
        },
        next: None,
    }
}

// A grid's record: 15 after 1.
fn take_grid(kind: u32, wanted: Grid) -> Outcome
    ensures { TakesGrid kind wanted result }
{
    match grid_refusal(wanted) {
        Err(refusal) => last_line(kind, u32::from(refusal)),
        Ok(()) => Outcome {
            line: line_of(kind, Ok(0)),
            next: Some(Stage::Gridded(wanted)),
        },
    }
}

// Makes a load in the grid's parts of the buffers.
// These two take the buffers one by one: parts of several fields cannot be lent at once behind a reference to the struct.
fn load_in(
    g: Grid,
    body: &[u8],
    air: &mut [u32; PROGRAM_CELLS],
    tracers: &mut [u32; PROGRAM_AMOUNTS],
    ledger: &mut [u32; PROGRAM_LEDGER],
) -> Answer
    requires { TakeNeed g Command.Load body.now }
    ensures { Made g (load_world g body.now) load result (buffers air.old tracers.old ledger.old) (buffers air.new tracers.new ledger.new) }
{
    let cells = cells_of(g);
    let n = g.n as usize;
    make_load(
        g,
        body,
        &mut air[..cells],
        &mut tracers[..n * cells],
        &mut ledger[..n * LEDGER_BLOCK],
    )
}

// Makes a call in the world that the grid has in them.
fn call_in(
    g: Grid,
    call: Call,
    body: &[u8],
    air: &mut [u32; PROGRAM_CELLS],
    tracers: &mut [u32; PROGRAM_AMOUNTS],
    ledger: &mut [u32; PROGRAM_LEDGER],
) -> Answer
    requires { TakeNeed g (Command.Call call) body.now }
    ensures { let before = buffers air.old tracers.old ledger.old in Made g (held (grid_of g) before) (call_is (grid_of g) body.now call) result before (buffers air.new tracers.new ledger.new) }
{
    let cells = cells_of(g);
    let n = g.n as usize;
    make_call(
        g,
        call,
        body,
        &mut air[..cells],
        &mut tracers[..n * cells],
        &mut ledger[..n * LEDGER_BLOCK],
    )
}

// The answer to a load, made beside the program's buffers, so that a refused one changes none of them.
fn answer_to_load(g: Grid, body: &[u8]) -> Answer
    requires { TakeNeed g Command.Load body.now }
    ensures { AnswersLoad g body.now result }
{
    let mut beside = Buffers::new();
    load_in(
        g,
        body,
        &mut beside.air,
        &mut beside.tracers,
        &mut beside.ledger,
    )
}

// A load's record.
fn take_load(g: Grid, kind: u32, body: &[u8], buffers: &mut Buffers) -> Outcome
    requires { TakeNeed g Command.Load body.now }
    ensures { TakesLoad g kind body.now result (buffers_in buffers.old) (buffers_in buffers.new) }
{
    let answer = answer_to_load(g, body);
    let line = line_of(kind, answer);
    let Ok(_) = answer else {
        return Outcome {
            line,
            next: Some(Stage::Gridded(g)),
        };
    };
    let _ = load_in(
        g,
        body,
        &mut buffers.air,
        &mut buffers.tracers,
        &mut buffers.ledger,
    ); // the same answer
    Outcome {
        line,
        next: Some(Stage::Loaded(g)),
    }
}

// A call's record.
fn take_call(g: Grid, kind: u32, call: Call, body: &[u8], buffers: &mut Buffers) -> Outcome
    requires { TakeNeed g (Command.Call call) body.now }
    ensures { TakesCall g kind call body.now result (buffers_in buffers.old) (buffers_in buffers.new) }
{
    let answer = call_in(
        g,
        call,
        body,
        &mut buffers.air,
        &mut buffers.tracers,
        &mut buffers.ledger,
    );
    Outcome {
        line: line_of(kind, answer),
        next: Some(Stage::Loaded(g)),
    }
}

// What comes of a command.
fn carry_command(
    g: Grid,
    kind: u32,
    command: Command,
    body: &[u8],
    buffers: &mut Buffers,
) -> Outcome
    requires { CarryNeed g command body.now }
    ensures { CarriesCommand g kind command body.now result (buffers_in buffers.old) (buffers_in buffers.new) }
{
    match command {
        Command::Grid(wanted) => take_grid(kind, wanted),
        Command::Load => take_load(g, kind, body, buffers),
        Command::Call(call) => take_call(g, kind, call, body, buffers),
    }
}

// Carries out the record at the start of some bytes, in the program's buffers; none where there is no byte.
pub fn carry_out(stage: Stage, input: &[u8], buffers: &mut Buffers) -> Option<Outcome>
    ensures { Carries stage input.now result (buffers_in buffers.old) (buffers_in buffers.new) }
{
    let (&byte, body) = input.split_first()?;
    let kind = u32::from(byte);
    let sound = stage.settled();
    match read(sound, input) {
        Err(fault) => Some(last_line(kind, u32::from(fault))),
        Ok(None) => None,
        Ok(Some(command)) => Some(carry_command(sound.grid(), kind, command, body, buffers)),
    }
}
