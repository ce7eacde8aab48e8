// The runner's reader: the bytes that a record needs, and the record at the start of some bytes.
#![tactic(auto)]

ghost use Rattle.stages.specs.Buffers.{empty};
ghost use Rattle.stages.specs.Stage.{plain_state};
ghost use Rattle.records.specs.Found.{IsPlaced, NeedsBytes, Finds};

use commands::{Command, parse};
use kinds::{Kind, body_length, in_place};
use stages::{Fault, Stage};

// The kind that a byte names, where a record of it may come now.
fn placed(stage: Stage, byte: u8) -> Result<Kind, Fault>
    ensures { IsPlaced (plain_state stage empty) byte result }
{
    let kind = Kind::try_from(byte)?;
    if !in_place(stage, Some(kind)) {
        return Err(Fault::Kind);
    }
    Ok(kind)
}

// The bytes of a body that a kind needs: none where 13 follows.
pub fn body_bytes(stage: Stage, kind: u8) -> usize
    ensures { NeedsBytes stage kind result }
{
    let sound = stage.settled();
    match placed(sound, kind) {
        Ok(known) => body_length(sound.grid(), Some(known)),
        Err(_) => 0,
    }
}

// The record at the start of some bytes, with its whole body; none where there is no byte. Kind before length, length before its body is handed to the parser.
pub fn read(stage: Stage, input: &[u8]) -> Result<Option<Command>, Fault>
    ensures { Finds stage input.now result }
{
    let Some((&byte, body)) = input.split_first() else {
        return Ok(None);
    };
    let sound = stage.settled();
    let kind = placed(sound, byte)?;
    if body.len() < body_length(sound.grid(), Some(kind)) {
        return Err(Fault::Length);
    }
    Ok(Some(parse(kind, body)))
}
