// The call that sets one tracer's limiter and its bounds. It takes the grid and the lent buffers one by one, as its C function does, so that its signature says which of them it writes.
#![tactic(auto)]

ghost use Rattle.std.specs.Prelude.{◌≡◌, length};
ghost use Rattle.model.specs.Limits.{block_numbers};
ghost use Rattle.model.specs.Limiters.{with_limiter};
ghost use Rattle.model.specs.Step.{set_limiter};
ghost use Rattle.units.specs.Limiter.{limiter_of};
ghost use Rattle.units.specs.Answer.{Agrees};
ghost use Rattle.units.specs.Grid.{world_of};

use limiters::{limiter_fits, write_limiter};
use places::{Lent, common_places};
use units::{Answer, Grid, LEDGER_BLOCK, Limiter, Refusal, World};

// Writes a limiter in a tracer's part of the ledger, where it is lent: a copy of the block would want a function of libc, and so more stack than the call.
fn write_in(part: &mut [u32], l: Limiter)
    requires { length part.old ≡ block_numbers }
    ensures { (part.new ≡ with_limiter part.old (limiter_of l)) × (length part.new ≡ block_numbers) }
{
    let Some(block) = part.as_mut_array() else {
        unreachable!()
    };
    write_limiter(block, l);
}

// Stores the given limiter and bounds as they are given, if the limiter is one of the three and `lo` is at most `hi`; what stood there is not tested.
pub fn set_limiter(
    g: Grid,
    air: &[u32],
    tracers: &[u32],
    ledger: &mut [u32],
    tracer: u32,
    limiter: u32,
    lo: u64,
    hi: u64,
) -> Answer
    ensures { Agrees (world_of g air.now tracers.now ledger.old) (set_limiter tracer limiter lo hi) result (world_of g air.now tracers.now ledger.new) }
{
    let w = World {
        grid: g,
        air,
        tracers,
        ledger,
    };
    common_places(w, Lent::Nothing)?;
    if tracer >= g.n {
        return Err(Refusal::Index);
    }
    let given = Limiter {
        number: limiter,
        lo,
        hi,
    };
    if !limiter_fits(given) {
        return Err(Refusal::Limiters);
    }
    let a = (tracer as usize) * LEDGER_BLOCK;
    write_in(&mut ledger[a..a + LEDGER_BLOCK], given);
    Ok(0)
}
