// The ledger: a block of 59 numbers for each tracer, with its standing emitters, from number 51 on its limiter (crate limiters), and from 56 on its book (crate books). Number 0 is how
// many stand, 1 and 2 are the halves of the sum of their units a tick; emitter i has its id at 3 + 3·i, its cell and its units behind it.
#![tactic(auto)]

ghost use Rattle.std.specs.Prelude.{◌≡◌, true, not, ◌||◌, ◌*◌, ◌≤◌, ◌<◌, length, leb, ltb, eqb};
ghost use Rattle.model.specs.Limits.{total_limit, most_emitters, block_numbers};
ghost use Rattle.model.specs.Basic.{at, part, tab, joined, sum, every, some};
ghost use Rattle.model.specs.Emitters.{standing, emitter_id, emitter_cell, emitter_units, kept_units, has_id, record_fits, with_head, with_emitter, emitter_added, removed_at};
ghost use Rattle.model.specs.Books.{fresh_block};
ghost use Rattle.ledger.specs.Block.{Searched, Kept};

use limiters::{Block, block_at, set_wide, wide_in, write_limiter};
use units::{BOOK_PLACE, LEDGER_BLOCK, Limiter, MOST_EMITTERS, MOST_TRACERS, PRESENT_LIMITER};

// A standing emitter: its id, the cell that it emits into, and its units a tick.
#[derive(Clone, Copy)]
pub struct Emitter {
    pub id: u32,
    pub cell: u32,
    pub units: u32,
}

// Leaves in a tracer's part of the ledger the block of a load of so many units: no emitter stands, the first limiter with both bounds 0, and in the book what was loaded.
// The block is written where it is lent: a copy of it would want a function of libc, and so more stack than the call.
fn renew_block(part: &mut [u32], total: u64)
    requires { (length part.old ≡ block_numbers) × (total ≤ total_limit) }
    ensures { part.new ≡ fresh_block total }
{
    let Some(block) = part.as_mut_array() else {
        unreachable!()
    };
    block.fill(0);
    write_limiter(
        block,
        Limiter {
            number: PRESENT_LIMITER,
            lo: 0,
            hi: 0,
        },
    );
    block[BOOK_PLACE] = total as u32;
}

// The blocks of n tracers as a load leaves them, with their totals; what stood there is not read.
pub fn renew(ledger: &mut [u32], totals: [u64; MOST_TRACERS], n: usize)
    requires { (length ledger.old ≡ n * block_numbers) × (n ≤ 8) × (every n (λ t. leb (at totals t) total_limit) ≡ true) }
    ensures { ledger.new ≡ joined (tab n (λ t. fresh_block (at totals t))) }
{
    for t in 0..n {
        let a = t * LEDGER_BLOCK;
        renew_block(&mut ledger[a..a + LEDGER_BLOCK], totals[t]);
    }
}

// How many emitters stand, and the units a tick that are kept for them.
pub fn standing_in(block: &Block) -> usize
    ensures { result ≡ standing block.now }
{
    block[0] as usize
}

pub fn kept_units(block: &Block) -> u64
    ensures { result ≡ kept_units block.now }
{
    wide_in(block, 1)
}

// Emitter i.
pub fn emitter_at(block: &Block, i: usize) -> Emitter
    requires { i < most_emitters }
    ensures id { result.id ≡ emitter_id block.now i }
    ensures cell { result.cell ≡ emitter_cell block.now i }
    ensures units { result.units ≡ emitter_units block.now i }
{
    Emitter {
        id: block[3 + 3 * i],
        cell: block[4 + 3 * i],
        units: block[5 + 3 * i],
    }
}

// The sum of the units of the first n emitters.
fn present_units(block: &Block, n: usize) -> u64
    requires { n ≤ most_emitters }
    ensures { result ≡ sum n (emitter_units block.now) }
{
    let mut units = 0;
    for i in 0..n {
        units += u64::from(emitter_at(block, i).units);
    }
    units
}

// Whether the cells of the first n emitters are there.
fn cells_there(block: &Block, n: usize, cells: usize) -> bool
    requires { n ≤ most_emitters }
    ensures { result ≡ every n (λ i. ltb (emitter_cell block.now i) cells) }
{
    (0..n).all(|i| (emitter_at(block, i).cell as usize) < cells)
}

// Whether one of the first n emitters has that id.
fn has_among(block: &Block, n: usize, id: u32) -> bool
    requires { n ≤ most_emitters }
    ensures { result ≡ some n (λ i. eqb (emitter_id block.now i) id) }
{
    (0..n).any(|i| emitter_at(block, i).id == id)
}

// Whether each of the first n emitters has an id that none before it has.
fn ids_apart(block: &Block, n: usize) -> bool
    requires { n ≤ most_emitters }
    ensures { result ≡ every n (λ i. every i (λ j. not (eqb (emitter_id block.now j) (emitter_id block.now i)))) }
{
    (0..n).all(|i| !has_among(block, i, emitter_at(block, i).id))
}

// Whether a tracer's record fits a world of so many cells. Where more than 16 stand the rest is not read.
pub fn record_fits(block: &Block, cells: usize) -> bool
    ensures { result ≡ record_fits cells block.now }
{
    let n = standing_in(block);
    if n > MOST_EMITTERS {
        return false;
    }
    cells_there(block, n, cells)
        & ids_apart(block, n)
        & (kept_units(block) == present_units(block, n))
}

// Whether the records of the first n tracers fit.
pub fn records_fit(ledger: &[u32], n: usize, cells: usize) -> bool
    requires { (n * block_numbers ≤ length ledger.now) × (n ≤ 8) }
    ensures { result ≡ every n (λ t. record_fits cells (part ledger.now (t * block_numbers) block_numbers)) }
{
    (0..n).all(|t| record_fits(block_at(ledger, t), cells))
}

// The place of the emitter of that id, if one has it; of several the last.
pub fn place_of(block: &Block, id: u32) -> Option<usize>
    requires { standing block.now ≤ most_emitters }
    ensures { Searched block.now id (standing block.now) result }
{
    let mut place = None;
    for i in 0..standing_in(block) {
        if emitter_at(block, i).id == id {
            place = Some(i);
        }
    }
    place
}

// Whether an emitter may be added under that id: fewer than 16 stand, and none has it.
pub fn takes(block: &Block, id: u32) -> bool
    requires { standing block.now ≤ most_emitters }
    ensures { result ≡ not (leb most_emitters (standing block.now) || has_id block.now id) }
{
    let n = standing_in(block);
    (n < MOST_EMITTERS) & !has_among(block, n, id)
}

// Writes how many stand and their sum; and an emitter in place i.
fn set_head(block: &mut Block, n: usize, units: u64)
    requires { n ≤ most_emitters }
    ensures { block.new ≡ with_head block.old n units }
{
    block[0] = n as u32;
    set_wide(block, 1, units);
}

fn set_emitter(block: &mut Block, i: usize, emitter: Emitter)
    requires { i < most_emitters }
    ensures { block.new ≡ with_emitter block.old i emitter.id emitter.cell emitter.units }
{
    block[3 + 3 * i] = emitter.id;
    block[4 + 3 * i] = emitter.cell;
    block[5 + 3 * i] = emitter.units;
}

// Adds an emitter after the last one.
pub fn add(block: &mut Block, emitter: Emitter)
    requires { Kept block.old × (standing block.old < most_emitters) }
    ensures { block.new ≡ emitter_added block.old emitter.id emitter.cell emitter.units }
{
    let n = standing_in(block);
    let sum = kept_units(block) + u64::from(emitter.units);
    set_head(block, n + 1, sum);
    set_emitter(block, n, emitter);
}

// Removes the emitter in place i: the last one takes its place, and 0 is written over the last one's own.
pub fn remove(block: &mut Block, i: usize)
    requires { Kept block.old × (i < standing block.old) }
    ensures { block.new ≡ removed_at block.old i }
{
    let last = standing_in(block) - 1;
    let kept = kept_units(block);
    let sum = kept - u64::from(emitter_at(block, i).units);
    let moved = emitter_at(block, last);
    set_head(block, last, sum);
    set_emitter(block, i, moved);
    set_emitter(
        block,
        last,
        Emitter {
            id: 0,
            cell: 0,
            units: 0,
        },
    );
}
