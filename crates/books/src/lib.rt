// A tracer's book as it stands in its block of the ledger: the units loaded, emitted and withdrawn. Each sum has 32 bits, and they are added in 64.
#![tactic(auto)]

ghost use Rattle.std.specs.Prelude.{◌≡◌, true, ◌&&◌, ◌+◌, ◌*◌, ◌≤◌, leb, length};
ghost use Rattle.model.specs.Limits.{total_limit, sum_limit, block_numbers};
ghost use Rattle.model.specs.Basic.{at, part, every};
ghost use Rattle.model.specs.Books.{emitted_sum, withdrawn_sum, balances, entered};

use limiters::{Block, block_at};
use units::{BOOK_PLACE, MOST_TRACERS, SUM_LIMIT, TOTAL_LIMIT};

// Place 22: whether the book of a block agrees with the tracer's summed cells. Both sides are sums, so that none is negative.
pub fn book_balances(block: &Block, cells: u64) -> bool
    requires { cells ≤ total_limit }
    ensures { result ≡ balances block.now cells }
{
    let came = u64::from(block[BOOK_PLACE]) + u64::from(block[BOOK_PLACE + 1]);
    let gone = u64::from(block[BOOK_PLACE + 2]);
    came == gone + cells
}

// Whether the books of the first n tracers agree with their totals.
pub fn books_balance(ledger: &[u32], totals: [u64; MOST_TRACERS], n: usize) -> bool
    requires { (n * block_numbers ≤ length ledger.now) × (n ≤ 8) × (every n (λ t. leb (at totals t) total_limit) ≡ true) }
    ensures { result ≡ every n (λ t. balances (part ledger.now (t * block_numbers) block_numbers) (at totals t)) }
{
    (0..n).all(|t| book_balances(block_at(ledger, t), totals[t]))
}

// Place 6: whether a tracer with that total, and the book of that block, takes so many units more.
pub fn emission_fits(block: &Block, total: u64, units: u64) -> bool
    requires { total ≤ total_limit }
    ensures { result ≡ leb (total + units) total_limit && leb (emitted_sum block.now + units) sum_limit }
{
    let emitted = u64::from(block[BOOK_PLACE + 1]);
    (units <= TOTAL_LIMIT - total) & (units <= SUM_LIMIT - emitted)
}

// Place 7: whether a cell with that amount gives so many units, and the book has room for them.
pub fn withdrawal_fits(block: &Block, had: u32, amount: u32) -> bool
    ensures { result ≡ leb amount had && leb (withdrawn_sum block.now + amount) sum_limit }
{
    let withdrawn = u64::from(block[BOOK_PLACE + 2]);
    (amount <= had) & (withdrawn + u64::from(amount) <= SUM_LIMIT)
}

// Enters so many units emitted; and withdrawn. Two functions, each named by its entry: one with a flag, or with the place, would be told what to write by a value that says less than the name.
pub fn enter_emitted(block: &mut Block, units: u32)
    requires { emitted_sum block.old + units ≤ sum_limit }
    ensures { block.new ≡ entered block.old units 0 }
{
    block[BOOK_PLACE + 1] += units;
}

pub fn enter_withdrawn(block: &mut Block, units: u32)
    requires { withdrawn_sum block.old + units ≤ sum_limit }
    ensures { block.new ≡ entered block.old 0 units }
{
    block[BOOK_PLACE + 2] += units;
}

// The same two in the tracer's part of the ledger, written where it is lent: a copy of the block would want a function of libc, and so more stack than the calls.
pub fn enter_emitted_in(part: &mut [u32], units: u32)
    requires { (length part.old ≡ block_numbers) × (emitted_sum part.old + units ≤ sum_limit) }
    ensures { (part.new ≡ entered part.old units 0) × (length part.new ≡ block_numbers) }
{
    let Some(block) = part.as_mut_array() else {
        unreachable!()
    };
    enter_emitted(block, units);
}

pub fn enter_withdrawn_in(part: &mut [u32], units: u32)
    requires { (length part.old ≡ block_numbers) × (withdrawn_sum part.old + units ≤ sum_limit) }
    ensures { (part.new ≡ entered part.old 0 units) × (length part.new ≡ block_numbers) }
{
    let Some(block) = part.as_mut_array() else {
        unreachable!()
    };
    enter_withdrawn(block, units);
}
