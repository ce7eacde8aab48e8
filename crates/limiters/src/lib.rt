// A tracer's block of the ledger, and its limiter in it: its number, then the low and the high half of each of its two bounds.
#![tactic(auto)]

ghost use Rattle.std.specs.Prelude.{◌≡◌, ◌+◌, ◌*◌, ◌/◌, ◌%◌, ◌≤◌, ◌<◌, length, set};
ghost use Rattle.model.specs.Limits.{block_numbers};
ghost use Rattle.model.specs.Basic.{at, every, part, written};
ghost use Rattle.model.specs.Emitters.{half};
ghost use Rattle.model.specs.Limiters.{limiter_fits, limiter_in, with_limiter};
ghost use Rattle.units.specs.Limiter.{limiter_of, limiter_at};

use units::{FIXED_LIMITER, LEDGER_BLOCK, LIMITER_PLACE, Limiter, PRESENT_LIMITER};

// A tracer's block of the ledger.
pub type Block = [u32; LEDGER_BLOCK];

// What a number of 32 bits counts to: the high half of a number of 64 bits stands in a number of its own.
const HALF: u64 = 4294967296;

// The block of tracer t.
pub fn block_at(ledger: &[u32], t: usize) -> &Block
    requires { (t * block_numbers + block_numbers ≤ length ledger.now) × (t < 8) }
    ensures { result.now ≡ part ledger.now (t * block_numbers) block_numbers }
{
    let a = t * LEDGER_BLOCK;
    ledger[a..a + LEDGER_BLOCK].as_array().unwrap()
}

// Puts a block in the place of tracer t's. The calls of this library don't copy a block: they write it where it is lent.
pub fn put_block(ledger: &mut [u32], t: usize, block: &Block)
    requires { (t * block_numbers + block_numbers ≤ length ledger.old) × (t < 8) }
    ensures { ledger.new ≡ written ledger.old (t * block_numbers) block.now }
{
    let a = t * LEDGER_BLOCK;
    ledger[a..a + LEDGER_BLOCK].copy_from_slice(block);
}

// A number of 64 bits from its halves.
pub fn joined(low: u32, high: u32) -> u64
    ensures { result ≡ low + 4294967296 * high }
{
    u64::from(low) + HALF * u64::from(high)
}

// The number of 64 bits whose halves are numbers i and i + 1 of a block.
pub fn wide_in(block: &Block, i: usize) -> u64
    requires { i + 1 < block_numbers }
    ensures { result ≡ at block.now i + half * at block.now (i + 1) }
{
    joined(block[i], block[i + 1])
}

// Writes the halves of a number of 64 bits.
pub fn set_wide(block: &mut Block, i: usize, x: u64)
    requires { i + 1 < block_numbers }
    ensures { block.new ≡ set (set block.old i (x % half)) (i + 1) (x / half) }
{
    block[i] = (x % HALF) as u32;
    block[i + 1] = (x / HALF) as u32;
}

// The limiter of a block.
pub fn limiter_in(block: &Block) -> Limiter
    ensures { limiter_of result ≡ limiter_in block.now }
{
    Limiter {
        number: block[LIMITER_PLACE],
        lo: wide_in(block, LIMITER_PLACE + 1),
        hi: wide_in(block, LIMITER_PLACE + 3),
    }
}

// The limiter of tracer t.
pub fn limiter_at(ledger: &[u32], t: usize) -> Limiter
    requires { (t * block_numbers + block_numbers ≤ length ledger.now) × (t < 8) }
    ensures { limiter_of result ≡ limiter_at ledger.now t }
{
    limiter_in(block_at(ledger, t))
}

// Place 21: whether a limiter is one of the three, and its lower bound at most its upper one.
pub fn limiter_fits(l: Limiter) -> bool
    ensures { result ≡ limiter_fits (limiter_of l) }
{
    (PRESENT_LIMITER <= l.number) & (l.number <= FIXED_LIMITER) & (l.lo <= l.hi)
}

// Whether the limiters of the first n tracers fit.
pub fn limiters_fit(ledger: &[u32], n: usize) -> bool
    requires { (n * block_numbers ≤ length ledger.now) × (n ≤ 8) }
    ensures { result ≡ every n (λ t. limiter_fits (limiter_at ledger.now t)) }
{
    (0..n).all(|t| limiter_fits(limiter_at(ledger, t)))
}

// Writes a limiter into a block.
pub fn write_limiter(block: &mut Block, l: Limiter)
    ensures { block.new ≡ with_limiter block.old (limiter_of l) }
{
    block[LIMITER_PLACE] = l.number;
    set_wide(block, LIMITER_PLACE + 1, l.lo);
    set_wide(block, LIMITER_PLACE + 3, l.hi);
}
