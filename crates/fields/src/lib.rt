// The fields of a record's body: numbers of 1, 2 and 4 bytes, a grid, an amount in a cell.
#![tactic(auto)]

ghost use Rattle.std.specs.Prelude.{◌≡◌, ◌+◌, ◌≤◌, ◌<◌, length};
ghost use Rattle.model.specs.Basic.{at as byte_at};
ghost use Rattle.program.specs.Bytes.{number_at};
ghost use Rattle.units.specs.Grid.{grid_of};
ghost use Rattle.fields.specs.Field.{grid_at, IsAmount};

use units::Grid;

// The byte `at` of some bytes, and the number that 2 or 4 of them from there on hold, the low byte first: std has a conversion for each size, and no generic one.
pub fn number_1(bytes: &[u8], at: usize) -> u32
    requires { at < length bytes.now }
    ensures { (result ≡ byte_at bytes.now at) × (result < 256) }
{
    u32::from(bytes[at])
}

pub fn number_2(bytes: &[u8], at: usize) -> u32
    requires { at + 1 < length bytes.now }
    ensures { (result ≡ number_at bytes.now at 2) × (result < 65536) }
{
    u32::from(u16::from_le_bytes([bytes[at], bytes[at + 1]]))
}

pub fn number_4(bytes: &[u8], at: usize) -> u32
    requires { at + 3 < length bytes.now }
    ensures { result ≡ number_at bytes.now at 4 }
{
    u32::from_le_bytes([bytes[at], bytes[at + 1], bytes[at + 2], bytes[at + 3]])
}

#[derive(Clone, Copy)]
pub struct Amount {
    pub tracer: u32,
    pub cell: u32,
    pub amount: u32,
}

// W, R, K, N, a byte each.
pub fn parse_grid(body: &[u8]) -> Grid
    requires { 4 ≤ length body.now }
    ensures { grid_of result ≡ grid_at body.now }
{
    Grid {
        w: number_1(body, 0),
        r: number_1(body, 1),
        k: number_1(body, 2),
        n: number_1(body, 3),
    }
}

// Tracer 1 byte, cell 2 bytes, amount 4.
pub fn parse_amount(body: &[u8]) -> Amount
    requires { 7 ≤ length body.now }
    ensures { IsAmount body.now result.tracer result.cell result.amount }
{
    Amount {
        tracer: number_1(body, 0),
        cell: number_2(body, 1),
        amount: number_4(body, 3),
    }
}
