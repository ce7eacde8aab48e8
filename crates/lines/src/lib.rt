// A line of the runner as text. It is written from its end, so that each number's digits come out in their order.
#![tactic(auto)]

ghost use Rattle.std.specs.Prelude.{◌≤◌, [], ◌∷◌, length};
ghost use Rattle.program.specs.Bytes.{decimal};
ghost use Rattle.program.specs.Records.{line};
ghost use Rattle.lines.specs.Text.{IsPut, IsText};

#[derive(Clone, Copy, PartialEq, Eq, Debug)]
pub struct Line {
    pub kind: u32,
    pub answer: u32,
    pub count: u32,
}

// Each of the two writes just before `end`, and returns where what it wrote starts.
fn put_byte(b: u8, out: &mut [u8], end: usize) -> usize
    requires { (1 ≤ end) × (end ≤ length out.old) }
    ensures { IsPut 1 (b ∷ []) end out.old out.new result }
{
    let at = end - 1;
    out[at] = b;
    at
}

// Writes a number's digits, of which no range counts how many there are.
// Not std's `write!` in an `impl Display`: it may answer Err, and line_text may not; and into a slice it says nothing of the bytes.
fn put_decimal(n: u32, out: &mut [u8], end: usize) -> usize
    requires { (10 ≤ end) × (end ≤ length out.old) }
    ensures { IsPut 10 (decimal n) end out.old out.new result }
{
    let mut rest = n;
    let mut at = end;
    while 10 <= rest {
        at -= 1;
        out[at] = 48 + (rest % 10) as u8;
        rest /= 10;
    }
    at -= 1;
    out[at] = 48 + rest as u8;
    at
}

// Writes the line with its end into the last bytes of `out`, and returns where it starts.
// Not the text as a slice of `out`: a slice that borrows `out` cannot say, as IsText does, what `out` holds at exit.
// 33: three numbers of at most 10 digits, two spaces and the line's end.
pub fn line_text(l: Line, out: &mut [u8; 33]) -> usize
    ensures { IsText (line l.kind l.answer l.count) out.new result }
{
    let newline = put_byte(10, out, 33);
    let count = put_decimal(l.count, out, newline);
    let space = put_byte(32, out, count);
    let answer = put_decimal(l.answer, out, space);
    let first_space = put_byte(32, out, answer);
    put_decimal(l.kind, out, first_space)
}
