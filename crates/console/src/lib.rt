// The runner's loop over standard input and standard output. What a record is, what comes of it and its line's text
// are proved in the crates below; here it is read and written.
#![tactic(auto)]

ghost use Rattle.std.specs.Prelude.{◌≡◌, ◌+◌, ◌≤◌, length};
ghost use Rattle.stages.specs.Limits.{program_body};

use lines::{Line, line_text};
use record_to_line::carry_out;
use records::body_bytes;
use stages::{Buffers, Stage};
use std::io::{self, Input, Print, Read};
use units::PROGRAM_BODY;

// Reads until `buf` is full, the input ends or a read fails, and answers how many bytes stand at the start of `buf`. A read gives as many bytes as it likes, so that no range counts the reads.
fn read_full<R: Read>(input: &mut R, buf: &mut [u8]) -> usize
    ensures { result ≤ length buf.new }
{
    let mut done = 0;
    while done < buf.len() {
        let Ok(n) = input.read(&mut buf[done..]) else {
            break;
        };
        if n == 0 {
            break;
        }
        done += n;
    }
    done
}

fn print(rt: &impl Print, line: Line) -> io::Result<()> {
    let mut text = [0u8; 33];
    let at = line_text(line, &mut text);
    rt.write_all(&text[at..])
}

// One byte, then the bytes that it needs or what is left of them, then the record carried out, then its line. None at
// the end of the program, which a line that cannot be written ends too.
fn turn<R: Read>(
    rt: &impl Print,
    input: &mut R,
    stage: Stage,
    bytes: &mut [u8; PROGRAM_BODY + 1],
    buffers: &mut Buffers,
) -> Option<Stage>
    requires { length bytes.old ≡ program_body + 1 }
{
    let first = read_full(input, &mut bytes[..1]);
    if first == 0 {
        return None;
    }
    let end = 1 + body_bytes(stage, bytes[0]);
    let body = read_full(input, &mut bytes[1..end]);
    let outcome = carry_out(stage, &bytes[..1 + body], buffers)?;
    print(rt, outcome.line).ok()?;
    outcome.next
}

// A proved loop has to end, and nothing says that the input does: no run makes so many turns.
pub fn run(rt: &(impl Input + Print)) {
    let mut input = rt.reader();
    let mut bytes = [0u8; PROGRAM_BODY + 1]; // the longest record, a kind and its body
    let mut buffers = Buffers::new();
    let mut stage = Stage::Start;
    for _ in 0..u64::MAX {
        let Some(next) = turn(rt, &mut input, stage, &mut bytes, &mut buffers) else {
            return;
        };
        stage = next;
    }
}
