// The answer of the program `rigrace` to a line: parsed, searched and written.
#![tactic(auto)]

ghost use Rattle.std.specs.Prelude.{◌≡◌, ◌+◌, ◌≤◌, length, IfSome};
ghost use Rattle.text.specs.Lines.{Wrote, fields as fields_written};
ghost use Rattle.race.specs.Results.{answer_of};
ghost use Rattle.race_lines.specs.Limits.{answer_fields_max, answer_max};
ghost use Rattle.race_lines.specs.Lines.{board_of, request_of, answer_fields, answer_line, written, bytes_after};

use fields::Fields;
use race::{Board, InvalidBoard};

// The limit of specs/Limits.antt, under the same name.
pub const ANSWER_MAX: usize = 9;

// The four numbers behind the word.
fn board_of(fields: &Fields) -> Option<Board>
    ensures { result ≡ board_of fields.now.line.now }
{
    Some(Board {
        partitions: fields.unsigned_64(1)?,
        timeout: fields.unsigned_64(2)?,
        rounds: fields.unsigned_64(3)?,
        blocks: fields.unsigned_64(4)?,
    })
}

// The board whose winner a line of any bytes asks for, or `None` where it asks nothing that this program knows.
pub fn parse(line: &[u8]) -> Option<Board>
    ensures { result ≡ request_of line.now }
{
    let fields = fields::split(line);
    if !fields.has_exactly(5) {
        return None;
    }
    if fields.field(0) != b"race".as_slice() {
        return None;
    }
    board_of(&fields)
}

// Writes the fields of an answer.
fn write_answer(answer: Result<bool, InvalidBoard>, out: &mut [u8], at: usize) -> usize
    requires { at + answer_fields_max ≤ length out.old }
    ensures { Wrote (fields_written (answer_fields (answer_of answer))) out.old at result out.new × (result ≤ at + answer_fields_max) }
{
    match answer {
        Ok(true) => text::write_bytes(out, at, b"\t0\t1"),
        Ok(false) => text::write_bytes(out, at, b"\t0\t0"),
        Err(refusal) => text::write_field(out, at, u64::from(u8::from(refusal))),
    }
}

// Writes the line that answers a request; the result is its length.
fn write_line(request: Option<Board>, out: &mut [u8]) -> usize
    requires { answer_max ≤ length out.old }
    ensures { Wrote (answer_line request) out.old 0 result out.new × (result ≤ answer_max) }
{
    match request {
        Some(board) => {
            let next = text::write_bytes(out, 0, b"race");
            let next = write_answer(race::race(board), out, next);
            text::write_bytes(out, next, b"\n")
        }
        None => text::write_bytes(out, 0, b"?\t-\n"),
    }
}

// Writes the answer to a line of any bytes, and says how many bytes it has. `None`, with nothing written, where the buffer is too short for some answers.
pub fn respond(line: &[u8], out: &mut [u8]) -> Option<usize>
    ensures answer { result ≡ written line.now out.old }
    ensures bytes { out.new ≡ bytes_after line.now out.old }
    ensures within { IfSome result (λ n. n ≤ length out.old) }
{
    if out.len() < ANSWER_MAX {
        return None;
    }
    Some(write_line(parse(line), out))
}
