// The program of request 14 of document 02: lines `race N T R B` in, answer lines out.
#![tactic(auto)]

use input_lines::Step;
use std::io;

// A longer line is no request.
const LINE_ROOM: usize = 65536;

// Answers a line.
fn answer(rt: &impl Print, line: &[u8]) -> io::Result<()> {
    let mut out = [0u8; race_lines::ANSWER_MAX];
    let written = race_lines::respond(line, &mut out).unwrap_or(0);
    rt.write_all(&out[..written])
}

// Answers what was read. A line that did not fit the buffer is answered as the line `?`: it is no request.
fn answer_step(rt: &impl Print, buffer: &[u8], step: Step) -> io::Result<()> {
    match step {
        Step::Line { from, len, rest: _ } => answer(rt, input_lines::part(buffer, from, len)),
        Step::Long { rest: _ } => answer(rt, b"?"),
        _ => Ok(()),
    }
}

fn main(rt: HostRuntime) -> io::Result<()> {
    let mut input = rt.stdin();
    let mut buffer = [0u8; LINE_ROOM];
    let mut cursor = input_lines::start();
    for _ in 0..u64::MAX {
        let step = input_lines::next(&mut input, &mut buffer, cursor)?;
        if input_lines::is_end(step) {
            break;
        }
        answer_step(&rt, &buffer, step)?;
        cursor = input_lines::behind(step);
    }
    Ok(())
}
