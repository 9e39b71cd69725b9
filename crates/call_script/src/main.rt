// A program that makes the calls of a script, one for each line, on slices of its stores, and writes their answers; tools/calls.py says how a line is written.
#![tactic(auto)]

use input_lines::Step;
use script_state::State;
use std::io;

// A longer line is none.
const LINE_ROOM: usize = 32768;

// Performs what was read.
fn perform_step(rt: &impl Print, state: &mut State, buffer: &[u8], step: Step) -> io::Result<()> {
    match step {
        Step::Line { from, len, rest: _ } => {
            state.perform(rt, input_lines::part(buffer, from, len))
        }
        Step::Long { rest: _ } => call_answers::unknown(rt),
        _ => Ok(()),
    }
}

// Reads and performs until there is no more.
fn main(rt: HostRuntime) -> io::Result<()> {
    let mut input = rt.stdin();
    let mut buffer = [0u8; LINE_ROOM];
    let mut state = State::opened();
    let mut cursor = input_lines::start();
    for _ in 0..u64::MAX {
        let step = input_lines::next(&mut input, &mut buffer, cursor)?;
        if input_lines::is_end(step) {
            break;
        }
        perform_step(&rt, &mut state, &buffer, step)?;
        cursor = input_lines::behind(step);
    }
    Ok(())
}
