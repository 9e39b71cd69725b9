// A session after a script of command lines, which is read from an input; no answers are printed.
#![tactic(auto)]

use input_lines::Step;
use session::Session;
use std::io;
use std::io::Read;

// Performs what was read; a line that did not fit the buffer is no command. The buffers stand apart here and below, as `session_commands::perform` is lent them.
fn perform_step(
    s: &mut Session,
    buffer: &[u8],
    step: Step,
    log: &mut [u8],
    words: &mut [u64],
    payloads: &mut [u64],
) {
    if let Step::Line { from, len, .. } = step {
        let line = input_lines::part(buffer, from, len);
        let command = command::parse(line);
        let _ = session_commands::perform(s, command, line, log, words, payloads);
    }
}

// Reads and performs until there is no more.
pub fn run_script(
    input: &mut impl Read,
    buffer: &mut [u8],
    log: &mut [u8],
    words: &mut [u64],
    payloads: &mut [u64],
) -> io::Result<Session> {
    let mut session = session::opened(log, words);
    let mut cursor = input_lines::start();
    for _ in 0..u64::MAX {
        let step = input_lines::next(input, buffer, cursor)?;
        if input_lines::is_end(step) {
            break;
        }
        perform_step(&mut session, buffer, step, log, words, payloads);
        cursor = input_lines::behind(step);
    }
    Ok(session)
}
