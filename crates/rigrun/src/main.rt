// The program of document 01's listing: command lines in, answer lines out.
#![tactic(auto)]

use input_lines::Step;
use session::Session;
use std::io;
use std::io::Read;

// "log 8,192 bytes; … 64 entries each": four words an entry, for three partitions.
const LOG_ROOM: usize = 8192;

const WORDS_ROOM: usize = 768;

// A read of a partition has at most as many payloads as it has entries.
const PAYLOADS: usize = 64;

// A longer line is no command.
const LINE_ROOM: usize = 65536;

const OUT_ROOM: usize = 2048;

// What the lines are performed on: the session, and the buffers lent to it.
#[derive(Drop)]
struct Memory {
    session: Session,
    log: [u8; LOG_ROOM],
    words: [u64; WORDS_ROOM],
    payloads: [u64; PAYLOADS],
}

impl Memory {
    // Of a session over an empty log.
    fn opened() -> Memory {
        let log = [0u8; LOG_ROOM];
        let words = [0u64; WORDS_ROOM];
        Memory {
            session: session::opened(&log, &words),
            log,
            words,
            payloads: [0u64; PAYLOADS],
        }
    }

    // Answers a line.
    fn answer(&mut self, rt: &impl Print, line: &[u8]) -> io::Result<()> {
        let mut out = [0u8; OUT_ROOM];
        let written = replies::respond(
            &mut self.session,
            line,
            &mut self.log,
            &mut self.words,
            &mut self.payloads,
            &mut out,
        );
        rt.write_all(&out[..written])
    }

    // Answers what was read. A line that did not fit the buffer is answered as the line `?`: it is no command.
    fn answer_step(&mut self, rt: &impl Print, buffer: &[u8], step: Step) -> io::Result<()> {
        match step {
            Step::Line { from, len, .. } => self.answer(rt, input_lines::part(buffer, from, len)),
            Step::Long { .. } => self.answer(rt, b"?"),
            _ => Ok(()),
        }
    }
}

// Reads and answers until there is no more.
fn run(rt: &impl Print, input: &mut impl Read, buffer: &mut [u8]) -> io::Result<()> {
    let mut memory = Memory::opened();
    let mut cursor = input_lines::start();
    for _ in 0..u64::MAX {
        let step = input_lines::next(input, buffer, cursor)?;
        if input_lines::is_end(step) {
            break;
        }
        memory.answer_step(rt, buffer, step)?;
        cursor = input_lines::behind(step);
    }
    Ok(())
}

fn main(rt: HostRuntime) -> io::Result<()> {
    let mut input = rt.stdin();
    let mut buffer = [0u8; LINE_ROOM];
    run(&rt, &mut input, &mut buffer)
}
