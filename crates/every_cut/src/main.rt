// A program that runs a script of command lines and then cuts its log at every byte from the flushed length to the end: a line for each length with what is read once all is carried, and how many outcomes there were.
#![tactic(auto)]

ghost use Rattle.std.specs.Prelude.{◌≡◌};
ghost use Rattle.session.specs.Memory.{memory};
ghost use Rattle.after_cut.specs.AfterCut.{outcome_at};

use session::Session;
use std::io;

// The buffers are those of the program `rigrun`.
const LOG_ROOM: usize = 8192;

const WORDS_ROOM: usize = 768;

const PAYLOADS: usize = 64;

// A longer line is no command.
const LINE_ROOM: usize = 65536;

// There is at most one outcome for each length from 0 to LOG_ROOM.
const OUTCOMES_ROOM: usize = LOG_ROOM + 1;

// What the script leaves: the session, and the buffers lent to it.
#[derive(Clone, Copy)]
struct Memory {
    session: Session,
    log: [u8; LOG_ROOM],
    words: [u64; WORDS_ROOM],
    payloads: [u64; PAYLOADS],
}

// Cuts a copy of the log at a length, prints what can be read once all is carried, and answers the outcome, and whether it was printed.
// The outcome is promised also where printing failed, so it stands beside the Result.
fn try_cut(rt: &impl Print, m: &Memory, length: usize) -> (u64, io::Result<()>)
    ensures { result.0 ≡ outcome_at length (memory m.now.session m.now.log m.now.words m.now.payloads) }
{
    let mut copy = *m;
    after_cut::after_cut(
        &mut copy.session,
        length,
        &mut copy.log,
        &mut copy.words,
        &mut copy.payloads,
    );
    let outcome = after_cut::outcome(&m.session.coordinator, &copy.session.coordinator);
    let printed = cut_lines::print_line(
        rt,
        &mut copy.session,
        length,
        &mut copy.log,
        &mut copy.words,
        &mut copy.payloads,
    );
    (outcome, printed)
}

// Tries every length from the flushed one to the end.
fn try_all(rt: &impl Print, memory: &Memory) -> io::Result<()> {
    let flushed = memory.session.coordinator.flushed;
    let end = memory.session.coordinator.table.end.min(LOG_ROOM);
    let mut seen = [0u64; OUTCOMES_ROOM];
    let mut outcomes: usize = 0;
    for length in flushed..=end {
        let (outcome, printed) = try_cut(rt, memory, length);
        printed?;
        outcomes = cut_outcomes::note(&mut seen, outcomes, outcome);
    }
    let lengths = (end + 1).saturating_sub(flushed);
    cut_lines::print_counts(rt, lengths, outcomes)
}

fn main(rt: HostRuntime) -> io::Result<()> {
    let mut input = rt.stdin();
    let mut log = [0u8; LOG_ROOM];
    let mut words = [0u64; WORDS_ROOM];
    let mut payloads = [0u64; PAYLOADS];
    let mut buffer = [0u8; LINE_ROOM];
    let session = script_session::run_script(
        &mut input,
        &mut buffer,
        &mut log,
        &mut words,
        &mut payloads,
    )?;
    let memory = Memory {
        session,
        log,
        words,
        payloads,
    };
    try_all(&rt, &memory)
}
