// The commands of a session: `put` and `read` at its partitions, `left` for a display, and all commands as one function.
#![tactic(auto)]

ghost use Rattle.std.specs.Prelude.{List, [], ◌∷◌, ℕ, pos};
ghost use Rattle.answers.specs.Answers.{accepted};
ghost use Rattle.coordinator.specs.Left.{left};
ghost use Rattle.server.specs.Calls.{produce_call};
ghost use Rattle.session.specs.Memory.{memory, index_of};
ghost use Rattle.session.specs.Commands.{called, stays, reads, performed, Performs, PerformsOnLog, PerformsOnWords};

use answers::{OpenError, Refusal};
use command::Command;
use session::{Response, Results, Session};

// `put NAME PID EPOCH POSITION SEQUENCE PAYLOAD`, at the partition of the position.
fn put(
    s: &mut Session,
    words: &mut [u64],
    name: &[u8],
    pid: i64,
    epoch: i16,
    position: usize,
    sequence: i32,
    payload: u64,
) -> Response
    ensures { PerformsOnWords (called (produce_call name.now pid epoch position sequence payload) (index_of position)) s.old words.old result s.new words.new }
{
    let index = session::index_of(position);
    let start = session::words_start(words.len(), index);
    let past = start + words.len() / session::PARTITIONS;
    let partition = &mut s.partitions[index];
    let offset = server::produce(
        &s.coordinator,
        partition,
        &mut words[start..past],
        name,
        pid,
        epoch,
        position,
        sequence,
        payload,
    )?;
    Ok(Results::Offset(offset))
}

// `read POSITION`, from offset 0.
fn read(s: &Session, words: &[u64], payloads: &mut [u64], position: usize) -> Response
    ensures { (log : List ℕ) → Performs (reads position (memory s.now log words.now payloads.old)) result s.now log words.now payloads.new }
{
    if !bits::member(s.coordinator.catalogue.all, position) {
        return Err(OpenError::Refused(Refusal::InvalidSet));
    }
    let index = session::index_of(position);
    let start = session::words_start(words.len(), index);
    let past = start + words.len() / session::PARTITIONS;
    let copied = committed_reader::read(&s.partitions[index], &words[start..past], 0, payloads)?;
    Ok(Results::Payloads(copied.count))
}

// ---- All of them. Log, words and payloads are lent apart: the definitions of the commands take a memory of these four.

// A command of a line: what it answers, and what it does to the session and the buffers. `left PLACE` answers how many partitions of the place's prepare are not acknowledged.
pub fn perform(
    s: &mut Session,
    command: Command,
    line: &[u8],
    log: &mut [u8],
    words: &mut [u64],
    payloads: &mut [u64],
) -> Response
    ensures { Performs (performed command line.now (memory s.old log.old words.old payloads.old)) result s.new log.new words.new payloads.new }
{
    match command {
        Command::Put {
            name,
            pid,
            epoch,
            position,
            sequence,
            payload,
        } => {
            let name = fields::bytes_of(line, name);
            let position = position as usize;
            put(s, words, name, pid, epoch, position, sequence, payload)
        }
        Command::Carry { up } => carry_command::carry(s, log, words, up),
        Command::Read { position } => read(s, words, payloads, position as usize),
        Command::Left { place } => {
            Ok(Results::Left(completion::left(&s.coordinator, place as usize)))
        }
        _ => log_commands::on_log(s, command, line, log),
    }
}
