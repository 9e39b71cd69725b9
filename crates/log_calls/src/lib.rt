// The lines with a call of the coordinator. Each is lent the bytes that its line says, and answers the coordinator's state after it.
#![tactic(auto)]

use call_answers::{accepted, answered};
use call_lines::{Kind, field, number_of_64_bits};
use coordinator::Coordinator;
use std::io;

// `open LENT LENGTH EPOCH FIRST LAST`. A refused opening changes nothing.
fn open(
    rt: &impl Print,
    c: &mut Coordinator,
    line: &[u8],
    text: &[u8],
    log: &[u8],
) -> io::Result<()> {
    let opened = calls::opening(
        text,
        log,
        number_of_64_bits(line, 2),
        number_of_64_bits(line, 3),
        number_of_64_bits(line, 4),
        number_of_64_bits(line, 5),
    );
    match opened {
        Ok(state) => {
            *c = state;
            accepted(rt, ())
        }
        Err(error) => call_answers::not_opened(rt, error),
    }
}

// `init LENT NAME TIMEOUT TIME`
fn init(rt: &impl Print, c: &mut Coordinator, line: &[u8], log: &mut [u8]) -> io::Result<()> {
    let name = field(line, 2);
    answered(
        rt,
        calls::init(
            c,
            log,
            name,
            number_of_64_bits(line, 3),
            number_of_64_bits(line, 4),
        ),
    )
}

// `add LENT NAME PID EPOCH SET TIME`
fn add(rt: &impl Print, c: &mut Coordinator, line: &[u8], log: &mut [u8]) -> io::Result<()> {
    let answer = calls::add(
        c,
        log,
        field(line, 2),
        number_of_64_bits(line, 3),
        number_of_64_bits(line, 4),
        number_of_64_bits(line, 5),
        number_of_64_bits(line, 6),
    );
    answered(rt, answer)
}

// `end LENT NAME PID EPOCH VERDICT TIME`
fn end(rt: &impl Print, c: &mut Coordinator, line: &[u8], log: &mut [u8]) -> io::Result<()> {
    let answer = calls::end(
        c,
        log,
        field(line, 2),
        number_of_64_bits(line, 3),
        number_of_64_bits(line, 4),
        number_of_64_bits(line, 5),
        number_of_64_bits(line, 6),
    );
    answered(rt, answer)
}

// `ack LENT PLACE PID EPOCH POSITION`
fn ack(rt: &impl Print, c: &mut Coordinator, line: &[u8], log: &mut [u8]) -> io::Result<()> {
    let answer = calls::ack(
        c,
        log,
        number_of_64_bits(line, 2),
        number_of_64_bits(line, 3),
        number_of_64_bits(line, 4),
        number_of_64_bits(line, 5),
    );
    answered(rt, answer)
}

// A line that is lent these bytes of the log. `tick LENT TIME`, `flush LENGTH` and `order SET` stand here as they are.
fn lent(
    rt: &impl Print,
    c: &mut Coordinator,
    kind: Kind,
    line: &[u8],
    text: &[u8],
    log: &mut [u8],
) -> io::Result<()> {
    // The word of an input line says which call it is, so no caller has a step to give.
    match kind {
        Kind::Open => open(rt, c, line, text, log),
        Kind::Init => init(rt, c, line, log),
        Kind::Add => add(rt, c, line, log),
        Kind::End => end(rt, c, line, log),
        Kind::Tick => answered(rt, calls::tick(c, log, number_of_64_bits(line, 2))),
        Kind::Ack => ack(rt, c, line, log),
        Kind::Flush => answered(rt, calls::flush(c, number_of_64_bits(line, 1))),
        Kind::Order => accepted(rt, calls::order(c, number_of_64_bits(line, 1))),
        _ => Ok(()),
    }
}

// How many bytes a line is lent: flush and order are lent none.
fn lent_length(kind: Kind, line: &[u8]) -> usize {
    match kind {
        Kind::Flush | Kind::Order => 0,
        _ => number_of_64_bits(line, 1),
    }
}

// Performs a line with a call of the coordinator and writes its answer.
pub fn perform(
    rt: &impl Print,
    c: &mut Coordinator,
    kind: Kind,
    line: &[u8],
    text: &[u8],
    log: &mut [u8],
) -> io::Result<()> {
    let Some(log) = log.get_mut(..lent_length(kind, line)) else {
        return call_answers::unknown(rt);
    };
    call_answers::word(rt, line)?;
    lent(rt, c, kind, line, text, log)?;
    call_answers::coordinator(rt, c)
}
