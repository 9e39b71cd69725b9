// The lines with a call of a partition. Each is lent the words that its line says, and answers the partition's state after it.
#![tactic(auto)]

use call_lines::{Kind, field, number_of_64_bits};
use coordinator::Coordinator;
use partition::Partition;
use std::io;

// What the words of out hold before a read.
const UNTOUCHED: u64 = 7777;

const OUT_ROOM: usize = 64;

// `produce INDEX LENT NAME PID EPOCH POSITION SEQUENCE PAYLOAD`
fn produce(
    rt: &impl Print,
    c: &Coordinator,
    p: &mut Partition,
    line: &[u8],
    words: &mut [u64],
) -> io::Result<()> {
    let answer = calls::produce(
        c,
        p,
        words,
        field(line, 3),
        number_of_64_bits(line, 4),
        number_of_64_bits(line, 5),
        number_of_64_bits(line, 6),
        number_of_64_bits(line, 7),
        number_of_64_bits(line, 8),
    );
    call_answers::answered(rt, answer)
}

// `marker INDEX LENT PLACE PID EPOCH VERDICT COORDINATOR`
fn marker(rt: &impl Print, p: &mut Partition, line: &[u8], words: &mut [u64]) -> io::Result<()> {
    let answer = calls::marker(
        p,
        words,
        number_of_64_bits(line, 3),
        number_of_64_bits(line, 4),
        number_of_64_bits(line, 5),
        number_of_64_bits(line, 6),
        number_of_64_bits(line, 7),
    );
    call_answers::answered(rt, answer)
}

// `partition INDEX LENT`
fn open(rt: &impl Print, p: &mut Partition, words: &[u64]) -> io::Result<()> {
    *p = calls::open_partition(words.len());
    call_answers::accepted(rt, ())
}

// Performs a line with a call that changes the partition, on these of its words, and writes its answer.
pub fn perform(
    rt: &impl Print,
    c: &Coordinator,
    p: &mut Partition,
    kind: Kind,
    line: &[u8],
    words: &mut [u64],
) -> io::Result<()> {
    call_answers::word(rt, line)?;
    // The word of an input line says which call it is, so no caller has a step to give.
    match kind {
        Kind::Produce => produce(rt, c, p, line, words),
        Kind::Marker => marker(rt, p, line, words),
        _ => open(rt, p, words),
    }?;
    call_answers::partition(rt, p)?;
    call_answers::end_line(rt)
}

// `read INDEX LENT FROM ROOM`: performs a read and writes its answer and all words of out, so that those that it does not touch are seen.
pub fn read(rt: &impl Print, p: &Partition, line: &[u8], words: &[u64]) -> io::Result<()> {
    let mut all = [UNTOUCHED; OUT_ROOM];
    let Some(out) = all.get_mut(..number_of_64_bits(line, 4)) else {
        return call_answers::unknown(rt);
    };
    call_answers::word(rt, line)?;
    call_answers::answered(rt, calls::read(p, words, number_of_64_bits(line, 3), out))?;
    call_answers::partition(rt, p)?;
    call_answers::words(rt, out)?;
    call_answers::end_line(rt)
}
