// The numbers of a script's calls, and those that are noted of their answers.
#![tactic(auto)]

use bench_answers::Outcome;
use bench_server::{Call, Server};

// The numbers of a call in a script, of which the last two are not used, and those that are noted of its answer.
pub const WIDTH: usize = 12;

// The call that these numbers say, if its kind is one.
pub fn call_of(n: [u64; WIDTH]) -> Option<Call> {
    let [
        kind,
        bytes,
        words,
        from,
        to,
        first,
        second,
        third,
        fourth,
        fifth,
        _,
        _,
    ] = n;
    Some(Call {
        kind: bench_server::kind_of(kind)?,
        bytes: bytes as usize,
        words: words as usize,
        from: from as usize,
        to: to as usize,
        arguments: [first, second, third, fourth, fifth],
    })
}

// What is noted of a call: its answer, and what the state then holds.
pub fn noted(outcome: Outcome, server: &Server) -> [u64; WIDTH] {
    let [first, second, third, fourth, fifth, sixth] = outcome.results;
    let c = &server.coordinator;
    let p = &server.partition;
    [
        outcome.number,
        first,
        second,
        third,
        fourth,
        fifth,
        sixth,
        c.table.end as u64,
        c.flushed as u64,
        c.clock,
        p.end as u64,
        p.coordinator as u64,
    ]
}

// Writes numbers from a place on, if there is room.
pub fn write_note(notes: &mut [u64], at: usize, note: [u64; WIDTH]) {
    if let Some(place) = notes
        .get_mut(at..)
        .and_then(|rest| rest.first_chunk_mut::<WIDTH>())
    {
        *place = note;
    }
}
