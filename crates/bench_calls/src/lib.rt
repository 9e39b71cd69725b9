// What the benchmark of bench/ calls: functions for a program in Rust, on numbers and slices, that make the calls of document 01 many times.
#![tactic(auto)]

use bench_notes::WIDTH;
use record::{Record, Status};

// Makes the calls of a script and notes their answers.
#[unsafe(no_mangle)]
pub extern "C" fn bench_calls_run(
    text: &[u8],
    names: &[u8],
    script: &[u64],
    log: &mut [u8],
    words: &mut [u64],
    out: &mut [u64],
    notes: &mut [u64],
) -> u64 {
    let server = bench_script::run(text, names, script, log, words, out, notes);
    committed_reader::stable_end(&server.partition) as u64
}

// Makes the calls of a script, and then rounds of so many times a call, each from the state after the script on.
#[unsafe(no_mangle)]
pub extern "C" fn bench_calls_repeat(
    text: &[u8],
    names: &[u8],
    script: &[u64],
    call: &[u64],
    count: usize,
    rounds: usize,
    log: &mut [u8],
    words: &mut [u64],
) -> u64 {
    let mut out = [0u64; 1];
    let mut notes = [0u64; 1];
    let server = bench_script::run(text, names, script, log, words, &mut out, &mut notes);
    let one = call
        .first_chunk::<WIDTH>()
        .and_then(|numbers| bench_notes::call_of(*numbers));
    match one {
        Some(call) => bench_repeat::repeat(&server, call, count, rounds, names, log, words),
        None => 0,
    }
}

// Opens a log so many times.
#[unsafe(no_mangle)]
pub extern "C" fn bench_calls_open(text: &[u8], log: &[u8], length: usize, rounds: usize) -> u64 {
    let mut sum: u64 = 0;
    for _ in 0..rounds {
        if let Ok(state) = calls::opening(text, log, length, 1, 0, 1000) {
            sum = sum
                .wrapping_add(state.clock)
                .wrapping_add(state.table.end as u64);
        }
    }
    sum
}

// Writes the frame of a record so many times, with a last update that rises, and answers the sum of their ends.
#[unsafe(no_mangle)]
pub extern "C" fn bench_calls_encode(
    text: &[u8],
    name: &[u8],
    set: u64,
    rounds: usize,
    out: &mut [u8],
) -> u64 {
    let c = catalogue::parse(text).unwrap_or(catalogue::blank());
    let own = record::padded_name(name);
    let mut sum: u64 = 0;
    for k in 0..rounds {
        let r = Record {
            name: own,
            pid: 1000,
            epoch: 3,
            timeout: 60000,
            status: Status::Begin,
            joined: set,
            updated: numbers::to_signed::<i64>(k as u64),
            start: 100,
        };
        if let Some(end) = encode::encode(c, r, out, 0) {
            sum = sum.wrapping_add(end as u64);
        }
    }
    sum
}

// Reads a partition that has so many entries and no open transaction so many times, from its first offset on.
#[unsafe(no_mangle)]
pub extern "C" fn bench_calls_read(
    words: &[u64],
    entries: usize,
    rounds: usize,
    out: &mut [u64],
) -> u64 {
    let mut p = calls::open_partition(words.len());
    p.end = entries;
    bench_sums::sum_of(rounds, |_| {
        bench_answers::answered(calls::read(&p, words, 0, out))
    })
}
