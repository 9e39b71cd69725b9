// One call made many times, from a given state on: with the names, pids and places of all ids in turn, or with times and lengths that rise by one. Each function answers a sum of what was answered.
#![tactic(auto)]

use bench_answers::{accepted, answered};
use bench_server::{Call, Kind, Server, signed};
use bench_sums::{name_at, plus, signed_plus, sum_of, with_coordinator};
use coordinator::Coordinator;

// Init of one name after the other.
fn init(mut s: Coordinator, call: Call, count: usize, names: &[u8], log: &mut [u8]) -> u64 {
    let [timeout, time, _, _, _] = call.arguments;
    let timeout = signed(timeout);
    let time = signed(time);
    let sum = sum_of(count, |i| {
        let name = name_at(names, i % answers::PLACES, call.to);
        answered(calls::init(&mut s, log, name, timeout, time))
    });
    with_coordinator(sum, &s)
}

// Add of one name after the other.
fn add(mut s: Coordinator, call: Call, count: usize, names: &[u8], log: &mut [u8]) -> u64 {
    let [pid, epoch, set, time, _] = call.arguments;
    let epoch = signed(epoch);
    let time = signed(time);
    let sum = sum_of(count, |i| {
        let k = i % answers::PLACES;
        let name = name_at(names, k, call.to);
        let pid = signed_plus(pid, k);
        answered(calls::add(&mut s, log, name, pid, epoch, set, time))
    });
    with_coordinator(sum, &s)
}

// End of one name after the other.
fn end(mut s: Coordinator, call: Call, count: usize, names: &[u8], log: &mut [u8]) -> u64 {
    let [pid, epoch, verdict, time, _] = call.arguments;
    let epoch = signed(epoch);
    let time = signed(time);
    let sum = sum_of(count, |i| {
        let k = i % answers::PLACES;
        let name = name_at(names, k, call.to);
        let pid = signed_plus(pid, k);
        answered(calls::end(&mut s, log, name, pid, epoch, verdict, time))
    });
    with_coordinator(sum, &s)
}

// Tick with a time that goes on.
fn tick(mut s: Coordinator, call: Call, count: usize, log: &mut [u8]) -> u64 {
    let [time, _, _, _, _] = call.arguments;
    let sum = sum_of(count, |i| {
        answered(calls::tick(&mut s, log, signed_plus(time, i)))
    });
    with_coordinator(sum, &s)
}

// Flush of one byte more each time.
fn flush(mut s: Coordinator, call: Call, count: usize) -> u64 {
    let [length, _, _, _, _] = call.arguments;
    let sum = sum_of(count, |i| answered(calls::flush(&mut s, plus(length, i))));
    with_coordinator(sum, &s)
}

// Order, with sets that differ outside the catalogue.
fn order(s: &Coordinator, call: Call, count: usize) -> u64 {
    let [mut up, _, _, _, _] = call.arguments;
    let sum = sum_of(count, |_| {
        let order = calls::order(s, up);
        up = up.wrapping_add(65536);
        accepted(order)
    });
    with_coordinator(sum, s)
}

// Ack of one place after the other.
fn ack(mut s: Coordinator, call: Call, count: usize, log: &mut [u8]) -> u64 {
    let [place, pid, epoch, position, _] = call.arguments;
    let epoch = signed(epoch);
    let position = position as usize;
    let sum = sum_of(count, |i| {
        let k = i % answers::PLACES;
        let place = plus(place, k);
        let pid = signed_plus(pid, k);
        answered(calls::ack(&mut s, log, place, pid, epoch, position))
    });
    with_coordinator(sum, &s)
}

// The calls of one round; none of a kind that is not repeated. The kind is read from the script, so no caller has a step to give.
fn round(
    server: &Server,
    call: Call,
    count: usize,
    names: &[u8],
    log: &mut [u8],
    words: &mut [u64],
) -> u64 {
    let c = &server.coordinator;
    match call.kind {
        Kind::Init => init(*c, call, count, names, log),
        Kind::Add => add(*c, call, count, names, log),
        Kind::End => end(*c, call, count, names, log),
        Kind::Tick => tick(*c, call, count, log),
        Kind::Flush => flush(*c, call, count),
        Kind::Order => order(c, call, count),
        Kind::Ack => ack(*c, call, count, log),
        Kind::Produce => bench_entries::produce(c, server.partition, call, count, names, words),
        Kind::Marker => bench_entries::marker(server.partition, call, count, words),
        Kind::Open | Kind::OpenPartition | Kind::Read | Kind::Held => 0,
    }
}

// Rounds of so many calls, each from the same state on.
pub fn repeat(
    server: &Server,
    call: Call,
    count: usize,
    rounds: usize,
    names: &[u8],
    log: &mut [u8],
    words: &mut [u64],
) -> u64 {
    let mut sum: u64 = 0;
    for _ in 0..rounds {
        sum = sum.wrapping_add(round(server, call, count, names, log, words));
    }
    sum
}
