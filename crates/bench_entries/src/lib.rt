// Produce and Marker made many times, from a given state on, with the names, pids and places of all ids in turn. Each function answers a sum of what was answered.
#![tactic(auto)]

use bench_answers::answered;
use bench_server::{Call, signed};
use bench_sums::{name_at, plus, signed_plus, sum_of};
use coordinator::Coordinator;
use partition::Partition;

// Produce of one name after the other.
pub fn produce(
    c: &Coordinator,
    mut p: Partition,
    call: Call,
    count: usize,
    names: &[u8],
    words: &mut [u64],
) -> u64 {
    let [pid, epoch, position, sequence, payload] = call.arguments;
    let epoch = signed(epoch);
    let position = position as usize;
    let sequence = signed(sequence);
    let sum = sum_of(count, |i| {
        let k = i % answers::PLACES;
        let name = name_at(names, k, call.to);
        let pid = signed_plus(pid, k);
        answered(calls::produce(
            c, &mut p, words, name, pid, epoch, position, sequence, payload,
        ))
    });
    bench_sums::with_partition(sum, &p)
}

// Marker of one place after the other.
pub fn marker(mut p: Partition, call: Call, count: usize, words: &mut [u64]) -> u64 {
    let [place, pid, epoch, verdict, leader] = call.arguments;
    let epoch = signed(epoch);
    let leader = signed(leader);
    let sum = sum_of(count, |i| {
        let k = i % answers::PLACES;
        let place = plus(place, k);
        let pid = signed_plus(pid, k);
        answered(calls::marker(&mut p, words, place, pid, epoch, verdict, leader))
    });
    bench_sums::with_partition(sum, &p)
}
