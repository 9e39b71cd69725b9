// What calls made many times have in common: sums of their answers, and names and numbers in turn.
#![tactic(auto)]

ghost use Rattle.std.specs.Prelude.{◌≤◌};

use bench_answers::Outcome;
use coordinator::Coordinator;
use partition::Partition;

// The bytes from one name to the next.
const NAME_STRIDE: usize = record::NAME_MAX;

// A sum of answers with one more.
pub fn with_outcome(sum: u64, outcome: Outcome) -> u64 {
    let [first, second, _, _, _, _] = outcome.results;
    sum.wrapping_add(outcome.number)
        .wrapping_add(first)
        .wrapping_add(second)
}

// The sum of the answers of a call that is made so many times, each time with the number of calls before it. Only for callers whose call may be made at any time.
pub fn sum_of<F: FnMut(usize) -> Outcome>(count: usize, mut make: F) -> u64
    requires { F.IsAlwaysCallable make }
{
    let mut sum: u64 = 0;
    for i in 0..count {
        sum = with_outcome(sum, make(i));
    }
    sum
}

// The sum with what the state after all calls would order, so that its rows are used.
pub fn with_coordinator(sum: u64, c: &Coordinator) -> u64 {
    let end = sum.wrapping_add(c.table.end as u64);
    with_outcome(end, bench_answers::accepted(calls::order(c, u64::MAX)))
}

// The sum with the stable end of the state after all calls, so that its producers are used.
pub fn with_partition(sum: u64, p: &Partition) -> u64 {
    sum.wrapping_add(committed_reader::stable_end(p) as u64)
}

// A number of a call that is higher by an index.
pub fn plus(x: u64, i: usize) -> usize {
    x.wrapping_add(i as u64) as usize
}

// A signed number of a call that is higher by an index.
pub fn signed_plus(x: u64, i: usize) -> i64 {
    bench_server::signed(x.wrapping_add(i as u64))
}

// Where the name at an index starts, among names of so many bytes.
fn name_start(n: usize, i: usize) -> usize
    ensures { result ≤ n }
{
    if i < n / NAME_STRIDE {
        return NAME_STRIDE * i;
    }
    0
}

// The name at an index.
pub fn name_at(names: &[u8], i: usize, length: usize) -> &[u8] {
    let rest = &names[name_start(names.len(), i)..];
    &rest[..length.min(rest.len())]
}
