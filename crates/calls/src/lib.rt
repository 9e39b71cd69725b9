// Which function meets which case of `Call`, the calls of document 01: one function for each case, whose contract cites the case.
#![tactic(auto)]

ghost use Rattle.answers.specs.Answers.{reply, open_reply, init_reply, tick_reply, order_reply, produce_reply, read_reply};
ghost use Rattle.answers.specs.Returned.{answer_of, init_answer_of, tick_answer_of, order_answer_of, produce_answer_of, read_answer_of};
ghost use Rattle.coordinator.specs.Calls.{init_call, add_call, end_call, tick_call, ack_call};
ghost use Rattle.coordinator.specs.Open.{opened_of};
ghost use Rattle.server.specs.Calls.{call, produce_call, marker_call};
ghost use Rattle.calls.specs.Meets.{OfCoordinator, OfFlush, OfOrder, OfOpening, OfOpenWords, OfPartition, OfMarker, OfRead};

use answers::{Copied, Initialized, OpenError, Order, Refusal};
use coordinator::Coordinator;
use partition::Partition;

// Opening of a log.
pub fn opening(
    text: &[u8],
    log: &[u8],
    n: usize,
    epoch: i32,
    first: i64,
    last: i64,
) -> Result<Coordinator, OpenError>
    ensures { OfOpening text.now n epoch first last log.now (open_reply (opened_of result).answer) (opened_of result).state }
{
    opening::opening(text, log, n, epoch, first, last)
}

// Opening of a partition.
pub fn open_partition(n: usize) -> Partition
    ensures { OfOpenWords n result }
{
    partition::open_partition(n)
}

// Init.
pub fn init(
    s: &mut Coordinator,
    log: &mut [u8],
    name: &[u8],
    timeout: i32,
    time: i64,
) -> Result<Initialized, Refusal>
    ensures { OfCoordinator (call (init_call name.now timeout time)) s.old log.old (init_reply (init_answer_of result)) s.new log.new }
{
    producer_ids::init(s, log, name, timeout, time)
}

// Add.
pub fn add(
    s: &mut Coordinator,
    log: &mut [u8],
    name: &[u8],
    pid: i64,
    epoch: i16,
    set: u64,
    time: i64,
) -> Result<(), Refusal>
    ensures { OfCoordinator (call (add_call name.now pid epoch set time)) s.old log.old (reply (answer_of result)) s.new log.new }
{
    transactions::add(s, log, name, pid, epoch, set, time)
}

// End.
pub fn end(
    s: &mut Coordinator,
    log: &mut [u8],
    name: &[u8],
    pid: i64,
    epoch: i16,
    verdict: u64,
    time: i64,
) -> Result<(), Refusal>
    ensures { OfCoordinator (call (end_call name.now pid epoch verdict time)) s.old log.old (reply (answer_of result)) s.new log.new }
{
    transactions::end(s, log, name, pid, epoch, verdict, time)
}

// Tick.
pub fn tick(s: &mut Coordinator, log: &mut [u8], time: i64) -> Result<Option<usize>, Refusal>
    ensures { OfCoordinator (call (tick_call time)) s.old log.old (tick_reply (tick_answer_of result)) s.new log.new }
{
    completion::tick(s, log, time)
}

// Flush.
pub fn flush(s: &mut Coordinator, length: usize) -> Result<(), Refusal>
    ensures { OfFlush length s.old (reply (answer_of result)) s.new }
{
    completion::flush(s, length)
}

// Order.
pub fn order(s: &Coordinator, up: u64) -> Option<Order>
    ensures { OfOrder up s.now (order_reply (order_answer_of result)) }
{
    completion::order(s, up)
}

// Ack.
pub fn ack(
    s: &mut Coordinator,
    log: &mut [u8],
    place: usize,
    pid: i64,
    epoch: i16,
    position: usize,
) -> Result<(), Refusal>
    ensures { OfCoordinator (call (ack_call place pid epoch position)) s.old log.old (reply (answer_of result)) s.new log.new }
{
    completion::ack(s, log, place, pid, epoch, position)
}

// Produce.
pub fn produce(
    s: &Coordinator,
    p: &mut Partition,
    words: &mut [u64],
    name: &[u8],
    pid: i64,
    epoch: i16,
    position: usize,
    sequence: i32,
    payload: u64,
) -> Result<usize, Refusal>
    ensures { OfPartition (produce_call name.now pid epoch position sequence payload) s.now p.old words.old (produce_reply (produce_answer_of result)) p.new words.new }
{
    server::produce(s, p, words, name, pid, epoch, position, sequence, payload)
}

// Marker.
pub fn marker(
    p: &mut Partition,
    words: &mut [u64],
    place: usize,
    pid: i64,
    epoch: i16,
    verdict: u64,
    coordinator: i32,
) -> Result<(), Refusal>
    ensures { OfMarker (marker_call place pid epoch verdict coordinator) p.old words.old (reply (answer_of result)) p.new words.new }
{
    partition::marker(p, words, place, pid, epoch, verdict, coordinator)
}

// Read.
pub fn read(p: &Partition, words: &[u64], from: usize, out: &mut [u64]) -> Result<Copied, Refusal>
    ensures { OfRead from p.now words.now out.old (read_reply (read_answer_of result)) out.new }
{
    committed_reader::read(p, words, from, out)
}
