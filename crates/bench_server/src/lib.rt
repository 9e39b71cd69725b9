// The calls of document 01 with their arguments as numbers, each made on a coordinator and one partition.
#![tactic(auto)]

use bench_answers::{Outcome, accepted, answered};
use coordinator::Coordinator;
use numbers::Integer;
use partition::Partition;
use std::ops::Not;

// The sign of a number of 64 bits.
const SIGN: u64 = 1u64 << 63;

// The kinds of calls, in the order of their numbers in a script. `Held` shows what is held at a place.
#[derive(Clone, Copy, Debug, PartialEq, Eq)]
pub enum Kind {
    Open,
    OpenPartition,
    Init,
    Add,
    End,
    Tick,
    Flush,
    Order,
    Ack,
    Produce,
    Marker,
    Read,
    Held,
}

const KINDS: [Kind; 13] = [
    Kind::Open,
    Kind::OpenPartition,
    Kind::Init,
    Kind::Add,
    Kind::End,
    Kind::Tick,
    Kind::Flush,
    Kind::Order,
    Kind::Ack,
    Kind::Produce,
    Kind::Marker,
    Kind::Read,
    Kind::Held,
];

// The kind of a number, if it is that of one.
pub fn kind_of(number: u64) -> Option<Kind> {
    KINDS.get(number as usize).copied()
}

// The kind of no call, and the number of the answer to one that cannot be made.
pub const UNKNOWN: u64 = 99;

// A call: its kind, the bytes of the log and the words that it is lent, the part of the names that is its name, and its arguments in document 01's order.
#[derive(Clone, Copy)]
pub struct Call {
    pub kind: Kind,
    pub bytes: usize,
    pub words: usize,
    pub from: usize,
    pub to: usize,
    pub arguments: [u64; 5],
}

// A number of a script, which is two's complement, as a signed one of a width; where it does not fit, the nearest. Only for callers whose integer has `!` at every value, as each signed one has.
pub fn signed<T: Integer + Not<Output = T>>(x: u64) -> T
    requires { (y : T) → T.can_not y }
{
    if x < SIGN {
        return numbers::to_signed::<T>(x);
    }
    !numbers::to_signed::<T>(!x)
}

// A coordinator and one partition.
#[derive(Clone, Copy)]
pub struct Server {
    pub coordinator: Coordinator,
    pub partition: Partition,
}

impl Server {
    // An opening of a log; a refused one leaves the coordinator as it was.
    pub fn open(&mut self, call: Call, text: &[u8], log: &[u8]) -> Outcome {
        let [length, epoch, first, last, _] = call.arguments;
        let opened = calls::opening(
            text,
            log,
            length as usize,
            signed(epoch),
            signed(first),
            signed(last),
        );
        match opened {
            Ok(state) => {
                self.coordinator = state;
                accepted(())
            }
            Err(error) => bench_answers::not_opened(error),
        }
    }

    pub fn open_partition(&mut self, words: &[u64]) -> Outcome {
        self.partition = calls::open_partition(words.len());
        accepted(())
    }

    pub fn init(&mut self, call: Call, log: &mut [u8], name: &[u8]) -> Outcome {
        let [timeout, time, _, _, _] = call.arguments;
        let s = &mut self.coordinator;
        answered(calls::init(s, log, name, signed(timeout), signed(time)))
    }

    pub fn add(&mut self, call: Call, log: &mut [u8], name: &[u8]) -> Outcome {
        let [pid, epoch, set, time, _] = call.arguments;
        let s = &mut self.coordinator;
        answered(calls::add(s, log, name, signed(pid), signed(epoch), set, signed(time)))
    }

    pub fn end(&mut self, call: Call, log: &mut [u8], name: &[u8]) -> Outcome {
        let [pid, epoch, verdict, time, _] = call.arguments;
        let s = &mut self.coordinator;
        answered(calls::end(
            s,
            log,
            name,
            signed(pid),
            signed(epoch),
            verdict,
            signed(time),
        ))
    }

    pub fn tick(&mut self, call: Call, log: &mut [u8]) -> Outcome {
        let [time, _, _, _, _] = call.arguments;
        answered(calls::tick(&mut self.coordinator, log, signed(time)))
    }

    pub fn flush(&mut self, call: Call) -> Outcome {
        let [length, _, _, _, _] = call.arguments;
        answered(calls::flush(&mut self.coordinator, length as usize))
    }

    pub fn order(&self, call: Call) -> Outcome {
        let [up, _, _, _, _] = call.arguments;
        accepted(calls::order(&self.coordinator, up))
    }

    pub fn ack(&mut self, call: Call, log: &mut [u8]) -> Outcome {
        let [place, pid, epoch, position, _] = call.arguments;
        answered(calls::ack(
            &mut self.coordinator,
            log,
            place as usize,
            signed(pid),
            signed(epoch),
            position as usize,
        ))
    }

    pub fn produce(&mut self, call: Call, words: &mut [u64], name: &[u8]) -> Outcome {
        let [pid, epoch, position, sequence, payload] = call.arguments;
        answered(calls::produce(
            &self.coordinator,
            &mut self.partition,
            words,
            name,
            signed(pid),
            signed(epoch),
            position as usize,
            signed(sequence),
            payload,
        ))
    }

    pub fn marker(&mut self, call: Call, words: &mut [u64]) -> Outcome {
        let [place, pid, epoch, verdict, leader] = call.arguments;
        answered(calls::marker(
            &mut self.partition,
            words,
            place as usize,
            signed(pid),
            signed(epoch),
            verdict,
            signed(leader),
        ))
    }

    // Read into the part of out that the call says, if there is one.
    pub fn read(&self, call: Call, words: &[u64], out: &mut [u64]) -> Option<Outcome> {
        let [offset, from, to, _, _] = call.arguments;
        let part = out.get_mut(from as usize..to as usize)?;
        Some(answered(calls::read(&self.partition, words, offset as usize, part)))
    }

    // What is held at a place.
    pub fn held(&self, call: Call) -> Outcome {
        let [place, _, _, _, _] = call.arguments;
        bench_answers::held(table::row_at(&self.coordinator.table, place as usize))
    }
}
