// The state of a call script with its stores, and what a line does to it.
#![tactic(auto)]

use call_lines::{Kind, number_of_64_bits};
use coordinator::Coordinator;
use partition::Partition;
use std::io;

pub const PARTITIONS: usize = 3;

// The words of each partition.
pub const WORDS_ROOM: usize = 256;

pub const TEXT_ROOM: usize = 256;

pub const LOG_ROOM: usize = 8192;

// A partition and its words.
#[derive(Clone, Copy)]
pub struct Held {
    pub partition: Partition,
    pub words: [u64; WORDS_ROOM],
}

// The catalogue's text, the coordinator and its log, and the partitions. The text is the first `length` bytes of an array, since a state can be copied and an `ArrayVec` can not.
#[derive(Clone, Copy)]
pub struct State {
    pub text: [u8; TEXT_ROOM],
    pub length: usize,
    pub coordinator: Coordinator,
    pub log: [u8; LOG_ROOM],
    pub partitions: [Held; PARTITIONS],
}

// How many words of its partition a line is lent; `words` may show them all.
fn lent_words(kind: Kind, line: &[u8]) -> usize {
    match kind {
        Kind::Words => WORDS_ROOM,
        _ => number_of_64_bits(line, 2),
    }
}

impl State {
    // An opening of the empty log with the catalogue of document 01's listing, and empty partitions.
    pub fn opened() -> State {
        let first = b"scan\t2\ncert\t1\n";
        let mut text = [0u8; TEXT_ROOM];
        text[..first.len()].copy_from_slice(first);
        let log = [0u8; LOG_ROOM];
        let empty = Held {
            partition: calls::open_partition(WORDS_ROOM),
            words: [0; WORDS_ROOM],
        };
        State {
            text,
            length: first.len(),
            coordinator: calls::opening(first, &log, 0, 1, 1000, 1999).unwrap_or(
                opening::blank_state(),
            ),
            log,
            partitions: [empty; PARTITIONS],
        }
    }

    // `epoch PLACE EPOCH`: another epoch for the id at a place, since calls would take as many turns to get there.
    fn set_epoch(&mut self, rt: &impl Print, line: &[u8]) -> io::Result<()> {
        let set = script_values::set_epoch(
            &mut self.coordinator,
            number_of_64_bits(line, 1),
            number_of_64_bits(line, 2),
        );
        call_answers::obeyed(rt, line, set)
    }

    // `sequence INDEX PLACE SEQUENCE`: another last sequence for the producer at a place of a partition.
    fn set_sequence(&mut self, rt: &impl Print, line: &[u8]) -> io::Result<()> {
        let index: usize = number_of_64_bits(line, 1);
        let set = self.partitions.get_mut(index).and_then(|held| {
            script_values::set_sequence(
                &mut held.partition,
                number_of_64_bits(line, 2),
                number_of_64_bits(line, 3),
            )
        });
        call_answers::obeyed(rt, line, set)
    }

    // A line with the index of a partition.
    fn call_partition(&mut self, rt: &impl Print, kind: Kind, line: &[u8]) -> io::Result<()> {
        let index: usize = number_of_64_bits(line, 1);
        let Some(held) = self.partitions.get_mut(index) else {
            return call_answers::unknown(rt);
        };
        let Some(words) = held.words.get_mut(..lent_words(kind, line)) else {
            return call_answers::unknown(rt);
        };
        let p = &mut held.partition;
        // The word of an input line says what is to be done, so no caller has a step to give.
        match kind {
            Kind::Read => word_calls::read(rt, p, line, words),
            Kind::Words => call_answers::show_words(rt, line, words),
            _ => word_calls::perform(rt, &self.coordinator, p, kind, line, words),
        }
    }

    // Performs a line and writes its answer.
    pub fn perform(&mut self, rt: &impl Print, line: &[u8]) -> io::Result<()> {
        let kind = call_lines::kind_of(line);
        // The word of an input line says what is to be done, so no caller has a step to give.
        match kind {
            Kind::Blank => call_answers::whole(rt, line),
            Kind::Unknown => call_answers::unknown(rt),
            Kind::Bytes => call_answers::write_log(rt, line, &mut self.log),
            Kind::Log => call_answers::show_log(rt, line, &self.log),
            Kind::Catalogue => {
                call_answers::write_catalogue(rt, line, &mut self.text, &mut self.length)
            }
            Kind::Epoch => self.set_epoch(rt, line),
            Kind::Sequence => self.set_sequence(rt, line),
            Kind::Words | Kind::Partition | Kind::Produce | Kind::Marker | Kind::Read => {
                self.call_partition(rt, kind, line)
            }
            _ => log_calls::perform(
                rt,
                &mut self.coordinator,
                kind,
                line,
                &self.text[..self.length.min(TEXT_ROOM)],
                &mut self.log,
            ),
        }
    }
}
