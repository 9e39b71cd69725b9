// The answers of a call script, written to standard output: the word of a line, the number and the results of a call, and what a state holds, each behind a tab.
#![tactic(auto)]

mod stores;

use answers::{Copied, Initialized, OpenError, Order, Refusal};
use coordinator::Coordinator;
use partition::Partition;
use std::io;
pub use stores::{obeyed, show_log, show_words, write_catalogue, write_log};

pub fn bytes(rt: &impl Print, run: &[u8]) -> io::Result<()> {
    rt.write_all(run)
}

// The word of a line.
pub fn word(rt: &impl Print, line: &[u8]) -> io::Result<()> {
    bytes(rt, call_lines::field(line, 0))
}

pub fn end_line(rt: &impl Print) -> io::Result<()> {
    bytes(rt, b"\n")
}

// A line as it stands.
pub fn whole(rt: &impl Print, line: &[u8]) -> io::Result<()> {
    bytes(rt, line)?;
    end_line(rt)
}

// A line that is none.
pub fn unknown(rt: &impl Print) -> io::Result<()> {
    bytes(rt, b"?\n")
}

pub fn natural(rt: &impl Print, n: u64) -> io::Result<()> {
    print!(rt; "\t{n}")
}

fn signed(rt: &impl Print, x: i64) -> io::Result<()> {
    print!(rt; "\t{x}")
}

// Bytes in hexadecimal, behind one tab.
pub fn hexadecimal(rt: &impl Print, run: &[u8]) -> io::Result<()> {
    bytes(rt, b"\t")?;
    for b in run {
        print!(rt; "{b:02x}")?;
    }
    Ok(())
}

// Words in decimal, each behind a tab.
pub fn words(rt: &impl Print, run: &[u64]) -> io::Result<()> {
    for n in run {
        natural(rt, *n)?;
    }
    Ok(())
}

// ---- Answers.

// The results of a call.
pub trait Results: Copy {
    fn show(self, rt: &impl Print) -> io::Result<()>;
}

// Add, End, Flush, Ack and Marker.
impl Results for () {
    fn show(self, _rt: &impl Print) -> io::Result<()> {
        Ok(())
    }
}

// A place or an offset.
impl Results for usize {
    fn show(self, rt: &impl Print) -> io::Result<()> {
        natural(rt, self as u64)
    }
}

impl Results for Initialized {
    fn show(self, rt: &impl Print) -> io::Result<()> {
        match self {
            Initialized::Given { pid, epoch } => {
                signed(rt, pid)?;
                signed(rt, i64::from(epoch))
            }
            Initialized::Aborting => absent(rt),
        }
    }
}

impl Results for Order {
    fn show(self, rt: &impl Print) -> io::Result<()> {
        natural(rt, self.place as u64)?;
        signed(rt, self.pid)?;
        signed(rt, i64::from(self.epoch))?;
        natural(rt, self.verdict)?;
        natural(rt, self.position as u64)?;
        signed(rt, i64::from(self.coordinator))
    }
}

impl Results for Copied {
    fn show(self, rt: &impl Print) -> io::Result<()> {
        natural(rt, self.count as u64)?;
        natural(rt, self.next as u64)
    }
}

impl<T: Results> Results for Option<T> {
    fn show(self, rt: &impl Print) -> io::Result<()> {
        match self {
            Some(results) => results.show(rt),
            None => absent(rt),
        }
    }
}

// What stands where an accepted call has no results but may have some.
fn absent(rt: &impl Print) -> io::Result<()> {
    bytes(rt, b"\t-")
}

// An accepted call: 0 and its results.
pub fn accepted(rt: &impl Print, results: impl Results) -> io::Result<()> {
    natural(rt, 0)?;
    results.show(rt)
}

// The answer of a call: 0 and its results, or the number of its refusal.
pub fn answered<T: Results>(rt: &impl Print, answer: Result<T, Refusal>) -> io::Result<()> {
    match answer {
        Ok(results) => accepted(rt, results),
        Err(refusal) => natural(rt, u64::from(u8::from(refusal))),
    }
}

// Why an opening is refused: its number, and behind that of a bad log the offset of its bad frame.
pub fn not_opened(rt: &impl Print, error: OpenError) -> io::Result<()> {
    natural(rt, u64::from(u8::from(error)))?;
    match error {
        OpenError::BadLog { offset } => natural(rt, offset as u64),
        OpenError::Refused(_) => Ok(()),
    }
}

// ---- States.

// The log's end, the flushed length and the clock.
pub fn coordinator(rt: &impl Print, c: &Coordinator) -> io::Result<()> {
    natural(rt, c.table.end as u64)?;
    natural(rt, c.flushed as u64)?;
    natural(rt, c.clock)?;
    end_line(rt)
}

// The end, the coordinator epoch and the stable end.
pub fn partition(rt: &impl Print, p: &Partition) -> io::Result<()> {
    natural(rt, p.end as u64)?;
    natural(rt, p.coordinator as u64)?;
    natural(rt, committed_reader::stable_end(p) as u64)
}
