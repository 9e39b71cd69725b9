// How the transactions whose prepares were flushed before a cut have ended after it, and how many different ways were seen.
#![tactic(auto)]

ghost use Rattle.std.specs.Prelude.{◌≡◌, ◌<◌, length};
ghost use Rattle.answers.specs.Limits.{places};
ghost use Rattle.cut_outcomes.specs.Outcomes.{is_complete, followed, with_ending, outcome, Noted};

use record::Status;
use row::Row;
use table::Table;

// ---- An outcome.

// Whether a status is that of a complete record.
fn is_complete(status: Status) -> bool
    ensures { result ≡ is_complete status }
{
    matches!(status, Status::CompleteCommit | Status::CompleteAbort)
}

// Whether the latest flushed record of an id is a prepare.
#[tactic(auto, unfolding(crate::specs::Outcomes::followed))]
fn is_followed(flushed: usize, row: Row) -> bool
    ensures { result ≡ followed flushed row }
{
    if flushed < row.end {
        return is_complete(row.status);
    }
    row::is_prepare(row.status)
}

// An outcome with the ending of one more id. Only for callers that have a place.
fn with_ending(set: u64, place: usize, status: Status) -> u64
    requires { place < places }
    ensures { result ≡ with_ending set place status }
{
    match status {
        Status::CompleteCommit => bits::insert(set, place),
        Status::CompleteAbort => bits::insert(set, answers::PLACES + place),
        _ => set,
    }
}

// The outcome of a cut: of the flushed length and the table before it, and the table after it.
pub fn outcome(flushed: usize, before: &Table, after: &Table) -> u64
    ensures { result ≡ outcome flushed before.now after.now }
{
    let mut set: u64 = 0;
    for place in 0..answers::PLACES {
        if is_followed(flushed, table::row_at(before, place)) {
            set = with_ending(set, place, table::row_at(after, place).status);
        }
    }
    set
}

// ---- The outcomes that were seen.

// Notes an outcome behind the first `count` of a store, if it is new and there is room; the answer is how many there are then. Store and count stand apart, as `Noted` speaks of them.
pub fn note(store: &mut [u64], count: usize, outcome: u64) -> usize
    ensures { count < length store.old → Noted store.old count outcome store.new result }
{
    if store.len() <= count {
        return count;
    }
    if store[..count].contains(&outcome) {
        return count;
    }
    store[count] = outcome;
    count + 1
}
