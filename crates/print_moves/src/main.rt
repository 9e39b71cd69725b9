// Prints the table of the status moves, a row for the status held and a column for the new one, each column 19 characters wide.
#![tactic(auto)]

use record::Status;
use std::io;

// The statuses in the order of their codes.
const STATUSES: [Status; 6] = [
    Status::Empty,
    Status::Begin,
    Status::PrepareCommit,
    Status::PrepareAbort,
    Status::CompleteCommit,
    Status::CompleteAbort,
];

// The code and the name of a status.
fn heading(status: Status) -> &'static str {
    match status {
        Status::Empty => "0 EMPTY",
        Status::Begin => "1 BEGIN",
        Status::PrepareCommit => "2 PREPARE_COMMIT",
        Status::PrepareAbort => "3 PREPARE_ABORT",
        Status::CompleteCommit => "4 COMPLETE_COMMIT",
        Status::CompleteAbort => "5 COMPLETE_ABORT",
    }
}

// Whether the new status may follow the one held.
fn flag(held: Status, new: Status) -> &'static str {
    if succession::may_follow_status(held, new) {
        "may follow"
    } else {
        "-"
    }
}

// The new statuses.
fn headings(rt: &impl Print) -> io::Result<()> {
    print!(rt; "{:>19}", "")?;
    for status in STATUSES {
        print!(rt; "{:>19}", heading(status))?;
    }
    print!(rt; "\n")
}

// The status held, and its flags.
fn row(rt: &impl Print, held: Status) -> io::Result<()> {
    print!(rt; "{:>19}", heading(held))?;
    for new in STATUSES {
        print!(rt; "{:>19}", flag(held, new))?;
    }
    print!(rt; "\n")
}

fn main(rt: HostRuntime) -> io::Result<()> {
    headings(&rt)?;
    for held in STATUSES {
        row(&rt, held)?;
    }
    Ok(())
}
