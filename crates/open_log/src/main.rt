// open_log CATALOGUE LOG: prints the report of a log file.
#![tactic(auto)]

use std::env::FillError;
use std::rt::{Env, Files};

// The system takes no longer path.
const PATH_ROOM: usize = 4096;

// Whether there is such an argument; the program's own name is argument 0.
fn has_argument(rt: &impl Env, i: usize) -> bool {
    !matches!(rt.arg(i, &mut []), Err(FillError::NotPresent))
}

// Says why an argument is not taken. Where standard error takes nothing, nothing is left to be said.
fn fail(rt: &impl Eprint, what: &str, error: FillError) {
    let reason = match error {
        FillError::NotPresent => "Invalid argument",
        FillError::TooLong => "File name too long",
    };
    let _ = eprintln!(rt; "{what}: {reason}");
}

// The argument at a place, in this room; where it is not taken, that is said.
fn argument<'a>(
    rt: &(impl Env + Eprint),
    i: usize,
    what: &str,
    room: &'a mut [u8],
) -> Option<&'a [u8]> {
    match rt.arg(i, room) {
        Ok(length) => Some(&room[..length]),
        Err(error) => {
            fail(rt, what, error);
            None
        }
    }
}

// Prints the report of a log file under the catalogue of another. The log's buffer stands here and not in `main`, which would fill it twice.
fn print_report(rt: &(impl Files + Print + Eprint), catalogue: &[u8], log: &[u8]) {
    let mut buffer = [0u8; log_files::LOG_ROOM];
    log_files::print_report(rt, catalogue, log, &mut buffer);
}

fn main(rt: HostRuntime) {
    if !has_argument(&rt, 2) || has_argument(&rt, 3) {
        let _ = eprintln!(rt; "usage: open_log CATALOGUE LOG");
        return;
    }
    let mut catalogue_room = [0u8; PATH_ROOM];
    let Some(catalogue) = argument(&rt, 1, "CATALOGUE", &mut catalogue_room) else {
        return;
    };
    let mut log_room = [0u8; PATH_ROOM];
    let Some(log) = argument(&rt, 2, "LOG", &mut log_room) else {
        return;
    };
    print_report(&rt, catalogue, log);
}
