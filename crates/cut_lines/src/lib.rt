// The lines that the program every_cut prints: what is read after a cut, and the counts.
#![tactic(auto)]

use command::Command;
use session::{Response, Results, Session};
use std::io;

// A number behind a tab.
fn print_field(rt: &impl Print, n: u64) -> io::Result<()> {
    print!(rt; "\t{n}")
}

// The first payloads, and `-` if there are none.
fn print_payloads(rt: &impl Print, payloads: &[u64], count: usize) -> io::Result<()> {
    let copied = &payloads[..count.min(payloads.len())];
    if copied.is_empty() {
        print!(rt; "\t-")?;
    }
    for payload in copied {
        print_field(rt, *payload)?;
    }
    Ok(())
}

// How many payloads a Read has copied.
fn count_of(response: Response) -> usize {
    match response {
        Ok(Results::Payloads(count)) => count,
        _ => 0,
    }
}

// A position, and what Read gives there. The session and its buffers stand apart here and below, as `session_commands::perform` is lent them.
fn print_read(
    rt: &impl Print,
    s: &mut Session,
    position: u64,
    log: &mut [u8],
    words: &mut [u64],
    payloads: &mut [u64],
) -> io::Result<()> {
    let command = Command::Read { position };
    let response = session_commands::perform(s, command, b"", log, words, payloads);
    print_field(rt, position)?;
    print_payloads(rt, payloads, count_of(response))
}

// The line of a length: what Read gives at each position of the catalogue.
pub fn print_line(
    rt: &impl Print,
    s: &mut Session,
    length: usize,
    log: &mut [u8],
    words: &mut [u64],
    payloads: &mut [u64],
) -> io::Result<()> {
    print!(rt; "{length}")?;
    print_read(rt, s, 0, log, words, payloads)?;
    print_read(rt, s, 1, log, words, payloads)?;
    print_read(rt, s, 8, log, words, payloads)?;
    print!(rt; "\n")
}

// The last line: how many lengths and how many outcomes.
pub fn print_counts(rt: &impl Print, lengths: usize, outcomes: usize) -> io::Result<()> {
    print!(rt; "lengths")?;
    print_field(rt, lengths as u64)?;
    print!(rt; "\toutcomes")?;
    print_field(rt, outcomes as u64)?;
    print!(rt; "\n")
}
