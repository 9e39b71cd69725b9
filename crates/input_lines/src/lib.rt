// Reads an input by lines.
#![tactic(auto)]

use fields::Part;
use lines::{Cursor, Last, Next};
use std::io;
use std::io::Read;

// A line, by its place since the buffer is written again between lines, and where the buffer is read on behind it; one that did not fit the buffer; a part that ends no line; or the end of the input.
#[derive(Clone, Copy)]
pub enum Step {
    Line {
        from: usize,
        len: usize,
        rest: Cursor,
    },
    Long {
        rest: Cursor,
    },
    Part {
        rest: Cursor,
    },
    End,
}

// An empty buffer.
pub fn start() -> Cursor {
    Cursor {
        from: 0,
        end: 0,
        skipping: false,
    }
}

// What is left when there is no more to read.
fn last(buffer: &[u8], cursor: Cursor) -> Step {
    match lines::last_line(buffer, cursor) {
        Last::Line { from, len } => Step::Line {
            from,
            len,
            rest: start(),
        },
        Last::Long => Step::Long { rest: start() },
        Last::Nothing => Step::End,
    }
}

// Reads a part behind what is kept; the same cursor if there is no more.
fn read_part(input: &mut impl Read, buffer: &mut [u8], kept: Cursor) -> io::Result<Cursor> {
    let end = kept.end;
    if buffer.len() < end {
        return Ok(kept);
    }
    let n = input.read(&mut buffer[end..])?;
    if buffer.len() - end < n {
        return Ok(kept);
    }
    Ok(Cursor {
        from: 0,
        end: end + n,
        skipping: kept.skipping,
    })
}

// Reads on behind an unfinished line.
fn more(input: &mut impl Read, buffer: &mut [u8], cursor: Cursor) -> io::Result<Step> {
    let kept = lines::keep(buffer, cursor);
    let rest = read_part(input, buffer, kept)?;
    if rest.end == kept.end {
        return Ok(last(buffer, rest));
    }
    Ok(Step::Part { rest })
}

// The next line of the buffer, or what comes of reading on.
pub fn next(input: &mut impl Read, buffer: &mut [u8], cursor: Cursor) -> io::Result<Step> {
    match lines::next_line(buffer, cursor) {
        Next::Line { from, len, rest } => Ok(Step::Line { from, len, rest }),
        Next::Long { rest } => Ok(Step::Long { rest }),
        Next::More => more(input, buffer, cursor),
    }
}

// Whether the input is at its end.
pub fn is_end(step: Step) -> bool {
    matches!(step, Step::End)
}

// Where the buffer is read on.
pub fn behind(step: Step) -> Cursor {
    match step {
        Step::Line { rest, .. } | Step::Long { rest } | Step::Part { rest } => rest,
        Step::End => start(),
    }
}

// The bytes of a part, or as many of them as there are.
pub fn part(bytes: &[u8], from: usize, len: usize) -> &[u8] {
    fields::bytes_of(bytes, Part { from, len })
}
