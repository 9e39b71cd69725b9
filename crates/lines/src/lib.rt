// The lines of a text that is read by parts into a buffer.
#![tactic(auto)]

ghost use Rattle.std.specs.Prelude.{◌≡◌, ◌+◌, ◌-◌, ◌≤◌, length, take, drop};
ghost use Rattle.numbers.specs.Bytes.{overwrite};
ghost use Rattle.lines.specs.Text.{is_line_feed};
ghost use Rattle.lines.specs.Cursor.{line_end, pending_length, next_of, NextWithin, kept_cursor, kept_bytes, last_of, LastWithin};

// The bytes of a buffer that are read and not yet handed on, from `from` to `end`: places and no slice, since the buffer is written again between two lines. While `skipping`, they go on a line that did not fit the buffer.
#[derive(Clone, Copy)]
pub struct Cursor {
    pub from: usize,
    pub end: usize,
    pub skipping: bool,
}

// The next line and what is left behind it; or one that did not fit; or that more has to be read.
#[derive(Clone, Copy)]
pub enum Next {
    Line {
        from: usize,
        len: usize,
        rest: Cursor,
    },
    Long {
        rest: Cursor,
    },
    More,
}

// What is left when the text has ended: a line without a line feed, or one that did not fit, or nothing.
#[derive(Clone, Copy)]
pub enum Last {
    Line { from: usize, len: usize },
    Long,
    Nothing,
}

// Whether a byte ends a line.
fn is_line_feed(b: u8) -> bool
    ensures { result ≡ is_line_feed b }
{
    b == b'\n'
}

// The first line feed of the `len` bytes from `from` on.
pub fn line_end(bytes: &[u8], from: usize, len: usize) -> Option<usize>
    ensures { result ≡ line_end bytes.now from len }
{
    let rest = bytes.get(from..)?;
    let part = &rest[..len.min(rest.len())];
    let place = part.iter().position(|b| is_line_feed(*b))?;
    Some(from + place)
}

// How many bytes of a buffer of n bytes are read and not yet handed on.
fn pending(n: usize, cursor: Cursor) -> usize
    ensures { result ≡ pending_length n cursor }
{
    cursor.end.min(n).saturating_sub(cursor.from)
}

// The next line of what is read.
pub fn next_line(buffer: &[u8], cursor: Cursor) -> Next
    ensures { (result ≡ next_of buffer.now cursor) × NextWithin cursor result (length buffer.now) }
{
    let from = cursor.from;
    match line_end(buffer, from, pending(buffer.len(), cursor)) {
        Some(place) => {
            let rest = Cursor {
                from: place + 1,
                end: cursor.end,
                skipping: false,
            };
            if cursor.skipping {
                return Next::Long { rest };
            }
            Next::Line {
                from,
                len: place - from,
                rest,
            }
        }
        None => Next::More,
    }
}

// Moves n bytes to the front.
fn move_to_front(buffer: &mut [u8], from: usize, n: usize)
    requires { from + n ≤ length buffer.old }
    ensures { buffer.new ≡ overwrite buffer.old 0 (take n (drop from buffer.old)) }
{
    buffer.copy_within(from..from + n, 0);
}

// Makes room to read on: the unfinished line stands at the front, or is dropped if it fills the buffer.
pub fn keep(buffer: &mut [u8], cursor: Cursor) -> Cursor
    ensures answer { result ≡ kept_cursor buffer.old cursor }
    ensures bytes { buffer.new ≡ kept_bytes buffer.old cursor }
    ensures within { result.end ≤ length buffer.old }
{
    let n = pending(buffer.len(), cursor);
    if cursor.skipping {
        return Cursor {
            from: 0,
            end: 0,
            skipping: true,
        };
    }
    if n == buffer.len() {
        return Cursor {
            from: 0,
            end: 0,
            skipping: true,
        };
    }
    if 0 < n {
        move_to_front(buffer, cursor.from, n);
    }
    Cursor {
        from: 0,
        end: n,
        skipping: false,
    }
}

// What is left at the end of the text.
pub fn last_line(buffer: &[u8], cursor: Cursor) -> Last
    ensures { (result ≡ last_of buffer.now cursor) × LastWithin result (length buffer.now) }
{
    if cursor.skipping {
        return Last::Long;
    }
    let len = pending(buffer.len(), cursor);
    if len == 0 {
        return Last::Nothing;
    }
    let from = cursor.from;
    Last::Line { from, len }
}
