// Writes what the proved functions say, a line each, fields parted by a space.
ghost use Rattle.std.specs.Prelude.{◌<◌, length};

use catalogue::Catalogue;
use record::{Record, Unreadable};
use std::io;

fn space(rt: &impl Print) -> io::Result<()> {
    print!(rt; " ")
}

fn line(rt: &impl Print) -> io::Result<()> {
    print!(rt; "\n")
}

fn number(rt: &impl Print, n: u64) -> io::Result<()> {
    space(rt)?;
    print!(rt; "{n}")
}

// A signed number in decimal.
fn signed(rt: &impl Print, x: i64) -> io::Result<()> {
    space(rt)?;
    print!(rt; "{x}")
}

fn wide(b: u8) -> u64 {
    b as u64
}

// The first n bytes in hexadecimal.
fn hex(rt: &impl Print, s: &[u8], n: usize) -> io::Result<()> {
    space(rt)?;
    for b in s.iter().take(n) {
        print!(rt; "{:02x}", wide(*b))?;
    }
    Ok(())
}

// The refusal of a catalogue's text, and its positions.
pub fn parsed(rt: &impl Print, text: &[u8]) -> io::Result<()> {
    print!(rt; "catalogue")?;
    match catalogue::parse(text) {
        Some(c) => {
            number(rt, 0)?;
            number(rt, c.all)?;
        }
        None => {
            number(rt, u64::from(u8::from(answers::Refusal::InvalidCatalogue)))?;
            number(rt, 0)?;
        }
    }
    line(rt)
}

// The fields of a record, the status by its code.
fn fields(rt: &impl Print, r: Record) -> io::Result<()> {
    let name = r.name;
    hex(rt, &name, record::NAME_MAX)?;
    signed(rt, r.pid)?;
    signed(rt, i64::from(r.epoch))?;
    signed(rt, i64::from(r.timeout))?;
    signed(rt, i64::from(i8::from(r.status)))?;
    number(rt, r.joined)?;
    signed(rt, r.updated)?;
    signed(rt, r.start)
}

// What stands at a place of a log, with the record if it is whole.
fn reading(rt: &impl Print, c: Catalogue, log: &[u8], end: usize, at: usize) -> io::Result<()> {
    match decode::frame_at(c, log, end, at) {
        Ok(whole) => {
            print!(rt; "whole")?;
            number(rt, whole.next as u64)?;
            fields(rt, whole.record)?;
        }
        Err(Unreadable::Torn) => print!(rt; "torn")?,
        Err(Unreadable::Bad) => print!(rt; "bad")?,
    }
    line(rt)
}

// The frame of a record, written into this buffer: the place after it, its bytes, and how it reads back.
fn written(rt: &impl Print, c: Catalogue, r: Record, out: &mut [u8]) -> io::Result<()> {
    let Some(next) = encode::encode(c, r, out, 0) else {
        return print!(rt; "no room\n");
    };
    print!(rt; "frame")?;
    number(rt, next as u64)?;
    hex(rt, out, next)?;
    line(rt)?;
    reading(rt, c, out, next, 0)
}

// The frame of a record in a buffer that holds any frame.
pub fn frame(rt: &impl Print, c: Catalogue, r: Record) -> io::Result<()> {
    let mut buffer = [0u8; record::FRAME_MAX];
    written(rt, c, r, &mut buffer)
}

// One letter for what stands at the front of a log: w for whole, t for torn, b for bad.
fn letter(rt: &impl Print, c: Catalogue, log: &[u8], end: usize) -> io::Result<()> {
    match decode::frame_at(c, log, end, 0) {
        Ok(_) => print!(rt; "w"),
        Err(Unreadable::Torn) => print!(rt; "t"),
        Err(Unreadable::Bad) => print!(rt; "b"),
    }
}

// A letter for each value of the byte at i. Only for callers that know it to lie in the frame.
fn letters(rt: &impl Print, c: Catalogue, frame: &mut [u8], end: usize, i: usize) -> io::Result<()>
    requires { i < length frame.old }
{
    for value in 0..=u8::MAX {
        frame[i] = value;
        letter(rt, c, frame, end)?;
    }
    line(rt)
}

// A letter for each value of the byte at i, and the frame as it was.
fn change(rt: &impl Print, c: Catalogue, frame: &mut [u8], end: usize, i: usize) -> io::Result<()> {
    if frame.len() <= i {
        return Ok(());
    }
    let old = frame[i];
    let printed = letters(rt, c, frame, end, i);
    frame[i] = old;
    printed
}

// A letter for each length that a frame may be cut to, the whole frame last.
fn cut(rt: &impl Print, c: Catalogue, frame: &[u8], next: usize) -> io::Result<()> {
    for end in 0..next {
        letter(rt, c, frame, end)?;
    }
    letter(rt, c, frame, next)?;
    line(rt)
}

// Every change of one byte, a line for each byte.
fn change_all(rt: &impl Print, c: Catalogue, frame: &mut [u8], next: usize) -> io::Result<()> {
    for i in 0..next {
        change(rt, c, frame, next, i)?;
    }
    Ok(())
}

// A record's frame, cut and changed in every way.
fn damage(rt: &impl Print, c: Catalogue, r: Record, out: &mut [u8]) -> io::Result<()> {
    let Some(next) = encode::encode(c, r, out, 0) else {
        return Ok(());
    };
    cut(rt, c, out, next)?;
    change_all(rt, c, out, next)
}

// The same in a buffer that holds any frame.
pub fn damaged(rt: &impl Print, c: Catalogue, r: Record) -> io::Result<()> {
    let mut buffer = [0u8; record::FRAME_MAX];
    damage(rt, c, r, &mut buffer)
}
