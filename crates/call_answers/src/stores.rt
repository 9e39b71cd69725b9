// The lines that write or show the stores: the catalogue's text, the bytes of the log, the words of a partition.
use crate::{end_line, hexadecimal, unknown, word, words};
use call_lines::{field, number_of_64_bits};
use std::io;

// A catalogue's byte: `:` stands for a tab and `,` for a line feed.
fn text_byte(b: u8) -> u8 {
    match b {
        b':' => b'\t',
        b',' => b'\n',
        _ => b,
    }
}

// Writes the catalogue's text that a run stands for to the front of its store, and answers its length, if there is room for it.
fn write_text(store: &mut [u8], run: &[u8]) -> Option<usize> {
    let text = store.get_mut(..run.len())?;
    text.copy_from_slice(run);
    for b in text {
        *b = text_byte(*b);
    }
    Some(run.len())
}

// Writes the word of a line that was obeyed, or `?` for one that was not.
pub fn obeyed(rt: &impl Print, line: &[u8], done: Option<()>) -> io::Result<()> {
    if done.is_none() {
        return unknown(rt);
    }
    word(rt, line)?;
    end_line(rt)
}

// `catalogue TEXT`: another text, the first bytes of its store; the one before stays if it does not fit.
pub fn write_catalogue(
    rt: &impl Print,
    line: &[u8],
    store: &mut [u8],
    length: &mut usize,
) -> io::Result<()> {
    let written = write_text(store, field(line, 1)).map(|new| *length = new);
    obeyed(rt, line, written)
}

// Writes bytes of two digits each from a place on, if they fit.
fn write_digits(log: &mut [u8], at: usize, digits: &[u8]) -> Option<()> {
    let place = log.get_mut(at..)?.get_mut(..digits.len() / 2)?;
    hex::decode_to_slice(digits, place).ok()
}

// `bytes AT HEX`
pub fn write_log(rt: &impl Print, line: &[u8], log: &mut [u8]) -> io::Result<()> {
    obeyed(
        rt,
        line,
        write_digits(log, number_of_64_bits(line, 1), field(line, 2)),
    )
}

// So many items of a store from a place on, if it has them.
fn part_of<T>(store: &[T], from: usize, count: usize) -> Option<&[T]> {
    store.get(from..)?.get(..count)
}

// `log FROM COUNT`
pub fn show_log(rt: &impl Print, line: &[u8], log: &[u8]) -> io::Result<()> {
    let Some(shown) = part_of(log, number_of_64_bits(line, 1), number_of_64_bits(line, 2)) else {
        return unknown(rt);
    };
    word(rt, line)?;
    hexadecimal(rt, shown)?;
    end_line(rt)
}

// `words INDEX FROM COUNT`, of the words of that partition.
pub fn show_words(rt: &impl Print, line: &[u8], store: &[u64]) -> io::Result<()> {
    let Some(shown) = part_of(
        store,
        number_of_64_bits(line, 2),
        number_of_64_bits(line, 3),
    ) else {
        return unknown(rt);
    };
    word(rt, line)?;
    words(rt, shown)?;
    end_line(rt)
}
