// The lines of a call script: the fields of a line, the numbers that they write, and which line it is by its word and the kinds of its fields.
#![tactic(auto)]

ghost use Rattle.std.specs.Prelude.{◌≢◌, get_or, IfSome};

// Which line it is.
#[derive(Clone, Copy, Debug, PartialEq, Eq)]
pub enum Kind {
    Blank,
    Catalogue,
    Bytes,
    Log,
    Words,
    Epoch,
    Sequence,
    Open,
    Init,
    Add,
    End,
    Tick,
    Flush,
    Order,
    Ack,
    Partition,
    Produce,
    Marker,
    Read,
    Unknown,
}

// What a field writes: a number of this type, bytes of two small hexadecimal digits each, or any text.
#[derive(Clone, Copy, Debug, PartialEq, Eq)]
enum FieldKind {
    I16,
    I32,
    I64,
    U64,
    Hexadecimal,
    Text,
}

use FieldKind::{Hexadecimal, I16, I32, I64, Text, U64};

// The word of each line, the fields behind it, and which line it is. A call of the coordinator says first how many bytes it is lent, but for flush and order;
// a call of a partition begins with an index and how many words are lent.
const LINES: [(&[u8], &[FieldKind], Kind); 18] = [
    (b"open", &[U64, U64, I32, I64, I64], Kind::Open),
    (b"tick", &[U64, I64], Kind::Tick),
    (b"flush", &[U64], Kind::Flush),
    (b"order", &[U64], Kind::Order),
    (b"init", &[U64, Text, I32, I64], Kind::Init),
    (b"add", &[U64, Text, I64, I16, U64, I64], Kind::Add),
    (b"end", &[U64, Text, I64, I16, U64, I64], Kind::End),
    (b"ack", &[U64, U64, I64, I16, U64], Kind::Ack),
    (b"catalogue", &[Text], Kind::Catalogue),
    (b"bytes", &[U64, Hexadecimal], Kind::Bytes),
    (b"log", &[U64, U64], Kind::Log),
    (b"words", &[U64, U64, U64], Kind::Words),
    (b"epoch", &[U64, I16], Kind::Epoch),
    (b"sequence", &[U64, U64, I32], Kind::Sequence),
    (b"partition", &[U64, U64], Kind::Partition),
    (
        b"produce",
        &[U64, U64, Text, I64, I16, U64, I32, U64],
        Kind::Produce,
    ),
    (
        b"marker",
        &[U64, U64, U64, I64, I16, U64, I32],
        Kind::Marker,
    ),
    (b"read", &[U64, U64, U64, U64], Kind::Read),
];

// The k-th field, which is empty past the last. Fields are parted by one space each; the first is the word.
pub fn field(line: &[u8], k: usize) -> &[u8] {
    line.split(|b| *b == b' ').nth(k).unwrap_or(b"")
}

// The number that a run of bytes writes in decimal, if its type holds it. The only sign is `-`, also before 0; 43 is `+`.
fn parsed<T: TryFrom<i128>>(run: &[u8]) -> Option<T>
where
    T::Error: Drop,
    ensures { IfSome result (λ _. get_or run.now 0 0 ≢ 43) }
{
    if run.starts_with(b"+") {
        return None;
    }
    let number: i128 = str::from_utf8(run).ok()?.parse().ok()?;
    T::try_from(number).ok()
}

// The number of field k, or 0 where it writes none of this type.
pub fn number<T: TryFrom<i128> + Default>(line: &[u8], k: usize) -> T
where
    T::Error: Drop,
{
    parsed(field(line, k)).unwrap_or_default()
}

// What `parsed` gives, if 64 bits and a sign hold the number too, in less time. The numbers of a script's line are at most that long.
fn parsed_of_64_bits<T: TryFrom<i128>>(run: &[u8]) -> Option<T>
where
    T::Error: Drop,
{
    T::try_from(fields::read_number(run, u64::MAX, u64::MAX)?).ok()
}

// The number of field k of a script's line: 0 where it writes none of this type, or one that 64 bits and a sign do not hold.
pub fn number_of_64_bits<T: TryFrom<i128> + Default>(line: &[u8], k: usize) -> T
where
    T::Error: Drop,
{
    parsed_of_64_bits(field(line, k)).unwrap_or_default()
}

// Whether a run is bytes of two small hexadecimal digits each.
fn is_bytes(run: &[u8]) -> bool {
    run.len() % 2 == 0 && run.iter().all(|b| matches!(b, b'0'..=b'9' | b'a'..=b'f'))
}

// Whether a run is a field of this kind.
fn is_field(run: &[u8], kind: FieldKind) -> bool {
    match kind {
        I16 => parsed_of_64_bits::<i16>(run).is_some(),
        I32 => parsed_of_64_bits::<i32>(run).is_some(),
        I64 => parsed_of_64_bits::<i64>(run).is_some(),
        U64 => parsed_of_64_bits::<u64>(run).is_some(),
        Hexadecimal => is_bytes(run),
        Text => true,
    }
}

// Whether a line is this word and one field of each of these kinds.
fn is_line(line: &[u8], word: &[u8], kinds: &[FieldKind]) -> bool {
    field(line, 0) == word
        && line
            .split(|b| *b == b' ')
            .skip(1)
            .zip(kinds)
            .all(|(run, kind)| is_field(run, *kind))
        && line.iter().filter(|b| **b == b' ').count() == kinds.len()
}

// Which line it is, whatever its bytes; an empty one and a comment are blank.
pub fn kind_of(line: &[u8]) -> Kind {
    if line.is_empty() || line.starts_with(b"#") {
        return Kind::Blank;
    }
    LINES
        .iter()
        .find(|(word, kinds, _)| is_line(line, word, kinds))
        .map_or(Kind::Unknown, |(_, _, kind)| *kind)
}

#[cfg(test)]
mod tests {
    use super::*;

    // The limits of i128 and one past each, a number of 65 bits, and the signs.
    #[test]
    fn numbers_past_64_bits(rt: HostRuntime) {
        let line =
            b"170141183460469231731687303715884105727 -170141183460469231731687303715884105728 170141183460469231731687303715884105728 -170141183460469231731687303715884105729 000018446744073709551616 +5 -7";
        let read = [i128::MAX, i128::MIN, 0, 0, 1 << 64, 0, -7];
        for (k, want) in read.into_iter().enumerate() {
            assert_eq!(rt; number::<i128>(line, k), want, "field {k}");
        }
        assert_eq!(rt; number::<u128>(line, 0), i128::MAX as u128);
        assert_eq!(rt; number::<u128>(line, 1), 0);
        assert_eq!(rt; number::<u64>(line, 4), 0);
        assert_eq!(rt; number_of_64_bits::<i128>(line, 4), 0);
        assert_eq!(rt; number_of_64_bits::<i128>(line, 6), -7);
    }
}
