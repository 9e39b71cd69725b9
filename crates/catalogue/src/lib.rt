// The catalogue of topics: read from a lent text, held by value.
#![tactic(auto)]

ghost use Rattle.std.specs.Prelude.{◌≡◌, ◌*◌, ◌^◌, ◌≤◌, ◌<◌, length};
ghost use Rattle.numbers.specs.Bytes.{same};
ghost use Rattle.catalogue.specs.Limits.{topics_max, topic_name_max, partitions_max};
ghost use Rattle.catalogue.specs.Catalogue.{name_byte, name_run, name_field, partitions_in, is_new, line_at, with_topic, blank, parsed_of, parse};

// The limits of specs/Limits.antt, under the same names.
pub const TOPICS_MAX: usize = 8;

pub const TOPIC_NAME_MAX: usize = 16;

pub const PARTITIONS_MAX: usize = 8;

const NAMES: usize = TOPICS_MAX * TOPIC_NAME_MAX;

const TAB: u8 = b'\t';

const LINE_FEED: u8 = b'\n';

// Topic t's name is the sixteen bytes from 16 * t on, padded with zeros; `all` has the positions of all partitions: every call tests positions by it alone, so it stands beside the names and not in them.
#[derive(Clone, Copy)]
pub struct Catalogue {
    pub names: [u8; NAMES],
    pub all: u64,
}

// A line of a text: how long its topic's name is, and how many partitions the topic has.
#[derive(Clone, Copy)]
pub struct Line {
    pub name: usize,
    pub partitions: u64,
}

// Letters, digits, '.', '_' and '-'.
#[tactic(auto, unfolding(crate::specs::Catalogue::name_byte))]
fn name_byte(b: u8) -> bool
    ensures { result ≡ name_byte b }
{
    matches!(b, b'a'..=b'z' | b'A'..=b'Z' | b'0'..=b'9' | b'.' | b'_' | b'-')
}

// How many name bytes a text starts with.
fn name_run(text: &[u8]) -> usize
    ensures { result ≡ length (name_run text.now) }
{
    for (n, b) in text.iter().enumerate() {
        if !name_byte(*b) {
            return n;
        }
    }
    text.len()
}

// The line that a text starts with, if it starts with one.
fn line_at(text: &[u8]) -> Option<Line>
    ensures { result ≡ line_at text.now }
{
    let name = name_run(text);
    if name < 1 || TOPIC_NAME_MAX < name {
        return None;
    }
    let [TAB, digit, LINE_FEED, ..] = &text[name..] else {
        return None;
    };
    if *digit < b'1' || b'8' < *digit {
        return None;
    }
    Some(Line {
        name: name,
        partitions: u64::from(*digit - b'0'),
    })
}

// The catalogue with no topic.
pub fn blank() -> Catalogue
    ensures { result ≡ blank }
{
    Catalogue {
        names: [0u8; NAMES],
        all: 0,
    }
}

// The catalogue with topic t; the topics before it are there, and none after it.
fn with_topic(c: Catalogue, t: usize, name: &[u8], partitions: u64) -> Catalogue
    requires { (t < topics_max) × (length name.now ≤ topic_name_max) × (1 ≤ partitions) × (partitions ≤ partitions_max) × (c.all < 2 ^ (partitions_max * t)) }
    ensures { result ≡ with_topic c t name.now partitions }
{
    let mut names = c.names;
    numbers::copy(&mut names, TOPIC_NAME_MAX * t, name);
    let set = (1u64 << partitions) - 1;
    Catalogue {
        names: names,
        all: c.all + (set << (PARTITIONS_MAX * t)),
    }
}

// Whether topics u and t have the same name.
fn same_name(c: &Catalogue, u: usize, t: usize) -> bool
    requires { (u < topics_max) × (t < topics_max) }
    ensures { result ≡ same (name_field c.now u) (name_field c.now t) }
{
    let (first, second) = (TOPIC_NAME_MAX * u, TOPIC_NAME_MAX * t);
    c.names[first..first + TOPIC_NAME_MAX] == c.names[second..second + TOPIC_NAME_MAX]
}

// Whether no topic before t has its name.
fn is_new(c: &Catalogue, t: usize) -> bool
    requires { t < topics_max }
    ensures { result ≡ is_new c.now t t }
{
    for u in 0..t {
        if same_name(c, u, t) {
            return false;
        }
    }
    true
}

// The catalogue of a text, if it gives one. Any bytes are answered. The loop counts no index: each turn goes on behind the line that was read.
pub fn parse(text: &[u8]) -> Option<Catalogue>
    ensures { parsed_of result ≡ parse text.now }
{
    let mut c = blank();
    let mut t: usize = 0;
    let mut rest = text;
    while !rest.is_empty() {
        if t == TOPICS_MAX {
            return None;
        }
        let line = line_at(rest)?;
        c = with_topic(c, t, &rest[..line.name], line.partitions);
        if !is_new(&c, t) {
            return None;
        }
        rest = &rest[line.name + 3..];
        t += 1;
    }
    if t == 0 {
        return None;
    }
    Some(c)
}

// The partitions of topic t in a set of positions; a number past the topics has none.
pub fn partitions_in(set: u64, t: usize) -> u64
    ensures { result ≡ partitions_in set t }
{
    if TOPICS_MAX <= t {
        return 0;
    }
    (set >> (PARTITIONS_MAX * t)) % 256
}
