// The answer lines of document 01's listing, written into a lent buffer.
#![tactic(auto)]

ghost use Rattle.std.specs.Prelude.{◌≡◌, ◌+◌, ◌*◌, ◌≤◌, map, [], ◌∷◌, length, take};
ghost use Rattle.text.specs.Decimal.{decimal, signed_decimal};
ghost use Rattle.text.specs.Lines.{field, fields, Wrote};
ghost use Rattle.command.specs.Limits.{word_max};
ghost use Rattle.command.specs.Words.{word_at};
ghost use Rattle.listing.specs.Limits.{field_max, results_max, line_max};
ghost use Rattle.listing.specs.Listing.{number_field, results_of, payload_fields, result_fields, reply_line, render_answer, render_bytes, Within};

// The limits of specs/Limits.antt, under the same names.
pub const FIELD_MAX: usize = 1 + text::DIGITS_MAX;

pub const FIELDS_FIXED: usize = 7;

// What stands behind the lengths: nothing, `-` for none, up to three numbers, or so many of the lent payloads.
#[derive(Clone, Copy)]
pub enum Results {
    Empty,
    Absent,
    One(i64),
    Two(i64, i64),
    Three { first: i64, second: i64, third: i64 },
    Payloads(usize),
}

// A line that is no command has no number; any other has 0 or that of its refusal. A name of its own for the first reads plainer than None in the listing's definitions.
#[derive(Clone, Copy)]
pub enum Reply {
    Unknown,
    Answered { number: u8, results: Results },
}

// ---- The parts of a line, each written at a place where it fits; the answer is the place behind it.

// Writes 0, the number of the refusal or `-`.
fn write_number(reply: Reply, out: &mut [u8], at: usize) -> usize
    requires { at + field_max ≤ length out.old }
    ensures { Wrote (field (number_field reply)) out.old at result out.new × (result ≤ at + field_max) }
{
    match reply {
        Reply::Unknown => text::write_field(out, at, b"-"),
        Reply::Answered { number, .. } => text::write_field(out, at, u64::from(number)),
    }
}

// The results of a reply.
fn results_of(reply: Reply) -> Results
    ensures { result ≡ results_of reply }
{
    match reply {
        Reply::Unknown => Results::Empty,
        Reply::Answered { results, .. } => results,
    }
}

// Writes numbers.
fn write_signed(numbers: &[i64], out: &mut [u8], at: usize) -> usize
    requires { at + length numbers.now * field_max ≤ length out.old }
    ensures { Wrote (fields (map signed_decimal numbers.now)) out.old at result out.new × (result ≤ at + length numbers.now * field_max) }
{
    let mut next = at;
    for number in numbers {
        next = text::write_field(out, next, *number);
    }
    next
}

// Writes payloads.
fn write_payloads(payloads: &[u64], out: &mut [u8], at: usize) -> usize
    requires { at + length payloads.now * field_max ≤ length out.old }
    ensures { Wrote (fields (map decimal payloads.now)) out.old at result out.new × (result ≤ at + length payloads.now * field_max) }
{
    let mut next = at;
    for payload in payloads {
        next = text::write_field(out, next, *payload);
    }
    next
}

// Writes so many payloads, or as many as there are; `-` for none.
fn write_read(payloads: &[u64], count: usize, out: &mut [u8], at: usize) -> usize
    requires { at + results_max (length payloads.now) ≤ length out.old }
    ensures { Wrote (fields (payload_fields (take count payloads.now))) out.old at result out.new × (result ≤ at + results_max (length payloads.now)) }
{
    let listed = &payloads[..count.min(payloads.len())];
    if listed.is_empty() {
        return text::write_field(out, at, b"-");
    }
    write_payloads(listed, out, at)
}

// Writes the results.
fn write_results(results: Results, payloads: &[u64], out: &mut [u8], at: usize) -> usize
    requires { at + results_max (length payloads.now) ≤ length out.old }
    ensures { Wrote (fields (result_fields results payloads.now)) out.old at result out.new × (result ≤ at + results_max (length payloads.now)) }
{
    match results {
        Results::Empty => at,
        Results::Absent => text::write_field(out, at, b"-"),
        Results::One(a) => write_signed(&[a], out, at),
        Results::Two(a, b) => write_signed(&[a, b], out, at),
        Results::Three {
            first,
            second,
            third,
        } => write_signed(&[first, second, third], out, at),
        Results::Payloads(count) => write_read(payloads, count, out, at),
    }
}

// Writes a command's word.
fn write_word(row: usize, out: &mut [u8], at: usize) -> usize
    requires { at + word_max ≤ length out.old }
    ensures { Wrote (word_at row) out.old at result out.new × (result ≤ at + word_max) }
{
    text::write_bytes(out, at, command::word_at(row))
}

// Writes a line.
fn write_line(
    out: &mut [u8],
    at: usize,
    row: usize,
    reply: Reply,
    log: usize,
    flushed: usize,
    payloads: &[u64],
) -> usize
    requires { at + line_max (length payloads.now) ≤ length out.old }
    ensures { Wrote (reply_line row reply log flushed payloads.now) out.old at result out.new × (result ≤ at + line_max (length payloads.now)) }
{
    let next = write_word(row, out, at);
    let next = write_number(reply, out, next);
    let next = text::write_field(out, next, log as u64);
    let next = text::write_field(out, next, flushed as u64);
    let next = write_results(results_of(reply), payloads, out, next);
    text::write_bytes(out, next, b"\n")
}

// Writes the line of a reply at a place. Nothing is written where the buffer is too short for some lines with so many payloads.
pub fn render(
    out: &mut [u8],
    at: usize,
    row: usize,
    reply: Reply,
    log: usize,
    flushed: usize,
    payloads: &[u64],
) -> Option<usize>
    ensures answer { result ≡ render_answer row reply log flushed payloads.now out.old at }
    ensures bytes { out.new ≡ render_bytes row reply log flushed payloads.now out.old at }
    ensures within { Within result (length out.old) }
{
    if out.len() < at {
        return None;
    }
    let room = (out.len() - at) / FIELD_MAX;
    if room < FIELDS_FIXED {
        return None;
    }
    if room - FIELDS_FIXED < payloads.len() {
        return None;
    }
    Some(write_line(out, at, row, reply, log, flushed, payloads))
}
