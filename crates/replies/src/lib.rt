// The answer of the program `rigrun` to a line: parsed, performed and rendered.
#![tactic(auto)]

ghost use Rattle.std.specs.Prelude.{◌≡◌, ◌+◌, ◌≤◌, leb, length};
ghost use Rattle.text.specs.Lines.{Wrote};
ghost use Rattle.session.specs.Memory.{memory};
ghost use Rattle.session.specs.Replies.{reply_of};
ghost use Rattle.replies.specs.Shown.{is_command, shows_none, line_shown};
ghost use Rattle.replies.specs.Reply.{room_for, responded};
ghost use Rattle.replies.specs.Rendering.{own_numbers, results_rendered, answer_rendered, reply_rendered};

use command::Command;
use listing::Reply;
use session::{Response, Results, Session};

// ---- What is shown.

// Whether a line is a command.
fn is_command(command: Command) -> bool
    ensures { result ≡ is_command command }
{
    command::row_of_command(command) < command::COMMANDS
}

// Whether `-` stands where an accepted command has no results.
fn shows_none(command: Command) -> bool
    ensures { result ≡ shows_none command }
{
    matches!(
        command,
        Command::Init { .. } | Command::Tick { .. } | Command::Carry { .. } | Command::Read { .. }
    )
}

// The results that are listed as numbers of their own.
fn own_numbers(response: Response) -> Option<[u64; 3]>
    ensures { result ≡ own_numbers response }
{
    match response {
        Ok(Results::Place(place)) => Some([place as u64, 0, 0]),
        Ok(Results::Offset(offset)) => Some([offset as u64, 0, 0]),
        Ok(
            Results::Carried {
                place,
                position,
                verdict,
            },
        ) => Some([place as u64, position as u64, verdict]),
        Ok(Results::Left(count)) => Some([u64::from(count), 0, 0]),
        _ => None,
    }
}

// The results of an accepted command, with so many payloads lent.
fn results_rendered(dash: bool, results: Results, lent: usize) -> listing::Results
    ensures { result ≡ results_rendered dash results lent }
{
    let none = if dash {
        listing::Results::Absent
    } else {
        listing::Results::Empty
    };
    match results {
        Results::Producer { pid, epoch } => listing::Results::Two(pid, i64::from(epoch)),
        Results::Place(_) | Results::Offset(_) | Results::Left(_) => listing::Results::Payloads(1),
        Results::Carried { .. } => listing::Results::Payloads(3),
        Results::Payloads(count) if count != 0 && lent != 0 => listing::Results::Payloads(count),
        Results::Nothing | Results::Payloads(_) => none,
    }
}

// A refusal has its number and no results.
fn answer_rendered(dash: bool, response: Response, lent: usize) -> Reply
    ensures { result ≡ answer_rendered dash response lent }
{
    match response {
        Ok(results) => Reply::Answered {
            number: 0,
            results: results_rendered(dash, results, lent),
        },
        Err(error) => Reply::Answered {
            number: u8::from(error),
            results: listing::Results::Empty,
        },
    }
}

// What is rendered of a response, with so many payloads lent.
fn reply_rendered(command: Command, response: Response, lent: usize) -> Reply
    ensures { result ≡ reply_rendered command response lent }
{
    if !is_command(command) {
        return Reply::Unknown;
    }
    answer_rendered(shows_none(command), response, lent)
}

// ---- Writing it.

// Writes the answer line where every answer fits; the result is its length.
fn write_reply(
    out: &mut [u8],
    command: Command,
    response: Response,
    end: usize,
    flushed: usize,
    payloads: &[u64],
) -> usize
    requires { room_for (length payloads.now) ≤ length out.old }
    ensures { Wrote (line_shown command (reply_of response payloads.now) end flushed) out.old 0 result out.new × (result ≤ length out.old) }
{
    let row = command::row_of_command(command);
    let reply = reply_rendered(command, response, payloads.len());
    let own = own_numbers(response);
    let listed = match &own {
        Some(own) => own.as_slice(),
        None => payloads,
    };
    listing::render(out, 0, row, reply, end, flushed, listed).unwrap_or(0)
}

// Whether n bytes hold every answer with so many payloads.
fn has_room(n: usize, payloads: usize) -> bool
    ensures { result ≡ leb (room_for payloads) n }
{
    let room = n / listing::FIELD_MAX;
    if room < listing::FIELDS_FIXED + 3 {
        return false;
    }
    payloads <= room - (listing::FIELDS_FIXED + 3)
}

// ---- A line.

// Answers a line of any bytes: what it does to the session and the buffers, and how many bytes of the answer were written; none, and so 0 as `responded` says, where the buffer is too short for some answers.
pub fn respond(
    s: &mut Session,
    line: &[u8],
    log: &mut [u8],
    words: &mut [u64],
    payloads: &mut [u64],
    out: &mut [u8],
) -> usize
    ensures { (record { written = result; memory = memory s.new log.new words.new payloads.new; out = out.new } ≡ responded line.now (memory s.old log.old words.old payloads.old) out.old) × (result ≤ length out.new) }
{
    if !has_room(out.len(), payloads.len()) {
        return 0;
    }
    let command = command::parse(line);
    let response = session_commands::perform(s, command, line, log, words, payloads);
    let end = s.coordinator.table.end;
    let flushed = s.coordinator.flushed;
    write_reply(out, command, response, end, flushed, payloads)
}
