// A command line as a command: its word and its fields.
#![tactic(auto)]

ghost use Rattle.std.specs.Prelude.{◌≡◌, unwrap_or};
ghost use Rattle.numbers.specs.Bytes.{same};
ghost use Rattle.fields.specs.Numbers.{natural};
ghost use Rattle.command.specs.Words.{word_at, row_of};
ghost use Rattle.command.specs.declared.Command.TheVariants.{Unknown};
ghost use Rattle.command.specs.Command.{one_number, ReadsChange, init_of, add_of, end_of, tick_of, flush_of, put_of, command_at, command_of, row_of_command};

use fields::{Fields, Part};

// The limits of specs/Limits.antt, under the same names.
pub const WORD_MAX: usize = 5;

pub const COMMANDS: usize = 10;

// The words of the commands, and `?` for a line that is no command.
const WORDS: [&[u8]; COMMANDS + 1] = [
    b"init", b"add", b"end", b"tick", b"flush", b"put", b"carry", b"read", b"cut", b"left", b"?",
];

// The commands of document 01's listing, with `tick` and `left`; and a line that is none of them, which is answered as they are, under a word of its own.
// A name is a part of the line and not its bytes, since `command_lines` prints where it stands.
#[derive(Clone, Copy)]
pub enum Command {
    Init {
        name: Part,
        timeout: i32,
        time: i64,
    },
    Add {
        name: Part,
        pid: i64,
        epoch: i16,
        set: u64,
        time: i64,
    },
    End {
        name: Part,
        pid: i64,
        epoch: i16,
        verdict: u64,
        time: i64,
    },
    Tick {
        time: i64,
    },
    Flush,
    Put {
        name: Part,
        pid: i64,
        epoch: i16,
        position: u64,
        sequence: i32,
        payload: u64,
    },
    Carry {
        up: u64,
    },
    Read {
        position: u64,
    },
    Cut {
        kept: u64,
    },
    Left {
        place: u64,
    },
    Unknown,
}

// The numbers of an Add or End behind its name.
#[derive(Clone, Copy)]
struct Change {
    pid: i64,
    epoch: i16,
    value: u64,
    time: i64,
}

// ---- Words.

// The word in a row of the table. The last row stands for every row past it.
pub fn word_at(row: usize) -> &'static [u8]
    ensures { result.now ≡ word_at row }
{
    WORDS[row.min(COMMANDS)]
}

// Whether a run of bytes is a word.
fn is_word(run: &[u8], word: &[u8]) -> bool
    ensures { result ≡ same run.now word.now }
{
    run == word
}

// The row of the command with this word; the last row if there is none: a place in the table of words, which the listing prints `?` from.
fn row_of(run: &[u8]) -> usize
    ensures { result ≡ row_of run.now }
{
    let mut words = WORDS[..COMMANDS].iter();
    words
        .position(|word| is_word(run, word))
        .unwrap_or(COMMANDS)
}

// ---- Commands. A line with another number of fields, or with a field that is no number of its type, is none.

// The one number of a line that has no other field behind its word.
fn one_number(fields: &Fields<'_>) -> Option<u64>
    ensures { natural result ≡ one_number fields.now.line.now }
{
    if !fields.has_exactly(2) {
        return None;
    }
    fields.unsigned_64(1)
}

#[tactic(auto, unfolding(crate::specs::Command::init_of))]
fn init_of(fields: &Fields<'_>) -> Option<Command>
    ensures { unwrap_or result Unknown ≡ init_of fields.now.line.now }
{
    if !fields.has_exactly(4) {
        return None;
    }
    Some(Command::Init {
        name: fields.part(1),
        timeout: fields.signed_32(2)?,
        time: fields.signed_64(3)?,
    })
}

// Add and End have the same fields.
fn change_of(fields: &Fields<'_>) -> Option<Change>
    ensures { ReadsChange fields.now.line.now result }
{
    if !fields.has_exactly(6) {
        return None;
    }
    Some(Change {
        pid: fields.signed_64(2)?,
        epoch: fields.signed_16(3)?,
        value: fields.unsigned_64(4)?,
        time: fields.signed_64(5)?,
    })
}

#[tactic(auto, unfolding(crate::specs::Command::add_of))]
fn add_of(fields: &Fields<'_>) -> Option<Command>
    ensures { unwrap_or result Unknown ≡ add_of fields.now.line.now }
{
    let change = change_of(fields)?;
    Some(Command::Add {
        name: fields.part(1),
        pid: change.pid,
        epoch: change.epoch,
        set: change.value,
        time: change.time,
    })
}

#[tactic(auto, unfolding(crate::specs::Command::end_of))]
fn end_of(fields: &Fields<'_>) -> Option<Command>
    ensures { unwrap_or result Unknown ≡ end_of fields.now.line.now }
{
    let change = change_of(fields)?;
    Some(Command::End {
        name: fields.part(1),
        pid: change.pid,
        epoch: change.epoch,
        verdict: change.value,
        time: change.time,
    })
}

#[tactic(auto, unfolding(crate::specs::Command::tick_of))]
fn tick_of(fields: &Fields<'_>) -> Option<Command>
    ensures { unwrap_or result Unknown ≡ tick_of fields.now.line.now }
{
    if !fields.has_exactly(2) {
        return None;
    }
    Some(Command::Tick {
        time: fields.signed_64(1)?,
    })
}

#[tactic(auto, unfolding(crate::specs::Command::flush_of))]
fn flush_of(fields: &Fields<'_>) -> Option<Command>
    ensures { unwrap_or result Unknown ≡ flush_of fields.now.line.now }
{
    if !fields.has_exactly(1) {
        return None;
    }
    Some(Command::Flush)
}

#[tactic(auto, unfolding(crate::specs::Command::put_of))]
fn put_of(fields: &Fields<'_>) -> Option<Command>
    ensures { unwrap_or result Unknown ≡ put_of fields.now.line.now }
{
    if !fields.has_exactly(7) {
        return None;
    }
    Some(Command::Put {
        name: fields.part(1),
        pid: fields.signed_64(2)?,
        epoch: fields.signed_16(3)?,
        position: fields.unsigned_64(4)?,
        sequence: fields.signed_32(5)?,
        payload: fields.unsigned_64(6)?,
    })
}

// The command of a line with the word in this row.
#[tactic(auto, unfolding(crate::specs::Command::command_at, crate::specs::Command::carry_of, crate::specs::Command::read_of, crate::specs::Command::cut_of, crate::specs::Command::left_of))]
fn in_row(row: usize, fields: &Fields<'_>) -> Option<Command>
    ensures { unwrap_or result Unknown ≡ command_at row fields.now.line.now }
{
    match row {
        0 => init_of(fields),
        1 => add_of(fields),
        2 => end_of(fields),
        3 => tick_of(fields),
        4 => flush_of(fields),
        5 => put_of(fields),
        6 => Some(Command::Carry {
            up: one_number(fields)?,
        }),
        7 => Some(Command::Read {
            position: one_number(fields)?,
        }),
        8 => Some(Command::Cut {
            kept: one_number(fields)?,
        }),
        9 => Some(Command::Left {
            place: one_number(fields)?,
        }),
        _ => None,
    }
}

// The command that a line is, whatever its bytes.
#[tactic(auto, unfolding(crate::specs::Command::command_of))]
pub fn parse(line: &[u8]) -> Command
    ensures { result ≡ command_of line.now }
{
    let fields = fields::split(line);
    let row = row_of(fields.field(0));
    in_row(row, &fields).unwrap_or(Command::Unknown)
}

// The row of a command's word.
pub fn row_of_command(command: Command) -> usize
    ensures { result ≡ row_of_command command }
{
    match command {
        Command::Init { .. } => 0,
        Command::Add { .. } => 1,
        Command::End { .. } => 2,
        Command::Tick { .. } => 3,
        Command::Flush => 4,
        Command::Put { .. } => 5,
        Command::Carry { .. } => 6,
        Command::Read { .. } => 7,
        Command::Cut { .. } => 8,
        Command::Left { .. } => 9,
        Command::Unknown => 10,
    }
}
