// Reads command lines and writes what each is: its word, where its name stands, and the numbers of its fields, in lines of the listing's form.
#![tactic(auto)]

use command::Command;
use fields::Part;
use input_lines::Step;
use listing::{Reply, Results};
use std::io;

// A short buffer, so that many lines do not fit it.
const LINE_ROOM: usize = 128;

const OUT_ROOM: usize = 512;

// Writes a line.
fn print(
    rt: &impl Print,
    row: usize,
    reply: Reply,
    first: usize,
    second: usize,
    payloads: &[u64],
) -> io::Result<()> {
    let mut out = [0u8; OUT_ROOM];
    let rendered = listing::render(&mut out, 0, row, reply, first, second, payloads);
    if let Some(end) = rendered {
        if end <= OUT_ROOM {
            rt.write_all(&out[..end])?;
        }
    }
    Ok(())
}

// Writes numbers of a command, and where its name stands.
fn print_named(
    rt: &impl Print,
    row: usize,
    number: u8,
    results: Results,
    name: Part,
    payloads: &[u64],
) -> io::Result<()> {
    let reply = Reply::Answered { number, results };
    print(rt, row, reply, name.from, name.len, payloads)
}

fn print_two(rt: &impl Print, row: usize, a: i64, b: i64, name: Part) -> io::Result<()> {
    print_named(rt, row, 0, Results::Two(a, b), name, &[])
}

fn print_three(
    rt: &impl Print,
    row: usize,
    first: i64,
    second: i64,
    third: i64,
    name: Part,
) -> io::Result<()> {
    let results = Results::Three {
        first,
        second,
        third,
    };
    print_named(rt, row, 0, results, name, &[])
}

fn print_payloads(rt: &impl Print, row: usize, a: u64, b: u64, name: Part) -> io::Result<()> {
    print_named(rt, row, 0, Results::Payloads(2), name, &[a, b])
}

fn print_one(rt: &impl Print, row: usize, a: u64) -> io::Result<()> {
    print_payloads(rt, row, a, a, Part { from: 0, len: 0 })
}

fn print_other(rt: &impl Print, row: usize, reply: Reply) -> io::Result<()> {
    print(rt, row, reply, 1, usize::MAX, &[])
}

// Writes a command of a producer: its pid and epoch, one more signed number, and two others.
fn print_producer(
    rt: &impl Print,
    row: usize,
    name: Part,
    pid: i64,
    epoch: i16,
    number: i64,
    a: u64,
    b: u64,
) -> io::Result<()> {
    print_three(rt, row, pid, i64::from(epoch), number, name)?;
    print_payloads(rt, row, a, b, name)
}

// Writes what a command without a name is; the numbers of `flush` show two digits.
fn print_nameless(rt: &impl Print, row: usize, c: Command) -> io::Result<()> {
    match c {
        Command::Tick { time } => print_two(rt, row, time, time, Part { from: 0, len: 0 }),
        Command::Flush => print_other(
            rt,
            row,
            Reply::Answered {
                number: 22,
                results: Results::Empty,
            },
        ),
        Command::Carry { up } => print_one(rt, row, up),
        Command::Read { position } => print_one(rt, row, position),
        Command::Cut { kept } => print_one(rt, row, kept),
        Command::Left { place } => print_one(rt, row, place),
        _ => print_other(rt, row, Reply::Unknown),
    }
}

// Writes what a command is.
fn print_command(rt: &impl Print, c: Command) -> io::Result<()> {
    let row = command::row_of_command(c);
    match c {
        Command::Init {
            name,
            timeout,
            time,
        } => print_two(rt, row, i64::from(timeout), time, name),
        Command::Add {
            name,
            pid,
            epoch,
            set,
            time,
        } => print_producer(rt, row, name, pid, epoch, time, set, 0),
        Command::End {
            name,
            pid,
            epoch,
            verdict,
            time,
        } => print_producer(rt, row, name, pid, epoch, time, verdict, 0),
        Command::Put {
            name,
            pid,
            epoch,
            position,
            sequence,
            payload,
        } => {
            let number = i64::from(sequence);
            print_producer(rt, row, name, pid, epoch, number, position, payload)
        }
        _ => print_nameless(rt, row, c),
    }
}

// Writes what a line is that was read. One that did not fit the buffer is no command.
fn print_step(rt: &impl Print, buffer: &[u8], step: Step) -> io::Result<()> {
    match step {
        Step::Line { from, len, .. } => {
            print_command(rt, command::parse(input_lines::part(buffer, from, len)))
        }
        Step::Long { .. } => print_command(rt, Command::Unknown),
        _ => Ok(()),
    }
}

fn main(rt: HostRuntime) -> io::Result<()> {
    let mut input = rt.stdin();
    let mut buffer = [0u8; LINE_ROOM];
    let mut cursor = input_lines::start();
    for _ in 0..u64::MAX {
        let step = input_lines::next(&mut input, &mut buffer, cursor)?;
        if input_lines::is_end(step) {
            break;
        }
        print_step(&rt, &buffer, step)?;
        cursor = input_lines::behind(step);
    }
    Ok(())
}
