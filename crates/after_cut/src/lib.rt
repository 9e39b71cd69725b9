// What a cut of a session's log leads to: the log is opened at the length left, and all that is left to carry is carried.
#![tactic(auto)]

ghost use Rattle.std.specs.Prelude.{◌≡◌, []};
ghost use Rattle.coordinator.specs.Order.{order};
ghost use Rattle.session.specs.Memory.{memory};
ghost use Rattle.session.specs.Commands.{performed};
ghost use Rattle.cut_outcomes.specs.Outcomes.{outcome};
ghost use Rattle.after_cut.specs.AfterCut.{everything, carries_max, is_order, round, carried_all, after_cut};

use command::Command;
use coordinator::Coordinator;
use session::Session;

// The limit of specs/AfterCut.antt, under the same name.
const CARRIES_MAX: usize = answers::PLACES * session::PARTITIONS;

// Whether something is left to carry.
fn is_left(c: &Coordinator) -> bool
    ensures { result ≡ is_order (order c.now everything) }
{
    completion::order(c, u64::MAX).is_some()
}

// Does a command without a name, whatever it answers. The session and its buffers stand apart here and below, as `session_commands::perform` is lent them.
fn perform(
    s: &mut Session,
    command: Command,
    log: &mut [u8],
    words: &mut [u64],
    payloads: &mut [u64],
)
    ensures { memory s.new log.new words.new payloads.new ≡ (performed command [] (memory s.old log.old words.old payloads.old)).memory }
{
    let _ = session_commands::perform(s, command, b"", log, words, payloads);
}

// Carries one order with all partitions up, and flushes all.
fn carry_one(s: &mut Session, log: &mut [u8], words: &mut [u64], payloads: &mut [u64])
    ensures { memory s.new log.new words.new payloads.new ≡ round (memory s.old log.old words.old payloads.old) }
{
    let carry = Command::Carry { up: u64::MAX };
    perform(s, carry, log, words, payloads);
    perform(s, Command::Flush, log, words, payloads);
}

// Carries until nothing is left.
fn carry_all(s: &mut Session, log: &mut [u8], words: &mut [u64], payloads: &mut [u64])
    ensures { memory s.new log.new words.new payloads.new ≡ carried_all carries_max (memory s.old log.old words.old payloads.old) }
{
    for _ in 0..CARRIES_MAX {
        if !is_left(&s.coordinator) {
            return;
        }
        carry_one(s, log, words, payloads);
    }
}

// Cuts the log at a length, opens it again and carries all.
pub fn after_cut(
    s: &mut Session,
    length: usize,
    log: &mut [u8],
    words: &mut [u64],
    payloads: &mut [u64],
)
    ensures { memory s.new log.new words.new payloads.new ≡ after_cut length (memory s.old log.old words.old payloads.old) }
{
    let kept = (length as u64).saturating_sub(s.coordinator.flushed as u64);
    let cut = Command::Cut { kept };
    perform(s, cut, log, words, payloads);
    carry_all(s, log, words, payloads);
}

// The outcome of a cut, of the coordinator before it and after all was carried.
pub fn outcome(before: &Coordinator, after: &Coordinator) -> u64
    ensures { result ≡ outcome before.now.flushed before.now.table after.now.table }
{
    cut_outcomes::outcome(before.flushed, &before.table, &after.table)
}
