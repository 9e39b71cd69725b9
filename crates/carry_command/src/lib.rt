// The command `carry`: the order that Order gives is taken to its partition, and what that answers back.
#![tactic(auto)]

ghost use Rattle.coordinator.specs.Order.{order};
ghost use Rattle.session.specs.Commands.{carried, delivers, acknowledges, PerformsOnLog, PerformsOnBoth};

use answers::Order;
use session::{Response, Results, Session};

// The Ack of an order that its partition answered done.
fn acknowledge(s: &mut Session, log: &mut [u8], order: Order) -> Response
    ensures { PerformsOnLog (acknowledges order.place order.pid order.epoch order.verdict order.position) s.old log.old result s.new log.new }
{
    completion::ack(
        &mut s.coordinator,
        log,
        order.place,
        order.pid,
        order.epoch,
        order.position,
    )?;
    Ok(Results::Carried {
        place: order.place,
        position: order.position,
        verdict: order.verdict,
    })
}

// An order is given to its partition: Marker, then Ack.
fn deliver(s: &mut Session, log: &mut [u8], words: &mut [u64], order: Order) -> Response
    ensures { PerformsOnBoth (delivers order.place order.pid order.epoch order.verdict order.position order.coordinator) s.old log.old words.old result s.new log.new words.new }
{
    let index = session::index_of(order.position);
    let start = session::words_start(words.len(), index);
    let past = start + words.len() / session::PARTITIONS;
    partition::marker(
        &mut s.partitions[index],
        &mut words[start..past],
        order.place,
        order.pid,
        order.epoch,
        order.verdict,
        order.coordinator,
    )?;
    acknowledge(s, log, order)
}

// `carry UP`.
pub fn carry(s: &mut Session, log: &mut [u8], words: &mut [u64], up: u64) -> Response
    ensures { PerformsOnBoth (carried (order s.old.coordinator up)) s.old log.old words.old result s.new log.new words.new }
{
    let Some(order) = completion::order(&s.coordinator, up) else {
        return Ok(Results::Nothing);
    };
    deliver(s, log, words, order)
}
