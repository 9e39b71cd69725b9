// Values that a call script puts into a state, where calls would take too many lines to get there: an id's epoch, a producer's last sequence.
#![tactic(auto)]

use coordinator::Coordinator;
use partition::Partition;

// Gives the id at a place this epoch. `None`, with nothing changed, where the place holds no id, or the epoch is none in which a transaction may begin.
pub fn set_epoch(c: &mut Coordinator, place: usize, epoch: i16) -> Option<()> {
    let epoch = u16::try_from(epoch).ok()?;
    let row = c.table.rows.get_mut(place)?;
    if row::free(*row) || row::EPOCH_LAST < epoch {
        return None;
    }
    row.epoch = epoch;
    Some(())
}

// Gives the producer at a place this last sequence. `None`, with nothing changed, where the place has no producer, or the sequence is below 0.
pub fn set_sequence(p: &mut Partition, place: usize, sequence: i32) -> Option<()> {
    let sequence = u32::try_from(sequence).ok()?;
    let producer = p.producers.get_mut(place)?;
    if producer.pid == partition::NO_PID {
        return None;
    }
    producer.sequence = sequence;
    Some(())
}
