// What the calls answer, as document 01 has it: done with its results, or refused; how many places an answer can name; and one test of a call.
#![tactic(auto)]

ghost use Rattle.std.specs.Prelude.{◌≡◌};
ghost use Rattle.answers.specs.declared.OpenError.TheVariants.{Refused};
ghost use Rattle.answers.specs.Returned.{number_of, open_number_of, refused_if};

// The limit of specs/Limits.antt, under the same name.
pub const PLACES: usize = 32;

// The refusals of document 01, in the order of their numbers. A bad log, its 6, has an offset and stands in `OpenError`.
#[derive(Clone, Copy, Debug, PartialEq, Eq)]
pub enum Refusal {
    InvalidName,
    InvalidTimeout,
    InvalidSet,
    InvalidVerdict,
    InvalidCatalogue,
    InvalidNumber,
    InvalidLength,
    UnknownProducer,
    WrongEpoch,
    NotFlushed,
    WrongStatus,
    Busy,
    TooManyNames,
    PidsSpent,
    NoLogRoom,
    NotJoined,
    SequenceGap,
    RepeatedSequence,
    StaleCoordinator,
    NoPartitionRoom,
}

// The number of a refusal in document 01.
impl From<Refusal> for u8 {
    ghost from_gives = { λ refusal number. number ≡ number_of refusal };

    fn from(refusal: Refusal) -> u8 {
        match refusal {
            Refusal::InvalidName => 1,
            Refusal::InvalidTimeout => 2,
            Refusal::InvalidSet => 3,
            Refusal::InvalidVerdict => 4,
            Refusal::InvalidCatalogue => 5,
            Refusal::InvalidNumber => 7,
            Refusal::InvalidLength => 8,
            Refusal::UnknownProducer => 10,
            Refusal::WrongEpoch => 11,
            Refusal::NotFlushed => 12,
            Refusal::WrongStatus => 13,
            Refusal::Busy => 14,
            Refusal::TooManyNames => 15,
            Refusal::PidsSpent => 16,
            Refusal::NoLogRoom => 17,
            Refusal::NotJoined => 18,
            Refusal::SequenceGap => 19,
            Refusal::RepeatedSequence => 20,
            Refusal::StaleCoordinator => 21,
            Refusal::NoPartitionRoom => 22,
        }
    }
}

// Why an opening is refused: its log has a bad frame, whose offset is answered, or for another reason.
#[derive(Clone, Copy, Debug, PartialEq, Eq)]
pub enum OpenError {
    BadLog { offset: usize },
    Refused(Refusal),
}

impl From<Refusal> for OpenError {
    ghost from_gives = { λ refusal error. error ≡ Refused refusal };

    fn from(refusal: Refusal) -> OpenError {
        OpenError::Refused(refusal)
    }
}

// The number of a refused opening in document 01.
impl From<OpenError> for u8 {
    ghost from_gives = { λ error number. number ≡ open_number_of error };

    fn from(error: OpenError) -> u8 {
        match error {
            OpenError::BadLog { offset: _ } => 6,
            OpenError::Refused(refusal) => u8::from(refusal),
        }
    }
}

// What Init gives: the pid and epoch of the producer, or that its transaction is being aborted.
#[derive(Clone, Copy, Debug, PartialEq, Eq)]
pub enum Initialized {
    Given { pid: i64, epoch: i16 },
    Aborting,
}

// What an order carries, with the coordinator's epoch.
#[derive(Clone, Copy, Debug, PartialEq, Eq)]
pub struct Order {
    pub place: usize,
    pub pid: i64,
    pub epoch: i16,
    pub verdict: u64,
    pub position: usize,
    pub coordinator: i32,
}

// What Read gives: how many payloads were copied, and the next offset.
#[derive(Clone, Copy, Debug, PartialEq, Eq)]
pub struct Copied {
    pub count: usize,
    pub next: usize,
}

// One test of a call: its refusal, where it applies.
pub fn refuse_if(applies: bool, refusal: Refusal) -> Result<(), Refusal>
    ensures { result ≡ refused_if applies refusal }
{
    if applies {
        return Err(refusal);
    }
    Ok(())
}
