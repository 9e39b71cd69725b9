// Who wins the race of request 14 of document 02: whether the bench can force a completed commit on a board, whatever the line blocks.
#![tactic(auto)]

ghost use Rattle.std.specs.Prelude.{◌≡◌};
ghost use Rattle.race.specs.Limits.{invalid_board};
ghost use Rattle.race.specs.Search.{left_after_block, can_serve, can_force, inside, race_answer};
ghost use Rattle.race.specs.Results.{answer_of};

// The limits and the refusal of specs/Limits.antt, under the same names.
pub const PARTITIONS_MAX: u64 = 6;

pub const COUNT_MAX: u64 = 12;

pub const INVALID_BOARD: u8 = 30;

// "A board has one BEGIN with 1 to 6 partitions, and 0 to 12 each of rounds until its timeout, rounds in all and blocks."
#[derive(Clone, Copy, Debug, PartialEq, Eq)]
pub struct Board {
    pub partitions: u64,
    pub timeout: u64,
    pub rounds: u64,
    pub blocks: u64,
}

// Says that a board is outside these numbers.
#[derive(Clone, Copy, Debug, PartialEq, Eq)]
pub struct InvalidBoard;

impl From<InvalidBoard> for u8 {
    // The number of the refusal.
    fn from(_: InvalidBoard) -> u8
        ensures { result ≡ invalid_board }
    {
        INVALID_BOARD
    }
}

// The partitions left after a round in which one of them was blocked.
fn left_after_block(left: u64) -> u64
    ensures { result ≡ left_after_block left }
{
    if left <= 1 { left } else { left - 1 }
}

// Whether the bench can serve the partitions left in the rounds left, the run being ended.
fn can_serve(rounds: u64, left: u64, blocks: u64) -> bool
    ensures { result ≡ can_serve rounds left blocks }
{
    left == 0
        || (rounds != 0
            && can_serve(rounds - 1, left - 1, blocks)
            && (blocks == 0 || can_serve(rounds - 1, left_after_block(left), blocks - 1)))
}

// Whether the bench can end the run before its timeout and serve its partitions in the rounds left.
fn can_force(rounds: u64, until: u64, left: u64, blocks: u64) -> bool
    ensures { result ≡ can_force rounds until left blocks }
{
    rounds != 0
        && until != 0
        && can_serve(rounds - 1, left, blocks)
        && (blocks == 0 || can_force(rounds - 1, until - 1, left, blocks - 1))
}

// Whether a board has the numbers of document 02.
fn inside(board: Board) -> bool
    ensures { result ≡ inside board }
{
    (1..=PARTITIONS_MAX).contains(&board.partitions)
        && board.timeout <= COUNT_MAX
        && board.rounds <= COUNT_MAX
        && board.blocks <= COUNT_MAX
}

// Whether the bench can force a completed commit; or the board is refused.
pub fn race(board: Board) -> Result<bool, InvalidBoard>
    ensures { answer_of result ≡ race_answer board }
{
    if !inside(board) {
        return Err(InvalidBoard);
    }
    Ok(can_force(board.rounds, board.timeout, board.partitions, board.blocks))
}
