/// How a branch is to end. Its number stands in records and in frames.
#[derive(Clone, Copy, Debug, PartialEq, Eq)]
pub enum Direction {
    Commit = 1,
    Rollback = 2,
}

const COMMIT: u8 = Direction::Commit as u8;

const ROLLBACK: u8 = Direction::Rollback as u8;
