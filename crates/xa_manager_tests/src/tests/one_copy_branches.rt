use std::alloc::{AllocError, Global};
use std::collections::BTreeMap;

/// A get of a key with what it was answered, or a put or a delete of it. Values are numbers.
#[derive(Clone, Copy, Debug, PartialEq, Eq)]
pub enum Operation {
    Got(u8, Option<u64>),
    Wrote(u8, Option<u64>),
}

/// What a branch did, in order, and whether it was committed.
#[derive(Drop)]
pub struct Branch {
    committed: bool,
    operations: Vec<Operation>,
}

/// Branches by timestamp.
pub type Branches = BTreeMap<u64, Branch>;

/// A branch begins. Returns whether no other one had its timestamp.
pub fn begin(alloc: Global, branches: &mut Branches, timestamp: u64) -> Result<bool, AllocError> {
    let branch = Branch {
        committed: false,
        operations: Vec::new(alloc),
    };
    match branches.insert(timestamp, branch)? {
        Some(_) => Ok(false),
        None => Ok(true),
    }
}

/// A branch that began did this.
pub fn note(
    branches: &mut Branches,
    timestamp: u64,
    operation: Operation,
) -> Result<(), AllocError> {
    if let Some(branch) = branches.get_mut(&timestamp) {
        branch.operations.push(operation)?;
    }
    Ok(())
}

/// A branch was committed.
pub fn commit(branches: &mut Branches, timestamp: u64) {
    if let Some(branch) = branches.get_mut(&timestamp) {
        branch.committed = true;
    }
}

/// Executes a branch alone on a map, and returns whether each get found there what it was answered.
fn finds_answers(
    map: &mut BTreeMap<u8, u64>,
    operations: &[Operation],
) -> Result<bool, AllocError> {
    let mut finds = true;
    for operation in operations {
        match *operation {
            Operation::Got(key, answer) => {
                if map.get(&key).copied() != answer {
                    finds = false;
                }
            }
            Operation::Wrote(key, Some(value)) => {
                map.insert(key, value)?;
            }
            Operation::Wrote(key, None) => {
                map.remove(&key);
            }
        }
    }
    Ok(finds)
}

/// Executes branches by timestamp, on a map that is empty at first: the committed ones, or all.
pub fn is_one_copy(alloc: Global, branches: &Branches, all: bool) -> Result<bool, AllocError> {
    let mut map = BTreeMap::new(alloc);
    let mut finds = true;
    for (_, branch) in branches {
        let is_executed = all || branch.committed;
        if is_executed && !finds_answers(&mut map, branch.operations.as_slice())? {
            finds = false;
        }
    }
    Ok(finds)
}

// The checker alone: lists of branches that are one copy, and that are none.

/// A branch's timestamp, what it did, and whether it was committed.
type Row = (u64, Operation, bool);

/// Rows in the order in which they happened, and whether they are one copy.
const ROWS: [(&[Row], bool); 5] = [
    // A read finds the last write below it, whichever came first.
    (
        &[
            (2, Operation::Got(1, None), true),
            (3, Operation::Got(1, Some(5)), true),
            (1, Operation::Wrote(2, Some(4)), true),
        ],
        false,
    ),
    (
        &[
            (3, Operation::Wrote(1, Some(6)), true),
            (1, Operation::Wrote(1, Some(5)), true),
            (2, Operation::Got(1, Some(5)), true),
        ],
        true,
    ),
    // A write that wasn't committed is read by nobody who was.
    (
        &[
            (1, Operation::Wrote(1, Some(5)), false),
            (2, Operation::Got(1, Some(5)), true),
        ],
        false,
    ),
    (
        &[
            (1, Operation::Wrote(1, Some(5)), false),
            (2, Operation::Got(1, Some(5)), false),
        ],
        true,
    ),
    // A delete takes away what was there.
    (
        &[
            (1, Operation::Wrote(1, Some(5)), true),
            (2, Operation::Wrote(1, None), true),
            (3, Operation::Got(1, Some(5)), true),
        ],
        false,
    ),
];

fn checked(alloc: Global, rows: &[Row]) -> Result<bool, AllocError> {
    let mut branches = BTreeMap::new(alloc);
    for (timestamp, operation, committed) in rows {
        begin(alloc, &mut branches, *timestamp)?;
        note(&mut branches, *timestamp, *operation)?;
        if *committed {
            commit(&mut branches, *timestamp);
        }
    }
    is_one_copy(alloc, &branches, false)
}

fn is_checked(alloc: Global, rows: &[Row], want: bool) -> bool {
    checked(alloc, rows) == Ok(want) || checked(alloc, rows) == Ok(want)
}

/// The index of the first of these lists that is taken for what it isn't.
pub fn wrong_check(alloc: Global) -> Option<usize> {
    for (index, (rows, want)) in ROWS.iter().enumerate() {
        if !is_checked(alloc, rows, *want) {
            return Some(index);
        }
    }
    None
}
