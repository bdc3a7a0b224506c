//! Calls that are asked together, and are kept or refused; and calls that aren't in the group.
use crate::tests::group_play::{NUMBER, Player, Told};
use crate::tests::grouped::{
    AT_WORK, CRASHED, GROUPS, Grouped, LIST_A, LIST_AB, LIST_AC, LIST_B, LIST_BC, LIST_C, P3,
    THREE, VOTED,
};
use crate::tests::rows::none_wrong;
use std::alloc::Global;
use xa_model::Appending::{Kept, Refused};
use xa_rows::{LOG_BYTES, Line, NONE_LISTED, OK, Play, first_wrong};

// Each row is tried once more, so that a test passes whichever allocation fails.

fn keeps(alloc: Global, group: &Grouped) -> Option<Player> {
    let player = group.begun(alloc)?;
    let player = group.ask_apart(alloc, player, Kept)?;
    group.finds(player, group.places.len())
}

fn is_kept(alloc: Global, group: &Grouped) -> bool {
    keeps(alloc, group).is_some() || keeps(alloc, group).is_some()
}

fn wrong_kept(alloc: Global, groups: &[Grouped]) -> Option<usize> {
    first_wrong(groups, |group| is_kept(alloc, group))
}

#[test]
fn groups_that_are_kept(rt: HostRuntime) {
    none_wrong(&rt, wrong_kept(rt.alloc(), &GROUPS));
}

// The write fails, or the sync, with its effect or without it.
const FAILS: [Line; 4] = [
    ("fail 1 lost", ""),
    ("fail 1 kept", ""),
    ("fail 2 lost", ""),
    ("fail 2 kept", ""),
];

fn refused(alloc: Global, group: &Grouped, fails: &Line) -> Option<Player> {
    let player = group.begun(alloc)?.part(&[*fails])?;
    group.ask(alloc, player, Refused)
}

// The calls are asked again, and the records are found then.
fn asks_again(alloc: Global, group: &Grouped, fails: &Line) -> Option<Player> {
    let player = refused(alloc, group, fails)?.play(group.left)?;
    let player = group.ask_first(alloc, player, group.again)?;
    group.finds(player.play(CRASHED)?, group.again)
}

// They aren't, and none is found.
fn finds_none(alloc: Global, group: &Grouped, fails: &Line) -> Option<Player> {
    let player = refused(alloc, group, fails)?;
    group.finds(player.play(CRASHED)?, 0)
}

fn is_refused(alloc: Global, group: &Grouped, fails: &Line) -> bool {
    asks_again(alloc, group, fails).is_some() && finds_none(alloc, group, fails).is_some()
}

fn wrong_fail(alloc: Global, group: &Grouped, fails: &[Line]) -> Option<usize> {
    first_wrong(
        fails,
        |fails| is_refused(alloc, group, fails) || is_refused(alloc, group, fails),
    )
}

fn wrong_refused(alloc: Global, groups: &[Grouped], fails: &[Line]) -> Option<usize> {
    first_wrong(groups, |group| wrong_fail(alloc, group, fails) == None)
}

#[test]
fn groups_that_are_refused(rt: HostRuntime) {
    none_wrong(&rt, wrong_refused(rt.alloc(), &GROUPS, &FAILS));
}

/// The bytes of a log, what is played before calls are asked together, the calls, what those of the group are told, and
/// what is played then.
type Apart = (u64, Play, &'static [&'static str], &'static [Told], Play);

const THREE_PREPARES: &[&str] = &[
    "1 prepare TMNOFLAGS 1:aa:",
    "2 prepare TMNOFLAGS 1:bb:",
    "3 prepare TMNOFLAGS 1:cc:",
];

const TWO_PREPARES_AND_COMMIT: &[&str] = &[
    "1 prepare TMNOFLAGS 1:aa:",
    "2 prepare TMNOFLAGS 1:bb:",
    "3 commit TMONEPHASE 1:cc:",
];

const IS_PREPARED: [Line; 1] = [("2 prepare TMNOFLAGS 1:aa:", "-6 Nothing")];

const IS_GONE: [Line; 1] = [("2 rollback TMNOFLAGS 1:aa:", "-4 Nothing")];

const NOT_AT_ONCE: [Line; 1] = [("1 commit TMONEPHASE 1:aa:", "-6 Nothing")];

const READ_ONLY: [Line; 6] = [
    ("1 start TMNOFLAGS 1:dd:", NUMBER),
    ("1 get 77", "0 Nothing absent"),
    ("1 end TMSUCCESS 1:dd:", OK),
    ("1 start TMNOFLAGS 1:ee:", NUMBER),
    ("1 get 77", "0 Nothing absent"),
    ("1 end TMSUCCESS 1:ee:", OK),
];

const READ_ONLY_ENDS: [Line; 4] = [
    ("1 prepare TMNOFLAGS 1:dd:", "3 Nothing"),
    ("1 prepare TMNOFLAGS 1:dd:", "-4 Nothing"),
    ("2 commit TMONEPHASE 1:ee:", OK),
    ("2 commit TMONEPHASE 1:ee:", "-4 Nothing"),
];

const UNKNOWN: [Line; 2] = [
    ("1 prepare TMNOFLAGS 1:ee:", "-4 Nothing"),
    ("2 commit TMNOFLAGS 1:ff:", "-4 Nothing"),
];

const UNOPENED: [Line; 1] = [("connect", "0 Nothing number 4")];

const UNHEARD: [Line; 4] = [
    ("9 prepare TMNOFLAGS 1:aa:", "-6 Nothing"),
    ("4 prepare TMNOFLAGS 1:bb:", "-6 Nothing"),
    ("1 prepare TMNOFLAGS 1:aa:", OK),
    ("2 prepare TMASYNC 1:bb:", "-2 Nothing"),
];

const ROLLED_BACK: [Line; 3] = [
    ("1 rollback TMNOFLAGS 1:aa:", OK),
    ("1 rollback TMNOFLAGS 1:aa:", "-4 Nothing"),
    ("1 start TMNOFLAGS 1:dd:", NUMBER),
];

const DOOMED: [Line; 1] = [("1 doom 1:aa:", OK)];

const DOOMED_ENDS: [Line; 2] = [
    ("1 prepare TMNOFLAGS 1:aa:", "104 Nothing"),
    ("1 prepare TMNOFLAGS 1:aa:", "-4 Nothing"),
];

const ALL_AT_WORK: [Line; 3] = [
    ("1 prepare TMNOFLAGS 1:aa:", OK),
    ("2 prepare TMNOFLAGS 1:bb:", OK),
    ("3 prepare TMNOFLAGS 1:cc:", OK),
];

const NO_ROOM: [Line; 2] = [
    ("3 prepare TMNOFLAGS 1:cc:", "104 LogFull"),
    ("3 prepare TMNOFLAGS 1:cc:", "-4 Nothing"),
];

const NO_ROOM_AT_ONCE: [Line; 2] = [
    ("3 commit TMONEPHASE 1:cc:", "104 LogFull"),
    ("3 commit TMONEPHASE 1:cc:", "-4 Nothing"),
];

const APART: [Apart; 10] = [
    // The same XID: prepares come first.
    (
        LOG_BYTES,
        AT_WORK,
        &[
            "1 prepare TMNOFLAGS 1:aa:",
            "2 prepare TMNOFLAGS 1:aa:",
            "3 prepare TMNOFLAGS 1:cc:",
        ],
        &[(0, OK), (2, OK)],
        &[&IS_PREPARED, &LIST_AC],
    ),
    (
        LOG_BYTES,
        VOTED,
        &["1 commit TMNOFLAGS 1:aa:", "2 rollback TMNOFLAGS 1:aa:"],
        &[(0, OK)],
        &[&IS_GONE, &LIST_BC],
    ),
    (
        LOG_BYTES,
        AT_WORK,
        &["1 commit TMONEPHASE 1:aa:", "2 prepare TMNOFLAGS 1:aa:"],
        &[(1, OK)],
        &[&NOT_AT_ONCE, &LIST_A],
    ),
    // Branches that wrote nothing.
    (
        LOG_BYTES,
        &[&P3, &THREE, &READ_ONLY],
        &[
            "1 prepare TMNOFLAGS 1:dd:",
            "2 commit TMONEPHASE 1:ee:",
            "3 prepare TMNOFLAGS 1:bb:",
        ],
        &[(2, OK)],
        &[&LIST_B, &READ_ONLY_ENDS],
    ),
    // Unknown XIDs.
    (
        LOG_BYTES,
        AT_WORK,
        &[
            "1 prepare TMNOFLAGS 1:ee:",
            "2 commit TMNOFLAGS 1:ff:",
            "3 prepare TMNOFLAGS 1:bb:",
        ],
        &[(2, OK)],
        &[&UNKNOWN, &LIST_B],
    ),
    // Sessions that aren't connected or opened, and a flag that no call has.
    (
        LOG_BYTES,
        &[&P3, &THREE, &UNOPENED],
        &[
            "9 prepare TMNOFLAGS 1:aa:",
            "4 prepare TMNOFLAGS 1:bb:",
            "3 prepare TMNOFLAGS 1:cc:",
            "2 prepare TMASYNC 1:bb:",
        ],
        &[(2, OK)],
        &[&LIST_C, &UNHEARD, &LIST_AC],
    ),
    // Calls that log nothing.
    (
        LOG_BYTES,
        AT_WORK,
        &[
            "1 rollback TMNOFLAGS 1:aa:",
            "1 start TMNOFLAGS 1:dd:",
            "2 recover TMSTARTRSCAN|TMENDRSCAN 10",
            "2 prepare TMNOFLAGS 1:bb:",
            "3 trim",
            "3 restart",
        ],
        &[(3, OK)],
        &[&ROLLED_BACK, &LIST_B],
    ),
    // A marked branch.
    (
        LOG_BYTES,
        &[&P3, &THREE, &DOOMED],
        &["1 prepare TMNOFLAGS 1:aa:", "2 prepare TMNOFLAGS 1:bb:"],
        &[(1, OK)],
        &[&DOOMED_ENDS, &LIST_B],
    ),
    // None is in the group.
    (
        LOG_BYTES,
        AT_WORK,
        &["1 commit TMNOFLAGS 1:aa:", "9 prepare TMNOFLAGS 1:bb:"],
        &[],
        &[&NONE_LISTED, &ALL_AT_WORK],
    ),
    (LOG_BYTES, AT_WORK, &[], &[], &[&NONE_LISTED, &ALL_AT_WORK]),
];

// The log ends at 49. Each record has 60 bytes, and 4 are kept for the closing length. For each branch that is prepared
// 343 bytes are kept, to complete it and to forget it.
const ROOM: [Apart; 6] = [
    (
        859,
        AT_WORK,
        THREE_PREPARES,
        &[(0, OK), (1, OK)],
        &[&NO_ROOM, &LIST_AB],
    ),
    (
        1_261,
        AT_WORK,
        THREE_PREPARES,
        &[(0, OK), (1, OK)],
        &[&NO_ROOM, &LIST_AB],
    ),
    (
        1_262,
        AT_WORK,
        THREE_PREPARES,
        &[(0, OK), (1, OK), (2, OK)],
        &[],
    ),
    (
        858,
        AT_WORK,
        THREE_PREPARES,
        &[(0, OK)],
        &[&NO_ROOM, &LIST_A],
    ),
    (
        918,
        AT_WORK,
        TWO_PREPARES_AND_COMMIT,
        &[(0, OK), (1, OK)],
        &[&NO_ROOM_AT_ONCE, &LIST_AB],
    ),
    (
        919,
        AT_WORK,
        TWO_PREPARES_AND_COMMIT,
        &[(0, OK), (1, OK), (2, OK)],
        &[&LIST_AB],
    ),
];

fn leaves_out(alloc: Global, row: &Apart) -> Option<Player> {
    let (log_bytes, before, calls, told, then) = *row;
    Player::new(alloc, log_bytes)?
        .play(before)?
        .together(calls, told)?
        .play(then)
}

fn wrong_apart(alloc: Global, rows: &[Apart]) -> Option<usize> {
    for (index, row) in rows.iter().enumerate() {
        if leaves_out(alloc, row).is_none() && leaves_out(alloc, row).is_none() {
            return Some(index);
        }
    }
    None
}

#[test]
fn calls_that_are_not_in_the_group(rt: HostRuntime) {
    none_wrong(&rt, wrong_apart(rt.alloc(), &APART));
}

#[test]
fn groups_with_too_little_room(rt: HostRuntime) {
    none_wrong(&rt, wrong_apart(rt.alloc(), &ROOM));
}
