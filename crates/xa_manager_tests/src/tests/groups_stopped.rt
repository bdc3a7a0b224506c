//! Calls that are asked together, after which a disk stops, or the repair fails: some first part of them stands.
use crate::tests::group_play::Player;
use crate::tests::grouped::{CRASHED, GROUPS, Grouped};
use crate::tests::rows::none_wrong;
use std::alloc::Global;
use xa_model::Appending::{self, Kept, Lost};
use xa_rows::{Line, OK, P1, Play, RESTART, first_wrong};

// Nobody is answered until a restart, and no group is formed.
const DOWN: [Line; 3] = [
    ("1 get 6b", "-7 Nothing"),
    ("2 recover TMSTARTRSCAN|TMENDRSCAN 10", "-7 Nothing"),
    ("3 prepare TMNOFLAGS 1:aa:", "-7 Nothing"),
];

const CRASHED_WITH_ALL: Play = &[&[("crash 16777216", OK)], &P1];

const RESTARTED: Play = &[&RESTART];

fn is_down(alloc: Global, group: &Grouped, player: Player) -> Option<Player> {
    group.ask_first(alloc, player.part(&DOWN)?, 0)
}

/// What is planned of device calls, what becomes of the records, what comes then, and whether all records are found, or
/// none.
type Stop = (&'static [&'static str], Appending, Play, bool);

// The first call writes all records, and the second one syncs them: there is no third. A repair writes zeros over them
// and syncs these.
const STOPS: [Stop; 10] = [
    (&["stop 1"], Lost, CRASHED, false),
    (&["stop 1"], Lost, CRASHED_WITH_ALL, false),
    (&["stop 2"], Lost, CRASHED, false),
    (&["stop 2"], Lost, CRASHED_WITH_ALL, true),
    (&["stop 3"], Kept, CRASHED, true),
    (&["stop other 1"], Kept, CRASHED, true),
    (&["fail 1 lost", "fail 2 lost"], Lost, RESTARTED, false),
    (&["fail 1 kept", "fail 2 lost"], Lost, RESTARTED, true),
    (&["fail 2 lost", "fail 3 lost"], Lost, RESTARTED, true),
    (&["fail 2 lost", "fail 3 kept"], Lost, RESTARTED, false),
];

fn stops(alloc: Global, group: &Grouped, stop: &Stop) -> Option<Player> {
    let (plans, became, then, is_found) = *stop;
    let mut player = group.begun(alloc)?;
    for plan in plans {
        player = player.line(plan, "")?;
    }
    player = group.ask(alloc, player, became)?;
    if became == Lost {
        player = is_down(alloc, group, player)?;
    }
    let count = if is_found { group.places.len() } else { 0 };
    group.finds(player.play(then)?, count)
}

fn wrong_stop(alloc: Global, group: &Grouped, rows: &[Stop]) -> Option<usize> {
    for (index, row) in rows.iter().enumerate() {
        if stops(alloc, group, row).is_none() && stops(alloc, group, row).is_none() {
            return Some(index);
        }
    }
    None
}

fn wrong_stopped(alloc: Global, groups: &[Grouped], rows: &[Stop]) -> Option<usize> {
    for (index, group) in groups.iter().enumerate() {
        if wrong_stop(alloc, group, rows).is_some() {
            return Some(index);
        }
    }
    None
}

#[test]
fn groups_that_stop(rt: HostRuntime) {
    none_wrong(&rt, wrong_stopped(rt.alloc(), &GROUPS, &STOPS));
}

const UNSYNCED: [Line; 1] = [("stop 2", "")];

// A crash leaves `bytes` bytes of a group that was written and not synced, in which `count` records stand.
fn cuts(alloc: Global, group: &Grouped, bytes: u64, count: usize) -> Option<Player> {
    let player = group.begun(alloc)?.part(&UNSYNCED)?;
    let player = group.ask(alloc, player, Lost)?;
    let crash = format!(in alloc; "crash {bytes}").ok()?;
    let player = player.line(crash.as_str(), OK)?.part(&P1)?;
    group.finds(player, count)
}

fn is_cut(alloc: Global, group: &Grouped, bytes: u64, count: usize) -> bool {
    cuts(alloc, group, bytes, count).is_some() || cuts(alloc, group, bytes, count).is_some()
}

// Cut within a record: after its length, in its body, before the last byte of its digest; and at its end.
fn is_cut_there(alloc: Global, group: &Grouped, from: u64, end: u64, count: usize) -> bool {
    is_cut(alloc, group, from.saturating_add(4), count)
        && is_cut(alloc, group, from.saturating_add(9), count)
        && is_cut(alloc, group, end.saturating_sub(1), count)
        && is_cut(alloc, group, end, count.saturating_add(1))
}

fn wrong_cut(alloc: Global, group: &Grouped) -> Option<usize> {
    let mut from = 0;
    for (count, end) in group.ends.iter().enumerate() {
        if !is_cut_there(alloc, group, from, *end, count) {
            return Some(count);
        }
        from = *end;
    }
    None
}

fn wrong_cuts(alloc: Global, groups: &[Grouped]) -> Option<usize> {
    first_wrong(groups, |group| wrong_cut(alloc, group) == None)
}

#[test]
fn groups_that_are_cut(rt: HostRuntime) {
    none_wrong(&rt, wrong_cuts(rt.alloc(), &GROUPS));
}
