ghost use Rattle.std.specs.Prelude.{◌≡◌};
ghost use Rattle.xa_model.specs.State.{State};
ghost use Rattle.xa_sequencer.specs.Believed.GroupManager.{alone};

use crate::desks::opened;
use crate::tests::posted::call_of;
use std::alloc::Global;
use std::marker::Brand;
use xa_codes::XA_OK;
use xa_disk::MemDisk;
use xa_history::Start;
use xa_manager::{Asked, Manager};
use xa_sequencer::{Manages, Sequencer};

/// Before the group.
const BEFORE: [&str; 5] = [
    "1 open TMNOFLAGS xarm",
    "2 open TMNOFLAGS xarm",
    "1 start TMNOFLAGS 1:aa:",
    "1 put 6b 76",
    "1 end TMSUCCESS 1:aa:",
];

/// The group's one call.
const PREPARE: &str = "1 prepare TMNOFLAGS 1:aa:";

/// What another session asks while it is pending.
const WORK: [&str; 4] = [
    "2 start TMNOFLAGS 1:bb:",
    "2 put 6c 76",
    "2 end TMSUCCESS 1:bb:",
    "2 timeout 5",
];

/// What has to wait for it.
const WAITS: [&str; 3] = [
    "2 prepare TMNOFLAGS 1:bb:",
    "2 start TMJOIN 1:aa:",
    "1 close TMNOFLAGS",
];

// Whether a line is answered by 0, with the number after the one before; or, if it has to wait, is given back.
fn is_told<M: Manages, S: Start>(
    alloc: Global,
    sequencer: &mut Sequencer<M, S>,
    line: &str,
    waits: bool,
) -> Option<bool> {
    let (session, request) = call_of(alloc, line)?;
    let next = sequencer.count().checked_add(1)?;
    Some(match sequencer.call(session, request) {
        Ok(reply) => !waits && reply.code == XA_OK && reply.place == next,
        Err(_) => waits,
    })
}

pub fn are_told<M: Manages, S: Start>(
    alloc: Global,
    sequencer: &mut Sequencer<M, S>,
    lines: &[&str],
    wait: bool,
) -> Option<bool> {
    let mut are_right = true;
    for line in lines {
        are_right &= is_told(alloc, sequencer, line, wait)?;
    }
    Some(are_right)
}

fn begins<M: Manages, S: Start>(alloc: Global, sequencer: &mut Sequencer<M, S>) -> Option<bool> {
    let (session, request) = call_of(alloc, PREPARE)?;
    let mut group = Vec::new(alloc);
    group.push(Asked { session, request }).ok()?;
    if !sequencer.is_settled() {
        return None;
    }
    Some(sequencer.begin_group(group).is_ok() && !sequencer.is_settled())
}

// Whether the group's call is answered by 0, with this number.
fn finishes<M: Manages, S: Start>(sequencer: &mut Sequencer<M, S>, number: u64) -> Option<bool> {
    if sequencer.is_settled() {
        return None;
    }
    let (replies, calls) = sequencer.finish_group(sequencer.syncer().sync());
    let is_right = replies.iter().all(|told| told.0 == 0
        && told.1.code == XA_OK
        && told.1.place == number);
    Some(is_right && replies.len() == 1 && calls.len() == 1 && sequencer.is_settled())
}

// Whether, with a group pending, a session connects and hangs up again, while the one that asks for its call waits.
fn come_and_go<M: Manages, S: Start>(sequencer: &mut Sequencer<M, S>) -> bool {
    sequencer.connect().ok() == Some(3)
        && sequencer.hangup(3) == Some(true)
        && sequencer.hangup(3) == Some(false)
        && sequencer.hangup(1).is_none()
        && sequencer.status().sessions == 2
}

fn works_meanwhile<M: Manages + Drop, S: Start>(alloc: Global, manager: M) -> Option<bool>
    requires start { (s : State) → S.start s → M.manages.stands (alone manager) s }
    requires base { M.manages.failures (alone manager) ≡ S.base }
{
    let mut sequencer: Sequencer<M, S> = Sequencer::new(manager);
    let are_connected = sequencer.connect().ok() == Some(1) && sequencer.connect().ok() == Some(2);
    let is_ready = are_told(alloc, &mut sequencer, &BEFORE, false)?;
    let begins = begins(alloc, &mut sequencer)?;
    let works = are_told(alloc, &mut sequencer, &WORK, false)?;
    let wait = are_told(alloc, &mut sequencer, &WAITS, true)?;
    let come = come_and_go(&mut sequencer);
    let finishes = finishes(&mut sequencer, 14)?;
    let goes_on = is_told(alloc, &mut sequencer, "2 prepare TMNOFLAGS 1:bb:", false)?;
    Some(are_connected && is_ready && begins && works && wait && come && finishes && goes_on)
}

#[test]
fn sessions_work_while_a_group_is_pending(rt: HostRuntime) {
    let manager = opened(rt.alloc()).expect(&rt, "a manager");
    let found = works_meanwhile::<Manager<MemDisk>, Brand>(rt.alloc(), manager);
    assert!(rt; found == Some(true));
}
