//! Several loops.
ghost use Rattle.std.specs.Prelude.{◌≡◌, IfOk, length, map};
ghost use Rattle.xa_reactor.specs.Believed.Tending.{HasTended, HaveObeyed, HaveTended, SeedsHaveTended};
ghost use Rattle.std.specs.Option.{option_map};
ghost use Rattle.xa_reactor.specs.Users.{users_of};
ghost use Rattle.xa_reactor.specs.declared.loops.LoopFault.TheVariants.{Memory, Wait};

use crate::common::{Common, Logins, Settings};
use crate::listener::Listener;
use crate::mailbox::Mailbox;
use crate::noticing::WAKER;
use crate::place::Strangers;
use crate::reception::Reception;
use crate::socket::Socket;
use crate::tending::tend;
use crate::watch::Watch;
use mio::{Poll, Waker};
use std::alloc::AllocError;
use std::io;
use std::io::Print;
use std::net::Net;
use std::random::RandomSource;
use std::rt::Clock;
use std::sync::Wait;
use std::thread::{Threads, map_vec};
use thiserror::Error;
use xa_users::Users;

/// Why no loop has run, or what they ended with is lost.
#[derive(Clone, Copy, Debug, PartialEq, Eq, Error)]
pub enum LoopFault {
    #[error("no memory")]
    Memory,
    /// The system gives nothing to wait for connections by.
    #[error("cannot wait for connections")]
    Wait,
    /// It can't be told that all is ready.
    #[error("cannot write")]
    Write,
    /// The system gives no random bytes, which logins need.
    #[error("no random bytes")]
    Random,
}

impl From<AllocError> for LoopFault {
    ghost from_gives = { λ _ fault. fault ≡ Memory };

    fn from(_: AllocError) -> LoopFault {
        LoopFault::Memory
    }
}

impl From<io::Error> for LoopFault {
    ghost from_gives = { λ _ fault. fault ≡ Wait };

    fn from(_: io::Error) -> LoopFault {
        LoopFault::Wait
    }
}

/// What a loop begins with.
#[derive(Drop)]
struct Seed<D> {
    index: usize,
    poll: Poll,
    door: D,
}

/// What a loop ended with: its door, whether it could wait for events to the end, what was asked of it, and the connection
/// that asked the server to end, if it came to this loop: it is closed as this is dropped.
#[derive(Debug, Drop)]
pub struct Ended<D> {
    pub door: D,
    pub is_whole: bool,
    pub settings: Settings,
    pub stopper: Option<Socket>,
}

/// Serves the connections of a listener by a loop for each door, each in a thread of its own, or not at all if no
/// thread can be made. Once each has what it waits by, `ready` is printed, twice if the listener is a port's and a Unix
/// socket's. Then the first one that begins accepts, and hands connections to those that have begun, in turn. They
/// end after this many connections, when the manager is down, or when one of them can't wait for events; if none of these
/// is asked or comes, never.
///
/// If there are users, a connection is answered only what the role may ask that it has shown by logging in as one of them;
/// if there are none, whoever connects may ask everything.
///
/// Each session that a loop connected at its door it hung up there, once, and only in between it answered it, and posted
/// its calls. Where nothing that was posted was left to be answered when it began, nothing is when it ends.
pub fn run_loops<
    D: Reception + Send + Drop,
    R: AllocGlobal + Clock + Print + Eprint + Net + RandomSource + Threads + Wait + Sync,
>(
    rt: &R,
    listener: Listener,
    watch: &Watch,
    doors: Vec<D>,
    users: Option<&Users>,
    settings: Settings,
) -> Result<Vec<Ended<D>>, LoopFault>
    ensures count { IfOk result (λ ended. length ended.items ≡ length doors.items) }
    ensures tended { IfOk result (λ ended. HaveTended D.posts (option_map (λ u. u.now) users.entry) D.connected D.called D.left D.is_settled
        doors.items ended.items) }
    ensures asked { IfOk result (λ ended. HaveObeyed settings ended.items) }
{
    let (seeds, boxes) = prepare(rt, doors)?;
    let mut key = [0u8; 32];
    if users.is_some() && rt.fill_bytes(&mut key).is_err() {
        return Err(LoopFault::Random);
    }
    let logins = Logins {
        users,
        key,
        strangers: Strangers::new(rt.alloc())?,
    };
    if rt.println(listener.ready_lines()).is_err() {
        return Err(LoopFault::Write);
    }
    let common = Common::new(settings, boxes, watch, listener, logins, rt.alloc());
    Ok(run_all(rt, &common, seeds)?)
}

// Each loop runs in a thread of its own, or after another if no thread can be made.
fn run_all<
    D: Reception + Send + Drop,
    R: AllocGlobal + Clock + Eprint + RandomSource + Threads + Wait + Sync,
>(rt: &R, common: &Common<'_>, seeds: Vec<Seed<D>>) -> Result<Vec<Ended<D>>, AllocError>
    ensures count { IfOk result (λ ended. length ended.items ≡ length seeds.items) }
    ensures tended { IfOk result (λ ended. SeedsHaveTended D.posts (users_of common.now) D.connected D.called D.left D.is_settled
        seeds.items ended.items) }
    ensures asked { IfOk result (λ ended. HaveObeyed common.now.settings ended.items) }
{
    map_vec(
        rt,
        seeds,
        &|seed: Seed<D>| -> Ended<D>
            ensures { HasTended D.posts (users_of common.entry.now) D.connected D.called D.left D.is_settled seed.door result.door
                × (result.settings ≡ common.entry.now.settings) }
        { run_loop(rt, common, seed) },
    )
}

fn run_loop<D: Reception, R: AllocGlobal + Clock + Eprint + RandomSource + Wait>(
    rt: &R,
    common: &Common<'_>,
    seed: Seed<D>,
) -> Ended<D>
    ensures tended { HasTended D.posts (users_of common.now) D.connected D.called D.left D.is_settled seed.door result.door }
    ensures asked { result.settings ≡ common.now.settings }
{
    let Seed {
        index,
        poll,
        mut door,
    } = seed;
    let (is_whole, stopper) = tend(rt, common, index, poll, &mut door);
    Ended {
        door,
        is_whole,
        settings: common.settings,
        stopper,
    }
}

// A seed for each door, and a mailbox for each seed.
fn prepare<D: Drop, R: AllocGlobal + Net>(
    rt: &R,
    doors: Vec<D>,
) -> Result<(Vec<Seed<D>>, Vec<Mailbox>), LoopFault>
    ensures { IfOk result (λ made. map (λ s. s.door) made.0.items ≡ doors.items) }
{
    let mut seeds = Vec::new(rt.alloc());
    let mut boxes = Vec::new(rt.alloc());
    for door in doors {
        let poll = Poll::new(rt)?;
        let waker = Waker::new(poll.registry(), WAKER)?;
        let index = boxes.len();
        boxes
            .push(Mailbox::new(rt.alloc(), waker))
            .map_err(AllocError::from)?;
        seeds
            .push(Seed { index, poll, door })
            .map_err(AllocError::from)?;
    }
    Ok((seeds, boxes))
}
