ghost use Rattle.std.specs.Prelude.{◌≡◌, ◌+◌, ◌≤◌, [], IfSome, length};
ghost use Rattle.xa_model.specs.State.{State};
ghost use Rattle.xa_sequencer.specs.Believed.GroupManager.{alone};
ghost use Rattle.xa_tokens.specs.Believed.Account.{Owes, account};
ghost use Rattle.xa_tokens.specs.Believed.View.{all_parts};

use crate::desks::opened;
use crate::tests::told::Told;
use std::alloc::Global;
use std::marker::Brand;
use std::rt::Clock;
use std::sync::Wait;
use std::thread::{Threads, map_vec};
use xa_codes::XA_OK;
use xa_desk::Door;
use xa_disk::MemDisk;
use xa_frame::{Reply, Request, Status};
use xa_handles::{Handle, SharedSequencer, Tally};
use xa_history::{Receipt, Start, placed};
use xa_manager::{Manager, connect_reply};
use xa_model::Event;
use xa_room::Room;
use xa_sequencer::{Manages, Sequencer};
use xa_tokens::{Book, Opened, Share};

// Callers of a new room, each at a handle of its own.

/// A door at which sessions connect, too.
pub trait Asks: Door {
    /// None if nobody can.
    fn connect(&mut self) -> Option<u64>;
}

/// What callers do, and what is wanted of it.
pub trait Visit {
    /// What one does. Whether it was answered as it is to be.
    fn visit<D: Asks>(&self, alloc: Global, caller: &mut D) -> bool;

    /// Whether these receipts of the room, with this many lost, and those of all callers are as they are to be.
    fn judge(&self, alloc: Global, kept: &[Receipt], lost: u64, told: Vec<Receipt>) -> bool;
}

/// Whoever asks at a handle, and keeps a receipt of what it was told. Its share has one part.
#[derive(Drop)]
struct Caller<'a, M: Manages, S: Start, B: Book, R> {
    handle: Handle<'a, M, S, B, R>,
    told: Told,
    ghost part: { handle.asker.parts ≡ 1 },
}

/// What it has in the end.
#[derive(Drop)]
struct Done<B: Book> {
    share: Share<B>,
    told: Told,
    ghost part: { share.parts ≡ 1 },
    ghost owes: { Owes share 0 },
}

impl<'a, M: Manages, S: Start, B: Book, R: Clock + Wait> Caller<'a, M, S, B, R> {
    fn new(
        rt: &'a R,
        sequencer: &'a SharedSequencer<M, S, B>,
        tally: &'a Tally,
        share: Share<B>,
        alloc: Global,
    ) -> Option<Caller<'a, M, S, B, R>>
        requires { share ≡ account 1 [] [] [] }
    {
        let handle = Handle::new(rt, sequencer, tally, share, alloc).ok()?;
        Some(Caller {
            handle,
            told: Told::new(alloc),
        })
    }

    // None if it is owed an answer.
    fn into_done(self, is_right: bool) -> Option<Done<B>> {
        let Caller { handle, mut told } = self;
        if handle.owed() != 0 {
            return None;
        }
        told.is_whole = is_right && told.rises();
        Some(Done {
            share: handle.into_share(),
            told,
        })
    }
}

impl<M: Manages, S: Start, B: Book, R: Clock + Wait> Asks for Caller<'_, M, S, B, R> {
    fn connect(&mut self) -> Option<u64> {
        let (session, place) = self.handle.connect();
        let reply = placed(connect_reply(session), place);
        self.told.keep(Event::Connect, &reply);
        session.ok()
    }
}

impl<M: Manages, S: Start, B: Book, R: Clock + Wait> Door for Caller<'_, M, S, B, R> {
    ghost called = { λ _ _ _ _ _. Unit {0} };

    ghost left = { λ _ _ _. Unit {0} };

    fn call(&mut self, session: u64, request: Request) -> Reply {
        let copy = self.told.copied(&request);
        let held = self.handle.hold();
        let (reply, held) = self.handle.call_held(held, session, request);
        drop(held);
        self.told.keep_call(session, copy, &reply);
        reply
    }

    fn status(&self) -> Status {
        self.handle.status()
    }

    fn hangup(&mut self, session: u64) {
        let (was_connected, place) = self.handle.hangup(session);
        if was_connected {
            let reply = placed(Reply::plain(XA_OK), place);
            self.told.keep(Event::Hangup(session), &reply);
        }
    }
}

fn carry_out<M: Manages, S: Start, B: Book, V: Visit, R: Clock + Wait>(
    alloc: Global,
    visit: &V,
    caller: Caller<'_, M, S, B, R>,
) -> Option<Done<B>> {
    let mut caller = caller;
    let is_right = visit.visit(alloc, &mut caller);
    caller.into_done(is_right)
}

// So many callers, and the rest of the share.
fn make_callers<'a, M: Manages, S: Start, B: Book, R: Clock + Wait>(
    rt: &'a R,
    alloc: Global,
    sequencer: &'a SharedSequencer<M, S, B>,
    tally: &'a Tally,
    share: Share<B>,
    count: usize,
) -> Option<(Vec<Caller<'a, M, S, B, R>>, Share<B>)>
    requires count { count ≤ 8 }
    requires whole { share ≡ account all_parts [] [] [] }
    ensures parts { IfSome result (λ made. made.1.parts + length made.0.items ≡ all_parts) }
    ensures owes { IfSome result (λ made. Owes made.1 0) }
{
    let mut rest = share;
    let mut callers = Vec::new(alloc);
    for _i in 0..count {
        let one = sequencer.split(&mut rest);
        let caller = Caller::new(rt, sequencer, tally, one, alloc)?;
        callers.push(caller).ok()?;
    }
    Some((callers, rest))
}

// All that callers have in the end, with the rest of the share, if all were right.
fn gather<M: Manages, S: Start, B: Book>(
    alloc: Global,
    sequencer: &SharedSequencer<M, S, B>,
    rest: Share<B>,
    dones: Vec<Option<Done<B>>>,
) -> Option<(Share<B>, Told)>
    requires { Owes rest 0 }
    ensures parts { IfSome result (λ all. all.0.parts ≡ rest.parts + length dones.items) }
    ensures owes { IfSome result (λ all. Owes all.0 0) }
{
    let mut dones = dones;
    let mut all = rest;
    let mut told = Told::new(alloc);
    while let Some(done) = dones.pop() {
        let Done { share, told: more } = done?;
        sequencer.merge(&mut all, share);
        told.add(more);
    }
    Some((all, told))
}

fn visited_by<
    M: Manages + Send + Drop,
    S: Start + Send + Sync,
    B: Book + Send + Sync,
    V: Visit + Sync,
    R: Clock + Threads + Wait + Sync,
>(rt: &R, alloc: Global, manager: M, history: Opened, callers: usize, visit: &V) -> Option<bool>
    requires start { (s : State) → S.start s → M.manages.stands (alone manager) s }
    requires base { M.manages.failures (alone manager) ≡ S.base }
    requires name { history ≡ B.table }
    requires callers { callers ≤ 8 }
{
    let room: Room<M, S> = Room::new(alloc, manager);
    let sequencer: Sequencer<Room<M, S>, S> = Sequencer::new(room);
    let (shared, share) = SharedSequencer::<Room<M, S>, S, B>::new(alloc, sequencer, history);
    let tally = Tally::new(alloc).ok()?;
    let (callers, rest) = make_callers(rt, alloc, &shared, &tally, share, callers)?;
    let dones = map_vec(rt, callers, &|caller| carry_out(alloc, visit, caller)).ok()?;
    let (share, told) = gather(alloc, &shared, rest, dones)?;
    let room = shared.into_sequencer(share).into_manager();
    Some(told.is_whole && visit.judge(alloc, room.receipts(), room.lost(), told.receipts))
}

/// Whether this many callers at once, at most eight, are answered as they are to be, and what a new room over a new manager keeps
/// of that is as it is to be.
pub fn is_visited<V: Visit + Sync, R: AllocGlobal + Clock + Threads + Wait + Sync>(
    rt: &R,
    callers: usize,
    visit: &V,
) -> bool
    requires { callers ≤ 8 }
{
    let found = match (opened(rt.alloc()), Opened::new(rt.alloc())) {
        (Some(manager), Ok(history)) => visited_by::<Manager<MemDisk>, Brand, Brand, V, R>(
            rt,
            rt.alloc(),
            manager,
            history,
            callers,
            visit,
        ),
        _ => None,
    };
    found == Some(true)
}
