ghost use Rattle.std.specs.Prelude.{◌≡◌, ◌↔◌, ◌+◌, ◌<◌, ◌≤◌, ◌⊎◌, ℕ, List, IfErr, IfOk, IsErrOf, length, map, sum_by};
ghost use Rattle.xa_model.specs.State.{State};
ghost use Rattle.std.specs.{List.AllByRecursion, Option.option_map};
ghost use Rattle.xa_server.specs.Believed.Loops.{AllLoop, IsFresh, ServesByLoops, ServesTo, told_by};
ghost use Rattle.xa_server.specs.Believed.Watching.{IsSeenLast};
ghost use Rattle.xa_sequencer.specs.Believed.GroupManager.{alone};
ghost use Rattle.xa_service.specs.declared.service.TheConstants.{MOST_LOOPS};
ghost use Rattle.xa_tokens.specs.Believed.Account.{Account, Owes};
ghost use Rattle.xa_tokens.specs.Believed.Receipts.{AreSame};

use crate::fault::ServerFault;
use crate::keeping::{Keeps, Nothing};
use crate::post::Post;
use std::alloc::{AllocError, Global};
use std::io::Print;
use std::marker::Brand;
use std::net::Net;
use std::random::RandomSource;
use std::rt::Clock;
use std::sync::Wait;
use std::thread::Threads;
use xa_handles::{SharedSequencer, Tally};
use xa_history::Start;
use xa_reactor::{Ended, Listener, LoopFault, Seen, Settings, Watch, run_loops};
use xa_sequencer::{Manages, Sequencer};
use xa_service::MOST_LOOPS;
use xa_tokens::{Book, Opened, Share};
use xa_users::Users;

/// What loops tell of what they served.
#[derive(Clone, Copy, Debug, PartialEq, Eq)]
pub struct Looped {
    /// How many connects, calls and hang-ups there were.
    pub calls: u64,
    /// Whether each loop could wait for events to its end.
    pub is_whole: bool,
    /// Whether the manager was down when they ended, by the replies.
    pub is_down: bool,
    /// Whether they ended since it was down, also if a Restart that was asked for by then has helped.
    pub ended_down: bool,
    /// What was asked of them.
    pub settings: Settings,
}

/// Serves the sessions of a manager by this many event loops, 1 to `MOST_LOOPS`, each in a thread of its own; it prints `ready`
/// before, and ends when the loops do.
///
/// If there are users, a connection is answered only what the role may ask that it has shown by logging in as one of them.
///
/// From whichever state the manager stood for, what was served is a legal history of as many entries as it tells of; its
/// committed branches are one copy; and what was answered as prepared is listed until its completion is asked for. Each
/// entry was told to one loop, once, for what that asked of a session that it connected, answered and hung up; and no loop
/// was told anything else.
pub fn loop_manager<
    M: Manages + Send + Drop,
    R: AllocGlobal + Clock + Print + Eprint + Net + RandomSource + Threads + Wait + Sync,
>(
    rt: &R,
    listener: Listener,
    manager: M,
    users: Option<&Users>,
    loops: u64,
    settings: Settings,
) -> Result<Looped, ServerFault>
    ensures served { IfOk result (λ told. ServesByLoops M.manages (M.manages.stands (alone manager))
        (M.manages.failures (alone manager)) (option_map (λ u. u.now) users.entry) loops told) }
    ensures settings { IfOk result (λ told. told.settings ≡ settings) }
    ensures loops { IsErrOf result (ServerFault.Loops loops) ↔ ((loops ≡ 0) ⊎ (MOST_LOOPS < loops)) }
    ensures fault { IfErr result (λ fault. (fault ≡ ServerFault.Memory) ⊎ ((fault ≡ ServerFault.Wait)
        ⊎ ((fault ≡ ServerFault.Write) ⊎ ((fault ≡ ServerFault.Random) ⊎ (fault ≡ ServerFault.Loops loops))))) }
{
    if loops == 0 || loops > MOST_LOOPS {
        return Err(ServerFault::Loops(loops));
    }
    let opened = Opened::new(rt.alloc())?;
    let (told, _, _) = loop_by::<M, Brand, Brand, R, Nothing>(
        rt, listener, manager, opened, users, loops, settings, Nothing,
    )?;
    Ok(told)
}

/// The same by this many loops, from the states that `S` picks, with the history that `B` names. Gives back the manager, and what
/// the loops kept.
pub(crate) fn loop_by<
    M: Manages + Send + Drop,
    S: Start + Send + Sync,
    B: Book + Send + Sync,
    R: AllocGlobal + Clock + Print + Eprint + Net + RandomSource + Threads + Wait + Sync,
    K: Keeps + Send,
>(
    rt: &R,
    listener: Listener,
    manager: M,
    opened: Opened,
    users: Option<&Users>,
    loops: u64,
    settings: Settings,
    keeper: K,
) -> Result<(Looped, M, K), ServerFault>
    requires start { (s : State) → S.start s → M.manages.stands (alone manager) s }
    requires base { M.manages.failures (alone manager) ≡ S.base }
    requires name { opened ≡ B.table }
    requires loops { (0 < loops) × (loops ≤ MOST_LOOPS) }
    ensures served { IfOk result (λ made. ServesTo M.manages S.start S.base (option_map (λ u. u.now) users.entry) loops made.0 made.1) }
    ensures settings { IfOk result (λ made. made.0.settings ≡ settings) }
    ensures fault { IfErr result (λ fault. (fault ≡ ServerFault.Memory) ⊎ ((fault ≡ ServerFault.Wait)
        ⊎ ((fault ≡ ServerFault.Write) ⊎ (fault ≡ ServerFault.Random)))) }
{
    let sequencer: Sequencer<M, S> = Sequencer::new(manager);
    let (shared, share) = SharedSequencer::<M, S, B>::new(rt.alloc(), sequencer, opened);
    let watch = Watch::new();
    let tallies = make_tallies(rt.alloc(), loops)?;
    let posts = make_posts(
        rt,
        &shared,
        &watch,
        tallies.as_slice(),
        share,
        loops,
        keeper,
    )?;
    let (ran, settings) = run_posts(rt, listener, &shared, &watch, posts, users, settings)?;
    let Gathered {
        share,
        is_whole,
        seen,
        keeper,
    } = ran;
    let sequencer = shared.into_sequencer(share);
    sequencer.promises();
    let told = Looped {
        calls: sequencer.count(),
        is_whole,
        is_down: seen.is_down(),
        ended_down: watch.has_ended(),
        settings,
    };
    Ok((told, sequencer.into_manager(), keeper))
}

// What each loop counts: nothing yet.
fn make_tallies(alloc: Global, loops: u64) -> Result<Vec<Tally>, AllocError>
    ensures { IfOk result (λ tallies. length tallies.items ≡ loops) }
{
    let mut tallies = Vec::new(alloc);
    for _i in 0..loops {
        tallies.push(Tally::new(alloc)?)?;
    }
    Ok(tallies)
}

// A post for each loop. Its share has one part, and the last one's what is left.
fn make_posts<'a, M: Manages, S: Start, B: Book, R: AllocGlobal + Clock + Wait, K: Keeps>(
    rt: &'a R,
    sequencer: &'a SharedSequencer<M, S, B>,
    watch: &'a Watch,
    tallies: &'a [Tally],
    share: Share<B>,
    loops: u64,
    keeper: K,
) -> Result<Vec<Post<'a, M, S, B, R, K>>, AllocError>
    requires tallies { length tallies.now ≡ loops }
    requires parts { (0 < loops) × (loops ≤ share.parts) }
    requires fresh { IsFresh share }
    ensures count { IfOk result (λ posts. length posts.items ≡ loops) }
    ensures parts { IfOk result (λ posts. sum_by (λ p. p.handle.asker.parts) posts.items ≡ share.parts) }
    ensures fresh { IfOk result (λ posts. AllByRecursion IsFresh (map (λ p. p.handle.asker) posts.items)) }
{
    let mut rest = share;
    let alloc = rt.alloc();
    let mut posts = Vec::new(alloc);
    for i in 1..loops {
        let one = sequencer.split(&mut rest);
        let another = keeper.another();
        posts.push(Post::new(
            rt, sequencer, watch, tallies, i as usize, one, another, alloc,
        )?)?;
    }
    posts.push(Post::new(rt, sequencer, watch, tallies, 0, rest, keeper, alloc)?)?;
    Ok(posts)
}

// What loops have that ended: their shares as one, whether each could wait to its end, and what they have seen and kept together.
#[derive(Drop)]
pub(crate) struct Gathered<B: Book, K> {
    share: Share<B>,
    is_whole: bool,
    seen: Seen,
    keeper: K,
}

// Runs a loop at each post. What they have as they end, and what was asked of them.
fn run_posts<
    M: Manages + Send,
    S: Start + Send + Sync,
    B: Book + Send + Sync,
    R: AllocGlobal + Clock + Print + Eprint + Net + RandomSource + Threads + Wait + Sync,
    K: Keeps + Send,
>(
    rt: &R,
    listener: Listener,
    sequencer: &SharedSequencer<M, S, B>,
    watch: &Watch,
    posts: Vec<Post<'_, M, S, B, R, K>>,
    users: Option<&Users>,
    settings: Settings,
) -> Result<(Gathered<B, K>, Settings), LoopFault>
    requires some { 0 < length posts.items }
    requires fresh { AllByRecursion IsFresh (map (λ p. p.handle.asker) posts.items) }
    ensures parts { IfOk result (λ all. all.0.share.parts ≡ sum_by (λ p. p.handle.asker.parts) posts.entry.items) }
    ensures loops { IfOk result (λ all. (ended : List Account)
        × AllLoop M.manages S.start S.base (option_map (λ u. u.now) users.entry) (map (λ p. p.handle.asker) posts.entry.items) ended
        × AreSame all.0.share.told (told_by ended)) }
    ensures settled { IfOk result (λ all. Owes all.0.share 0) }
    ensures seen { IfOk result (λ all. IsSeenLast all.0.seen all.0.share.told) }
    ensures settings { IfOk result (λ all. all.1 ≡ settings) }
{
    let ended = run_loops(rt, listener, watch, posts, users, settings)?;
    let asked = ended[0].settings;
    Ok((gather(sequencer, ended), asked))
}

// What loops have that ended.
fn gather<M: Manages, S: Start, B: Book, R: Clock + Wait, K: Keeps>(
    sequencer: &SharedSequencer<M, S, B>,
    ended: Vec<Ended<Post<'_, M, S, B, R, K>>>,
) -> Gathered<B, K>
    requires some { 0 < length ended.items }
    requires settled { AllByRecursion (λ e. Owes e.door.handle.asker 0) ended.items }
    ensures parts { result.share.parts ≡ sum_by (λ e. e.door.handle.asker.parts) ended.entry.items }
    ensures told { AreSame result.share.told (told_by (map (λ e. e.door.handle.asker) ended.entry.items)) }
    ensures settled { Owes result.share 0 }
    ensures seen { IsSeenLast result.seen result.share.told }
{
    let mut ended = ended;
    let Some(
        Ended {
            door,
            mut is_whole,
            ..
        },
    ) = ended.pop()
    else {
        unreachable!()
    };
    let (mut share, mut seen, mut keeper) = door.into_parts();
    while let Some(
        Ended {
            door,
            is_whole: more,
            ..
        },
    ) = ended.pop()
    {
        let (other, also, kept) = door.into_parts();
        sequencer.merge(&mut share, other);
        keeper = keeper.join(kept);
        seen = seen.with(also);
        is_whole = is_whole && more;
    }
    Gathered {
        share,
        is_whole,
        seen,
        keeper,
    }
}
