//! Loops whose history is kept, and audited at its end.
ghost use Rattle.std.specs.Prelude.{◌≡◌, ◌↔◌, ◌<◌, ◌≤◌, ◌⊎◌, IfErr, IfOk, IsErrOf, false};
ghost use Rattle.std.specs.Option.{option_map};
ghost use Rattle.xa_model.specs.State.{State};
ghost use Rattle.xa_sequencer.specs.Believed.GroupManager.{alone};
ghost use Rattle.xa_server.specs.Believed.Audits.{ServesAudited};
ghost use Rattle.xa_service.specs.declared.service.TheConstants.{MOST_LOOPS};

use crate::audited::Audited;
use crate::engine::{Looped, loop_by};
use crate::fault::ServerFault;
use crate::gate::Gate;
use crate::receipts::{Receipts, passages};
use crate::report::Report;
use std::io::{Eprint, Print};
use std::marker::Brand;
use std::net::Net;
use std::random::RandomSource;
use std::rt::Clock;
use std::sync::Wait;
use std::thread::Threads;
use xa_history::{Receipt, Start};
use xa_reactor::{Listener, Settings};
use xa_room::{AuditFault, Room, audit};
use xa_sequencer::Manages;
use xa_service::MOST_LOOPS;
use xa_tokens::{Book, Opened};
use xa_users::Users;

/// What loops tell whose history was kept: what they tell otherwise, the receipts of what they were told, what the audit
/// of these found, and the history: the receipt of each event at its place, but of those that found no memory.
#[derive(Debug, Drop)]
pub struct Worked {
    pub looped: Looped,
    pub report: Report,
    pub audited: Audited,
    pub history: Vec<Receipt>,
}

/// Serves as [`crate::loop_manager`] does, by this many loops, 1 to `MOST_LOOPS`, with a receipt of each event: the manager's, in a
/// room, and the loops', of what they were told. At the end the audit compares them. Each call passes the gate.
pub fn run_workers<
    M: Manages + Send + Drop,
    G: Gate + Sync,
    R: AllocGlobal + Clock + Print + Eprint + Net + RandomSource + Threads + Wait + Sync,
>(
    rt: &R,
    listener: Listener,
    manager: M,
    gate: &G,
    users: Option<&Users>,
    workers: u64,
    settings: Settings,
) -> Result<Worked, ServerFault>
    ensures served { IfOk result (λ done. ServesAudited M.manages (M.manages.stands (alone manager))
        (M.manages.failures (alone manager)) (option_map (λ u. u.now) users.entry) workers done) }
    ensures settings { IfOk result (λ done. done.looped.settings ≡ settings) }
    ensures loops { IsErrOf result (ServerFault.Loops workers) ↔ ((workers ≡ 0) ⊎ (MOST_LOOPS < workers)) }
    ensures fault { IfErr result (λ fault. (fault ≡ ServerFault.Memory) ⊎ ((fault ≡ ServerFault.Wait)
        ⊎ ((fault ≡ ServerFault.Write) ⊎ ((fault ≡ ServerFault.Random) ⊎ (fault ≡ ServerFault.Loops workers))))) }
{
    if workers == 0 || workers > MOST_LOOPS {
        return Err(ServerFault::Loops(workers));
    }
    let opened = Opened::new(rt.alloc())?;
    work_by::<M, Brand, Brand, G, R>(
        rt, listener, manager, gate, opened, users, workers, settings,
    )
}

// The same from the states that `S` picks, with the history that `B` names.
fn work_by<
    M: Manages + Send + Drop,
    S: Start + Send + Sync,
    B: Book + Send + Sync,
    G: Gate + Sync,
    R: AllocGlobal + Clock + Print + Eprint + Net + RandomSource + Threads + Wait + Sync,
>(
    rt: &R,
    listener: Listener,
    manager: M,
    gate: &G,
    opened: Opened,
    users: Option<&Users>,
    workers: u64,
    settings: Settings,
) -> Result<Worked, ServerFault>
    requires start { (s : State) → S.start s → M.manages.stands (alone manager) s }
    requires base { M.manages.failures (alone manager) ≡ S.base }
    requires name { opened ≡ B.table }
    requires loops { (0 < workers) × (workers ≤ MOST_LOOPS) }
    ensures served { IfOk result (λ done. ServesAudited M.manages S.start S.base (option_map (λ u. u.now) users.entry) workers done) }
    ensures settings { IfOk result (λ done. done.looped.settings ≡ settings) }
    ensures fault { IfErr result (λ fault. (fault ≡ ServerFault.Memory) ⊎ ((fault ≡ ServerFault.Wait)
        ⊎ ((fault ≡ ServerFault.Write) ⊎ (fault ≡ ServerFault.Random)))) }
{
    let alloc = rt.alloc();
    let room: Room<M, S> = Room::new(alloc, manager);
    let passed = passages(alloc)?;
    let keeper = Receipts::new(alloc, gate, &passed);
    let (looped, room, keeper) = loop_by::<Room<M, S>, S, B, R, Receipts<'_, G>>(
        rt, listener, room, opened, users, workers, settings, keeper,
    )?;
    let report = keeper.into_report();
    let answer = audit(
        alloc,
        room.receipts(),
        room.lost(),
        report.receipts.as_slice(),
        report.dropped,
    );
    if is_memory(&answer) {
        return Err(ServerFault::Memory);
    }
    let audited = Audited {
        calls: looped.calls,
        dropped: report.dropped,
        is_whole: answer.is_ok(),
    };
    Ok(Worked {
        looped,
        report,
        audited,
        history: room.into_receipts(),
    })
}

fn is_memory(answer: &Result<(), AuditFault>) -> bool
    ensures { result ≡ false → IsErrOf answer.now AuditFault.Memory → ⊥ }
{
    match answer {
        Err(AuditFault::Memory) => true,
        _ => false,
    }
}
