//! A manager over two files, whose sessions are the connections of a port, a Unix socket or both, by event loops.
ghost use Rattle.std.specs.Prelude.{◌≡◌, ◌↔◌, ◌&&◌, ◌||◌, ◌<◌, ◌⊎◌, IfErr, IfOk, IsErrOf, is_some, not};
ghost use Rattle.xa_server.specs.Believed.Served.{AreLoops, AreUsers, HasFailed, HasListened, HasServed};
ghost use Rattle.xa_server.specs.Believed.Served.{IsEarlyFault, ServesAs, is_sound, settings_of};
ghost use Rattle.xa_server.specs.Histories.{IsEndFault};
ghost use Rattle.std.specs.Option.{option_map};
ghost use Rattle.xa_service.specs.declared.service.TheConstants.{MOST_LOOPS};

use crate::audited::{Audited, audited_lines};
use crate::engine::{Looped, loop_manager};
use crate::fault::ServerFault;
use crate::gate::OpenGate;
use crate::group::group_number;
use crate::history::{HistoryFiles, make_files, write_history};
use crate::listening::Listening;
use crate::listens::Listens;
use crate::ready::{make_ready, tell_passed_over};
use crate::serve_fault::ServeFault;
use crate::socket_access::SocketAccess;
use crate::users_file::read_users;
use crate::workers::run_workers;
use std::fs::Files;
use std::io;
use std::io::{Eprint, Print, Write};
use std::net::{IpAddr, Net};
use std::random::RandomSource;
use std::rt::Clock;
use std::sync::Wait;
use std::thread::{Threads, available_parallelism};
use xa_disk::{Disk, Opens};
use xa_history::Receipt;
use xa_manager::Manager;
use xa_reactor::{Listener, Settings};
use xa_service::{At, Service};
use xa_users::Users;

/// Opens the log's two files, listens, and opens the manager; then it serves by loops, until they end, and audits the history if
/// that was asked for; it writes that, too, if a file is given. False if the audit found a fault, or if a server that is down was to
/// end, and the manager is down then, or the loops ended since it was.
///
/// Nobody is answered before the manager is open. If the port or the path can't be had, or a file of the log is missing or is none,
/// the manager isn't opened, so that nothing is written to either file.
pub fn serve<
    'a,
    R: AllocGlobal
        + Print
        + Eprint
        + Files
        + Opens
        + Listens
        + Clock
        + Net
        + RandomSource
        + Threads
        + Wait
        + Sync,
>(rt: &R, service: &Service<'a>) -> Result<bool, ServeFault<'a>>
    ensures served { IfOk result (HasServed ⟦<R::Disk as Disk>⟧ R.opened R.Listens
        service.now) }
    ensures failed { IfErr result (HasFailed ⟦<R::Disk as Disk>⟧ R.opened R.refused R.Listens
        service.now) }
{
    let (access, users) = admitted(rt, service)?;
    let (listener, manager, files) = begun(rt, service, access)?;
    let loops = loops_of(rt, service.loops);
    let (told, audited, history) = serve_by(
        rt,
        listener,
        manager,
        users.as_ref(),
        loops,
        settings_of(service),
        service.audits,
    )?;
    if !told.is_whole {
        return Err(ServeFault::Wait);
    }
    tell_end(rt, told.calls, audited, files, history.as_slice())?;
    Ok(is_well(
        service.ends_when_down,
        told.is_down,
        told.ended_down,
        audited,
    ))
}

// Who may connect to its Unix socket, and who may log in, if anybody has to; unless it may not listen there.
fn admitted<'a, R: AllocGlobal + Eprint + Files>(
    rt: &R,
    service: &Service<'a>,
) -> Result<(SocketAccess, Option<Users>), ServeFault<'a>>
    ensures users { IfOk result (λ made. AreUsers (is_some service.now.users) made.1) }
    ensures fault { IfErr result IsEarlyFault }
{
    may_listen(rt, service)?;
    let access = access_of(rt, service)?;
    let users = users_of(rt, service.users)?;
    Ok((access, users))
}

// What listens, the manager that the log's two files open to, and the files of its history, if it is to be written.
fn begun<'a, R: AllocGlobal + Eprint + Files + Opens + Listens>(
    rt: &R,
    service: &Service<'a>,
    access: SocketAccess,
) -> Result<
    (
        Listener,
        Manager<R::Disk>,
        Option<HistoryFiles<'a, R::File>>,
    ),
    ServeFault<'a>,
>
    ensures ready { IfOk result (λ made. HasListened ⟦<R::Disk as Disk>⟧ R.opened R.Listens
        service.now made.1) }
    ensures failed { IfErr result (HasFailed ⟦<R::Disk as Disk>⟧ R.opened R.refused R.Listens
        service.now) }
{
    let mut left = None;
    let (listening, manager) = make_ready(
        rt,
        service.path,
        service.name,
        service.at,
        access,
        service.log_bytes,
        &mut left,
    )?;
    tell_passed_over(rt, service.path, left);
    let Ok(listener) = unblocked(listening) else {
        return Err(ServeFault::Wait);
    };
    let files = make_files(rt, service.history)?;
    Ok((listener, manager, files))
}

// What is asked of its loops.
fn settings_of(service: &Service<'_>) -> Settings
    ensures { result ≡ settings_of service.now }
{
    Settings {
        connections: service.connections,
        frame_seconds: service.frame_seconds,
        idle_seconds: service.idle_seconds,
        branch_seconds: service.branch_seconds,
        ends_when_down: service.ends_when_down,
        trim_bytes: service.trim_bytes,
        log_bytes: service.log_bytes,
        tick_seconds: service.tick_seconds,
    }
}

// Serves by loops, with an audit or without; then there is no history.
fn serve_by<
    D: Disk + Drop + Send,
    R: AllocGlobal + Clock + Print + Eprint + Net + RandomSource + Threads + Wait + Sync,
>(
    rt: &R,
    listener: Listener,
    manager: Manager<D>,
    users: Option<&Users>,
    loops: u64,
    settings: Settings,
    audits: bool,
) -> Result<(Looped, Option<Audited>, Vec<Receipt>), ServerFault>
    ensures served { IfOk result (λ told. ServesAs D.Disk manager (option_map (λ u. u.now) users.entry) loops told.0 told.1) }
    ensures audits { IfOk result (λ told. is_some told.1 ≡ audits) }
    ensures settings { IfOk result (λ told. told.0.settings ≡ settings) }
    ensures loops { IsErrOf result (ServerFault.Loops loops) ↔ ((loops ≡ 0) ⊎ (MOST_LOOPS < loops)) }
    ensures fault { IfErr result (λ fault. (fault ≡ ServerFault.Memory) ⊎ ((fault ≡ ServerFault.Wait)
        ⊎ ((fault ≡ ServerFault.Write) ⊎ ((fault ≡ ServerFault.Random) ⊎ (fault ≡ ServerFault.Loops loops))))) }
{
    if audits {
        match run_workers(rt, listener, manager, &OpenGate, users, loops, settings) {
            Ok(done) => Ok((done.looped, Some(done.audited), done.history)),
            Err(fault) => Err(fault),
        }
    } else {
        match loop_manager(rt, listener, manager, users, loops, settings) {
            Ok(told) => Ok((told, None, Vec::new(rt.alloc()))),
            Err(fault) => Err(fault),
        }
    }
}

// Tells what was served, and writes the history, if it is to be written.
fn tell_end<'a, R: AllocGlobal + Print, F: Write + Drop>(
    rt: &R,
    calls: u64,
    audited: Option<Audited>,
    files: Option<HistoryFiles<'a, F>>,
    history: &[Receipt],
) -> Result<(), ServeFault<'a>>
    ensures { IfErr result IsEndFault }
{
    tell(rt, calls, audited)?;
    write_history(rt.alloc(), files, history)
}

// Prints how many events there were, and what their audit found, if there was one.
fn tell<'a, R: AllocGlobal + Print>(
    rt: &R,
    calls: u64,
    audited: Option<Audited>,
) -> Result<(), ServeFault<'a>>
    ensures { IfErr result IsEndFault }
{
    let printed = match audited {
        Some(audited) => {
            let lines = audited_lines(rt.alloc(), audited)?;
            print!(rt; "{lines}")
        }
        None => println!(rt; "calls {calls}"),
    };
    match printed {
        Ok(()) => Ok(()),
        Err(_) => Err(ServeFault::Write),
    }
}

// Unless a server that is down was to end, and the manager is down, or the loops ended since it was; or an audit found a fault.
fn is_well(ends_when_down: bool, is_down: bool, ended_down: bool, audited: Option<Audited>) -> bool
    ensures { result ≡ (not (ends_when_down && (is_down || ended_down)) && is_sound audited) }
{
    let is_sound = match audited {
        Some(audited) => audited.is_whole,
        None => true,
    };
    !(ends_when_down && (is_down || ended_down)) && is_sound
}

// The same listener, whose accepts don't wait.
fn unblocked(listening: Listening) -> io::Result<Listener> {
    match listening {
        Listening::Tcp(listener) => {
            listener.set_nonblocking(true)?;
            Ok(Listener::Tcp(mio::net::TcpListener::from_std(listener)))
        }
        Listening::Unix(listener) => {
            listener.set_nonblocking(true)?;
            Ok(Listener::Unix(mio::net::UnixListener::from_std(listener)))
        }
        Listening::Both(tcp, unix) => {
            tcp.set_nonblocking(true)?;
            unix.set_nonblocking(true)?;
            Ok(Listener::Both(
                mio::net::TcpListener::from_std(tcp),
                mio::net::UnixListener::from_std(unix),
            ))
        }
    }
}

// How many loops are to run.
fn loops_of<R: Threads>(rt: &R, asked: u64) -> u64
    ensures { AreLoops asked result }
{
    if asked != 0 {
        return asked;
    }
    match available_parallelism(rt) {
        Ok(cores) => (cores.get() as u64).min(4),
        Err(_) => 1,
    }
}

// Whether it may listen there. If nobody has to log in, and it isn't asked for that, only at an address of this machine, and then
// it is told that whoever can connect may do anything.
fn may_listen<'a, R: Eprint>(rt: &R, service: &Service<'a>) -> Result<(), ServeFault<'a>>
    ensures { IfErr result IsEarlyFault }
{
    let (At::Port { address, .. } | At::Both { address, .. }) = service.at else {
        return Ok(());
    };
    if service.users.is_some() || service.opens_to_all {
        return Ok(());
    }
    if !is_loopback(address) {
        return Err(ServeFault::Open { address });
    }
    let _ = eprintln!(rt;
        "xarm: warning: without --users, whoever can connect to {address} may do anything"
    );
    Ok(())
}

fn is_loopback(address: &str) -> bool {
    match address.parse::<IpAddr>() {
        Ok(address) => address.is_loopback(),
        Err(_) => false,
    }
}

// Who may connect to its Unix socket.
fn access_of<'a, R: AllocGlobal + Files>(
    rt: &R,
    service: &Service<'a>,
) -> Result<SocketAccess, ServeFault<'a>>
    ensures { IfErr result IsEarlyFault }
{
    let group = match service.socket_group {
        Some(name) => match group_number(rt, name) {
            Some(number) => Some(number),
            None => return Err(ServeFault::Group { name }),
        },
        None => None,
    };
    Ok(SocketAccess {
        mode: service.socket_mode,
        group,
    })
}

// Who may log in, if a file of users is named.
fn users_of<'a, R: AllocGlobal + Files>(
    rt: &R,
    path: Option<&'a str>,
) -> Result<Option<Users>, ServeFault<'a>>
    ensures users { IfOk result (AreUsers (is_some path.entry)) }
    ensures fault { IfErr result IsEarlyFault }
{
    let Some(path) = path else {
        return Ok(None);
    };
    match read_users(rt, path) {
        Ok(users) => Ok(Some(users)),
        Err(fault) => Err(ServeFault::Users { path, fault }),
    }
}
