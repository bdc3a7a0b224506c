use crate::tests::callers::{Asks, Visit, is_visited};
use crate::tests::posted::call_of;
use std::alloc::{AllocError, Global};
use xa_codes::XA_OK;
use xa_frame::{Body, Reply};
use xa_history::Receipt;
use xa_room::audit;

/// The rounds of a caller, and what each asks of a branch: one writes a key, and when it is committed the other reads it back.
const ROUNDS: u8 = 5;

const ROUND: [(&str, u8); 9] = [
    ("start TMNOFLAGS", 0),
    ("put", 0),
    ("end TMSUCCESS", 0),
    ("prepare TMNOFLAGS", 0),
    ("commit TMNOFLAGS", 0),
    ("start TMNOFLAGS", 1),
    ("get", 1),
    ("end TMSUCCESS", 1),
    ("commit TMONEPHASE", 1),
];

/// What is recorded of a caller: a connect, an Open, its rounds, and a hang-up.
const EVENTS: usize = 48;

// A session's call of a round, on a key of its own.
fn line_of(
    alloc: Global,
    session: u64,
    round: u8,
    verb: &str,
    branch: u8,
) -> Result<String, AllocError> {
    match verb {
        "put" => format!(in alloc; "{session} put 0{session} 0{round}"),
        "get" => format!(in alloc; "{session} get 0{session}"),
        _ => format!(in alloc; "{session} {verb} 1:0{session}:0{round}0{branch}"),
    }
}

// What is answered to a line.
fn told<D: Asks>(alloc: Global, caller: &mut D, line: &str) -> Option<Reply> {
    let (session, request) = call_of(alloc, line)?;
    Some(caller.call(session, request))
}

// Whether a call of a round is answered by 0, and the get by what was committed.
fn is_right<D: Asks>(
    alloc: Global,
    caller: &mut D,
    session: u64,
    round: u8,
    call: (&str, u8),
) -> Option<bool> {
    let line = line_of(alloc, session, round, call.0, call.1).ok()?;
    let reply = told(alloc, caller, &line)?;
    let is_read = match &reply.body {
        Body::Value(value) => value.as_slice() == [round].as_slice(),
        _ => call.0 != "get",
    };
    Some(is_read && reply.code == XA_OK)
}

fn is_right_round<D: Asks>(alloc: Global, caller: &mut D, session: u64, round: u8) -> bool {
    for call in &ROUND {
        if is_right(alloc, caller, session, round, *call) != Some(true) {
            return false;
        }
    }
    true
}

// A session of all rounds.
fn has_session<D: Asks>(alloc: Global, caller: &mut D) -> Option<bool> {
    let session = caller.connect()?;
    let open = format!(in alloc; "{session} open TMNOFLAGS xarm").ok()?;
    let mut is_right = told(alloc, caller, &open)?.code == XA_OK;
    for round in 0..ROUNDS {
        is_right = is_right && is_right_round(alloc, caller, session, round);
    }
    caller.hangup(session);
    Some(is_right)
}

/// Eight callers at once, and an audit of what they were told.
struct Crew;

impl Visit for Crew {
    fn visit<D: Asks>(&self, alloc: Global, caller: &mut D) -> bool {
        has_session(alloc, caller) == Some(true)
    }

    fn judge(&self, alloc: Global, kept: &[Receipt], lost: u64, told: Vec<Receipt>) -> bool {
        kept.len() == 8 * EVENTS && audit(alloc, kept, lost, &told, 0).is_ok()
    }
}

#[test]
fn desk_audit(rt: HostRuntime) {
    assert!(rt; is_visited(&rt, 8, &Crew));
}
