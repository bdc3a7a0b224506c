//! What a loop's turns use.
ghost use Rattle.std.specs.Prelude.{◌≡◌, IfOk, vec_len};
ghost use Rattle.xa_connection.specs.declared.connection.TheConstants.{MOST_INPUT};
ghost use Rattle.xa_waits.specs.Patience.{new_patience};
ghost use Rattle.xa_reactor.specs.ForAll.{PeersTend};

use crate::clock::LoopClock;
use crate::common::Common;
use crate::peers::Peers;
use crate::reception::Reception;
use crate::round::Round;
use crate::together::Together;
use crate::trimming::keep_short;
use std::alloc::{AllocError, Global};
use std::rt::Clock;
use std::sync::Wait;
use xa_connection::MOST_INPUT;
use xa_waits::Patience;

/// What the turns of connections use.
#[derive(Drop)]
pub(crate) struct Tools {
    /// What a read fills.
    pub(crate) scratch: Vec<u8>,
    pub(crate) together: Together,
    pub(crate) patience: Patience,
    /// How many calls had been logged when the log's end was asked for.
    pub(crate) seen: u64,
}

impl Tools {
    pub(crate) fn new(alloc: Global) -> Result<Tools, AllocError>
        ensures { IfOk result (λ tools. (vec_len tools.scratch ≡ MOST_INPUT) × (tools.patience ≡ new_patience) × (tools.seen ≡ 0)) }
    {
        Ok(Tools {
            scratch: Vec::from_elem(alloc, 0u8, MOST_INPUT)?,
            together: Together::new(alloc),
            patience: Patience::new(),
            seen: 0,
        })
    }
}

/// The turns of this many that have one, one by one.
pub(crate) fn give_each<D: Reception, R: AllocGlobal + Clock + Eprint + Wait>(
    rt: &R,
    common: &Common<'_>,
    round: Round<'_>,
    clock: &mut LoopClock,
    tools: &mut Tools,
    peers: &mut Peers,
    door: &mut D,
    turns: usize,
)
    ensures { PeersTend D.connected D.called D.left peers.old.all door.old peers.new.all door.new }
{
    for _ in 0..turns {
        peers.give_turn(rt, round, clock, &mut tools.scratch, door);
        keep_short(rt, common, door, clock, &mut tools.seen);
    }
}
