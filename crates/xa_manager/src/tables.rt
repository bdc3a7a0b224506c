ghost use Rattle.std.proofs.Props.{props};
ghost use Rattle.mv_rules.specs.Within.{IsWithin, HasKeys};
ghost use Rattle.xa_limits.specs.declared.TheConstants.{MOST_VALUE};

use mv_rules::Records;
use std::alloc::Global;
use xa_assoc::Sessions;
use xa_branch::Branches;
use xa_codes::Bytes;

/// What a manager keeps: its settings, the tables of sessions and of branches, and the versions of all keys.
#[derive(Debug, Drop)]
pub struct Tables {
    pub alloc: Global,
    pub name: Bytes,
    pub log_bytes: u64,
    pub sessions: Sessions,
    pub branches: Branches,
    pub records: Records,
    /// No value that is kept has more bytes than a reply carries.
    ghost short: { IsWithin MOST_VALUE records } by { Prim.hlevel props },
    /// No undecided branch has written more, or longer, keys than a record holds.
    ghost keys: { HasKeys records } by { Prim.hlevel props },
}
