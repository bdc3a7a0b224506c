//! The records with which a log begins that a checkpoint wrote.
ghost use Rattle.std.specs.Prelude.{◌≡◌, ◌≤◌, List, [], ℕ, false, IfOk, OnOk, length};
ghost use Rattle.std.specs.List.{AllByRecursion};
ghost use Rattle.xa_limits.specs.declared.TheConstants.{MOST_BODY};
ghost use Rattle.xa_log.specs.Believed.Chain.{IsBody};
ghost use Rattle.xa_copy.specs.Heads.{Heads};
ghost use Rattle.xa_copy.specs.Marks.{Marks};
ghost use Rattle.xa_copy.specs.Moving.{Goes, OnlyAppended, State};
ghost use Rattle.xa_copy.specs.Snapshots.{AreHeld, IsSnapshot};

use crate::CopyFault;
use crate::copied::Copied;
use crate::head::Head;
use crate::named::first_digest;
use crate::piece::{Next, begins_appended, read_next};
use crate::source::Source;
use std::alloc::Global;
use xa_limits::FIRST_OFFSET;
use xa_shared::SharedBytes;

/// The bodies of a log that weren't appended, how far it was read with them, and the length of the longest one.
#[derive(Debug, Drop)]
pub struct Snapshot {
    pub bodies: Vec<SharedBytes>,
    pub at: Copied,
    pub longest: usize,
}

// No record of a file that begins so, the first one or not.
fn none_of(head: &Head, on_first: bool) -> Copied
    ensures marks { Marks [] result }
    ensures format { result.format ≡ head.now.format }
    ensures on_first { result.on_first ≡ on_first }
{
    Copied {
        records: 0,
        end: FIRST_OFFSET,
        generation: head.generation,
        on_first,
        format: head.format,
        digest: first_digest(head.format),
        is_snapshot: true,
    }
}

impl Snapshot {
    // Those of a file that begins so, the first one or not, in a log of at most `log_bytes`.
    pub(crate) fn read<S: Source>(
        alloc: Global,
        source: &mut S,
        head: &Head,
        on_first: bool,
        log_bytes: u64,
    ) -> Result<Snapshot, CopyFault>
        ensures snapshot { S.honest → Heads (S.state source.old).file head.now
            → IfOk result (IsSnapshot (S.state source.old) (S.state source.new)) }
        ensures whole { S.honest → Heads (S.state source.old).file head.now
            → IfOk result (λ snapshot. (S.state source.new).life ≡ (S.state source.old).life
            → OnlyAppended snapshot.at.format snapshot.bodies.items (S.state source.new).file) }
        ensures held { IfOk result AreHeld }
        ensures on_first { IfOk result (λ snapshot. snapshot.at.on_first ≡ on_first) }
        ensures goes { S.honest → Goes (S.state source.old) (S.state source.new) }
    {
        let mut snapshot = Snapshot {
            bodies: Vec::new(alloc),
            at: none_of(head, on_first),
            longest: 0,
        };
        'records: for _ in 0..u64::MAX {
            if !snapshot.read_more(alloc, source, log_bytes)? {
                return Ok(snapshot);
            }
        }
        Err(CopyFault::Moved)
    }

    // Reads one record more, if there is one that wasn't appended, and returns whether there may be another one.
    fn read_more<S: Source>(
        &mut self,
        alloc: Global,
        source: &mut S,
        log_bytes: u64,
    ) -> Result<bool, CopyFault>
        ensures snapshot { S.honest → (begin : State) → IsSnapshot begin (S.state source.old) self.old
            → OnOk result (IsSnapshot begin (S.state source.new) self.new) }
        ensures whole { S.honest → (begin : State) → IsSnapshot begin (S.state source.old) self.old
            → IfOk result (λ more. more ≡ false → (S.state source.new).life ≡ begin.life
            → OnlyAppended self.new.at.format self.new.bodies.items (S.state source.new).file) }
        ensures held { AreHeld self.old → OnOk result (AreHeld self.new) }
        ensures on_first { self.new.at.on_first ≡ self.old.at.on_first }
        ensures goes { S.honest → Goes (S.state source.old) (S.state source.new) }
    {
        let Some(next) = read_next(alloc, source, &self.at, log_bytes)? else {
            return Ok(false);
        };
        if begins_appended(&next.body) {
            return Ok(false);
        }
        let Next { body, at } = next;
        let longest = self.longest.max(body.len());
        let body = SharedBytes::new(alloc, body)?;
        self.bodies.push(body)?;
        self.longest = longest;
        self.at = at;
        Ok(true)
    }
}
