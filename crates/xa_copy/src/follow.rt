//! A standby takes what a running server appended since.
ghost use Rattle.std.specs.Prelude.{◌≡◌, ◌⊎◌, if◌then◌else◌, List, ℕ, true, IfOk, IsSome, OnErr, OnOk, ◌-◌};
ghost use Rattle.xa_copy.specs.Heads.{Heads, IsHead};
ghost use Rattle.xa_copy.specs.Moving.{Goes, State, Tells};

use crate::CopyFault;
use crate::copy::ensure_same;
use crate::follow_fault::FollowFault;
use crate::followed::Followed;
use crate::head::{Head, head_of, is_first};
use crate::piece::Piece;
use crate::source::Source;
use crate::standby::Standby;
use std::alloc::Global;
use xa_disk::Disk;

impl<D: Disk> Standby<D> {
    ghost use Rattle.xa_copy.specs.Standbys.{GoesAlong, HasFollowed, IsAlong, IsPart, IsStandby, Leaving};
    ghost use Rattle.xa_copy.specs.Standbys.{LeavesFollowed, StaysBeside, StaysOrLost, side};
    ghost use Rattle.xa_copy.specs.Followed.{FollowsTo};

    /// Takes, once, all that the current one of a log's two files has and the standby doesn't, while a server may append to it.
    /// Whatever is answered but `Lost`, the standby is a log that the source was at a moment, or a first part of it with all of
    /// its snapshot. It has all that it had, or was begun anew.
    pub fn follow<S: Source>(
        &mut self,
        alloc: Global,
        first: &mut S,
        second: &mut S,
    ) -> Result<Followed, FollowFault>
        ensures follows { S.honest → D.honest → (bodies stood : List (List ℕ))
            → IsStandby D.Disk bodies stood (if self.old.copied.on_first then S.state first.old else S.state second.old) self.old
            → IfOk result (FollowsTo D.Disk bodies (S.state first.old) (S.state first.new) (S.state second.old) (S.state second.new) self.new) }
        ensures stays { S.honest → D.honest → (bodies stood : List (List ℕ))
            → IsStandby D.Disk bodies stood (if self.old.copied.on_first then S.state first.old else S.state second.old) self.old
            → OnErr result (StaysBeside D.Disk bodies true (S.state first.new) (S.state second.new) self.new) }
        // A crash at any moment of the call leaves one file as it was, and of the other one a log of the source, or none yet.
        ensures any_moment { S.honest → D.honest → (bodies stood : List (List ℕ))
            → IsStandby D.Disk bodies stood (if self.old.copied.on_first then S.state first.old else S.state second.old) self.old
            → LeavesFollowed D.Disk stood (S.state first.new) self.old.log self.new.log
            ⊎ LeavesFollowed D.Disk stood (S.state second.new) self.old.log self.new.log }
    {
        let head = head_of(alloc, first)?;
        let other = head_of(alloc, second)?;
        let had = self.copied.records;
        if is_first(&head, &other) {
            let is_anew = self.follow_file(alloc, first, head, true)?;
            return Ok(self.followed(is_anew, had));
        }
        let is_anew = self.follow_file(alloc, second, other, false)?;
        Ok(self.followed(is_anew, had))
    }

    // What was taken, where this many records were there before.
    fn followed(&self, is_anew: bool, had: u64) -> Followed
        ensures records { result.records ≡ self.now.copied.records - (if is_anew then 0 else had) }
        ensures is_anew { result.is_anew ≡ is_anew }
        ensures end { result.end ≡ self.now.copied.end }
        ensures number { result.generation ≡ self.now.log.generation }
    {
        Followed {
            records: self
                .copied
                .records
                .saturating_sub(if is_anew { 0 } else { had }),
            is_anew,
            end: self.copied.end,
            generation: self.log.generation(),
        }
    }

    // Takes what a file has that begins so, the first one or not, and returns whether it was begun anew.
    fn follow_file<S: Source>(
        &mut self,
        alloc: Global,
        source: &mut S,
        head: Option<Head>,
        on_first: bool,
    ) -> Result<bool, FollowFault>
        ensures follows { S.honest → D.honest → Tells (S.state source.old) → IsHead (S.state source.old).file head
            → (bodies stood : List (List ℕ)) (other : State)
            → IsStandby D.Disk bodies stood (side on_first self.old.copied.on_first (S.state source.old) other) self.old
            → IfOk result (HasFollowed D.Disk bodies (S.state source.old) (S.state source.new) self.new) }
        ensures stays { S.honest → D.honest → Tells (S.state source.old) → IsHead (S.state source.old).file head
            → (bodies stood : List (List ℕ)) (other : State)
            → IsStandby D.Disk bodies stood (side on_first self.old.copied.on_first (S.state source.old) other) self.old
            → OnErr result (StaysBeside D.Disk bodies on_first (S.state source.new) other self.new) }
        ensures any_moment { S.honest → D.honest → Tells (S.state source.old) → IsHead (S.state source.old).file head
            → (bodies stood : List (List ℕ)) (other : State)
            → IsStandby D.Disk bodies stood (side on_first self.old.copied.on_first (S.state source.old) other) self.old
            → LeavesFollowed D.Disk stood (S.state source.new) self.old.log self.new.log }
        ensures on_first { OnOk result (self.new.copied.on_first ≡ on_first) }
        ensures some { OnOk result (IsSome head) }
        ensures goes { S.honest → Goes (S.state source.old) (S.state source.new) }
    {
        let Some(head) = head else {
            return Err(FollowFault::Source(CopyFault::NotALog));
        };
        if head.generation > self.log.generation() {
            self.follow_anew(alloc, source, &head, on_first)?;
            return Ok(true);
        }
        if head.generation < self.log.generation() {
            return Err(FollowFault::Other);
        }
        if on_first != self.copied.on_first {
            return Err(FollowFault::Other);
        }
        self.take_all(alloc, source, &head)?;
        Ok(false)
    }

    // Takes all that the source has after what was copied, which began so when it was looked at.
    pub(crate) fn take_all<S: Source>(
        &mut self,
        alloc: Global,
        source: &mut S,
        head: &Head,
    ) -> Result<(), FollowFault>
        ensures all { S.honest → D.honest → (begin : State) → Tells begin → Heads begin.file head.now
            → (bodies stood : List (List ℕ)) → IsAlong D.Disk begin (S.state source.old) bodies stood self.old
            → OnOk result (GoesAlong D.Disk begin (S.state source.new) bodies stood self.new true) }
        ensures stays { S.honest → D.honest → (begin : State) → Tells begin → Heads begin.file head.now
            → (bodies stood : List (List ℕ)) → IsAlong D.Disk begin (S.state source.old) bodies stood self.old
            → OnErr result (StaysOrLost D.Disk bodies (S.state source.new) self.new) }
        ensures any_moment { S.honest → D.honest → (begin : State) → Tells begin → Heads begin.file head.now
            → (bodies stood : List (List ℕ)) → IsAlong D.Disk begin (S.state source.old) bodies stood self.old
            → Leaving D.Disk self.old.log.disk self.new.log.disk (IsPart self.old.log.log_bytes (S.state source.new)) }
        ensures beside { self.new.log.other ≡ self.old.log.other }
        ensures settings { self.new.log.log_bytes ≡ self.old.log.log_bytes }
        ensures on_first { self.new.copied.on_first ≡ self.old.copied.on_first }
        ensures goes { S.honest → Goes (S.state source.old) (S.state source.new) }
    {
        'pieces: for _ in 0..u64::MAX {
            if self.take_piece(alloc, source, head)? {
                return Ok(());
            }
        }
        Err(FollowFault::Moved)
    }

    // Takes a piece of it, and returns whether that was all. Nothing is appended if the log was begun anew meanwhile.
    fn take_piece<S: Source>(
        &mut self,
        alloc: Global,
        source: &mut S,
        head: &Head,
    ) -> Result<bool, FollowFault>
        ensures takes { S.honest → D.honest → (begin : State) → Tells begin → Heads begin.file head.now
            → (bodies stood : List (List ℕ)) → IsAlong D.Disk begin (S.state source.old) bodies stood self.old
            → IfOk result (GoesAlong D.Disk begin (S.state source.new) bodies stood self.new) }
        ensures stays { S.honest → D.honest → (begin : State) → Tells begin → Heads begin.file head.now
            → (bodies stood : List (List ℕ)) → IsAlong D.Disk begin (S.state source.old) bodies stood self.old
            → OnErr result (StaysOrLost D.Disk bodies (S.state source.new) self.new) }
        ensures any_moment { S.honest → D.honest → (begin : State) → Tells begin → Heads begin.file head.now
            → (bodies stood : List (List ℕ)) → IsAlong D.Disk begin (S.state source.old) bodies stood self.old
            → Leaving D.Disk self.old.log.disk self.new.log.disk (IsPart self.old.log.log_bytes (S.state source.new)) }
        ensures beside { self.new.log.other ≡ self.old.log.other }
        ensures settings { self.new.log.log_bytes ≡ self.old.log.log_bytes }
        ensures on_first { self.new.copied.on_first ≡ self.old.copied.on_first }
        ensures goes { S.honest → Goes (S.state source.old) (S.state source.new) }
    {
        let piece = Piece::read(alloc, source, &self.copied, self.log_bytes)?;
        ensure_same(alloc, source, head)?;
        let all = self.append(piece)?;
        Ok(all)
    }
}
