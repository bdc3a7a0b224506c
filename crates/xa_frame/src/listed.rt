use crate::encode::put_branch;
use crate::fault::FrameFault;
use crate::fields::branch_front;
use crate::known_branch::KnownBranch;
use std::alloc::AllocError;
use xa_fields::{put_xid, take_xid};
use xa_xid::Xid;

/// What a reply lists.
pub(crate) trait Listed {
    ghost use Rattle.std.specs.Prelude.{◌≡◌, ◌++◌, ℕ, List, OnOk};
    ghost use Rattle.xa_fields.specs.Answers.{Gives};
    ghost use Rattle.xa_frame.specs.Reading.{Reads};

    /// How one is spelled.
    ghost spell: { Self → List ℕ };

    /// What one holds.
    ghost fits: { Self → Type 0 };

    /// How one is read.
    ghost at: { Reads Self };

    /// Appends one.
    fn put(&self, out: &mut Vec<u8>) -> Result<(), AllocError>
        ensures bytes { OnOk result (out.new.items ≡ out.old.items ++ spell self.now) }
        ensures holds { OnOk result (fits self.now) };

    /// The one at the front, and what stands after it. Takes no memory.
    fn take_front(bytes: &[u8]) -> Result<(Self, &[u8]), FrameFault>
        ensures { Gives (λ x. (x.0, x.1.now)) result (at bytes.now) };
}

impl Listed for Xid {
    ghost use Rattle.xa_frame.specs.Reading.{name_at};
    ghost use Rattle.xa_xid.specs.{Spelling.bytes_of, Triple.IsWithinLimits};

    ghost spell = { bytes_of };

    ghost fits = { IsWithinLimits };

    ghost at = { name_at };

    fn put(&self, out: &mut Vec<u8>) -> Result<(), AllocError> {
        put_xid(out, self)
    }

    fn take_front(bytes: &[u8]) -> Result<(Xid, &[u8]), FrameFault> {
        Ok(take_xid(bytes)?)
    }
}

impl Listed for KnownBranch {
    ghost use Rattle.xa_frame.specs.{Limits.HoldsBranch, Reading.branch_at, Spelling.branch_bytes};

    ghost spell = { branch_bytes };

    ghost fits = { HoldsBranch };

    ghost at = { branch_at };

    fn put(&self, out: &mut Vec<u8>) -> Result<(), AllocError> {
        put_branch(out, self)
    }

    fn take_front(bytes: &[u8]) -> Result<(KnownBranch, &[u8]), FrameFault> {
        branch_front(bytes)
    }
}
