ghost use Rattle.std.specs.Prelude.{◌≡◌, []};
ghost use Rattle.xa_model.specs.State.{State};
ghost use Rattle.xa_room.specs.Believed.Recorded.{recorded};
ghost use Rattle.xa_sequencer.specs.Believed.GroupManager.{alone};

use crate::receipts::Receipts;
use std::alloc::Global;
use std::fmt;
use std::marker::{Model, PhantomData};
use xa_history::{Receipt, Start};
use xa_sequencer::Manages;

/// A manager with a receipt of each event that it answered. To a contract it is the manager as it is now, the receipts, and
/// how many found no memory.
///
/// It answers just what the manager does, also if a receipt finds no memory: that is counted, and nothing else changes.
/// While none was lost, the receipts are those of a legal history, from a state that `S` picks to the one that the manager
/// stands for.
#[derive(Drop)]
pub struct Room<M: Manages, S: Start> {
    pub(crate) manager: M,
    pub(crate) receipts: Receipts,
    of: PhantomData<S>,
}

impl<M: Manages, S: Start> Model for Room<M, S> {
    ghost use Rattle.xa_room.specs.Believed.Recorded.{Recorded};

    ghost Value = { Recorded M };

    ghost view = { λ r. record { manager = r.manager; kept = r.receipts.receipts; lost = r.receipts.lost } };
}

impl<M: Manages, S: Start> Room<M, S> {
    /// A room without receipts. Takes no memory.
    pub fn new(alloc: Global, manager: M) -> Room<M, S>
        ensures is { result ≡ record { manager = manager; kept = []; lost = 0 } }
        ensures stands { (s : State) → S.start s → M.manages.stands (alone manager) s
            → (recorded M.manages S.start).stands (alone result) s }
    {
        Room {
            manager,
            receipts: Receipts::new(alloc),
            of: PhantomData,
        }
    }

    /// The receipts of the events so far, at their places from 1 on.
    pub fn receipts(&self) -> &[Receipt]
        ensures { result.now ≡ self.now.kept }
    {
        self.receipts.kept()
    }

    /// How many receipts found no memory. It stops at the greatest number.
    pub fn lost(&self) -> u64
        ensures { result ≡ self.now.lost }
    {
        self.receipts.lost()
    }

    /// The manager. The receipts are freed.
    pub fn into_manager(self) -> M
        ensures { result ≡ self.manager }
    {
        self.manager
    }
}

impl<M: Manages + Drop, S: Start> Room<M, S> {
    /// The receipts, at their places from 1 on. The manager is freed.
    pub fn into_receipts(self) -> Vec<Receipt>
        ensures { result.items ≡ self.kept }
    {
        self.receipts.into_kept()
    }
}

/// Shows how many receipts there are, and how many found no memory.
impl<M: Manages, S: Start> fmt::Debug for Room<M, S> {
    fn fmt<W: fmt::Write>(&self, f: &mut fmt::Formatter<W>) -> fmt::Result {
        f.debug_struct("Room")
            .field("receipts", &self.receipts().len())
            .field("lost", &self.lost())
            .finish_non_exhaustive()
    }
}
