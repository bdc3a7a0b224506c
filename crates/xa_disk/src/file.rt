//! A disk that is a file.
//!
//! Each call of a `Disk` is exactly one call of the file, with its arguments; after a sync that failed each further sync,
//! read and length fails, and makes none. So the disk keeps what the trait says if its file does. No contract can say what
//! the system does: of `HostFile`, whose calls are the system's, that is a premise of whoever relies on it. The code above a
//! `Disk` is generic, so it is the same code that is proved over each honest disk.
ghost use Rattle.std.specs.Prelude.{◌≡◌, ◌≢◌, ◌≤◌, ◌∷◌, true, false, None, if◌then◌else◌, length, take, IfOk, OnOk, OnErr, IsErr, MatchResult};
ghost use Rattle.xa_disk.specs.Counts.{no_calls, with_length, with_read, with_write, with_sync};
ghost use Rattle.xa_disk.specs.Disk.{put, Torn, Cut, Same, Only, Passes, CountsFault, Reads};
ghost use Rattle.xa_disk.specs.RawCall.{Measures, Gets, Puts, Cuts, Syncs, Takes};
ghost use Rattle.xa_disk.specs.Syncs.{HasFailed, IsDue, IsDueSync, IsSyncerOf};

use crate::opening::{locked, shared};
use crate::syncer::{SyncAnswer, Syncer};
use crate::tally::Tally;
use crate::told::Told;
use crate::{Disk, DiskFault, FileCall, FileFault, HostFile, RawFile};
use std::fs::File;
use std::io;

/// A disk that is a file, with counts of its calls and of those that failed. While it exists no other
/// `FileDisk` writes to the file, in this process or another. The first call that fails is reported on standard error.
#[derive(Debug, Drop)]
pub struct FileDisk<F: RawFile = HostFile> {
    file: F,
    tally: Tally,
    // A sync has failed. The system may have dropped what that one should have written, so a later one that succeeds would
    // say nothing of it. Reads may give these bytes though a crash loses them, or not give them: that stays so until the
    // file is reopened.
    unsynced: bool,
    ghost whole: { unsynced ≡ false → F.is_whole file ≡ true },
}

impl FileDisk<HostFile> {
    /// The file at a path, created if it isn't there, as `open` takes it.
    pub fn at(rt: &HostRuntime, path: &str) -> Result<FileDisk, DiskFault>
        ensures failures { IfOk result (λ disk. disk.tally.failures ≡ 0) }
        ensures counts { IfOk result (λ disk. disk.tally.counts ≡ no_calls) }
        ensures whole { IfOk result (λ disk. disk.unsynced ≡ false) }
    {
        match FileDisk::open(rt, path) {
            Ok(disk) => Ok(disk),
            Err(_) => Err(DiskFault),
        }
    }

    /// The regular file at a path, or that a link there leads to, locked for this disk alone until it is dropped. One that
    /// isn't there is created, readable and writable by its owner alone, but not through a link. It is synced, and so are
    /// its directory entry and the link's; the system is told to drop what it keeps of it in memory, so that reads give
    /// what the medium has.
    pub fn open(rt: &HostRuntime, path: &str) -> Result<FileDisk, FileFault>
        ensures failures { IfOk result (λ disk. disk.tally.failures ≡ 0) }
        ensures counts { IfOk result (λ disk. disk.tally.counts ≡ no_calls) }
        ensures whole { IfOk result (λ disk. disk.unsynced ≡ false) }
        ensures error { IfOk result (λ disk. disk.tally.error ≡ None) }
    {
        let file = locked(rt, path)?;
        FileDisk::on_shared(rt, path, file)
    }

    /// The regular file at a path, for reads: each write fails. It may be one that can't be written. Nothing is
    /// created. `InUse` if a disk that writes has it; if the file can't be locked, that isn't known. It is synced, and
    /// dropped from memory, as `open` does.
    pub fn for_reading(rt: &HostRuntime, path: &str) -> Result<FileDisk, FileFault>
        ensures failures { IfOk result (λ disk. disk.tally.failures ≡ 0) }
        ensures counts { IfOk result (λ disk. disk.tally.counts ≡ no_calls) }
        ensures whole { IfOk result (λ disk. disk.unsynced ≡ false) }
        ensures error { IfOk result (λ disk. disk.tally.error ≡ None) }
    {
        let file = shared(rt, path)?;
        FileDisk::on_shared(rt, path, file)
    }

    // A disk on the system's file.
    fn on_shared(rt: &HostRuntime, path: &str, file: File) -> Result<FileDisk, FileFault>
        ensures failures { IfOk result (λ disk. disk.tally.failures ≡ 0) }
        ensures counts { IfOk result (λ disk. disk.tally.counts ≡ no_calls) }
        ensures whole { IfOk result (λ disk. disk.unsynced ≡ false) }
        ensures error { IfOk result (λ disk. disk.tally.error ≡ None) }
    {
        let file = HostFile::of(rt.alloc(), file)?;
        FileDisk::on(rt, path, file)
    }
}

impl<F: RawFile + Drop> FileDisk<F> {
    /// A disk on a file that was opened at a path, which is reported with its faults.
    pub fn on(rt: &HostRuntime, path: &str, file: F) -> Result<FileDisk<F>, FileFault>
        requires { F.is_whole file ≡ true }
        ensures file { IfOk result (λ disk. disk.file ≡ file) }
        ensures failures { IfOk result (λ disk. disk.tally.failures ≡ 0) }
        ensures counts { IfOk result (λ disk. disk.tally.counts ≡ no_calls) }
        ensures whole { IfOk result (λ disk. disk.unsynced ≡ false) }
        ensures error { IfOk result (λ disk. disk.tally.error ≡ None) }
    {
        let Ok(tally) = Tally::new(rt, path) else {
            return Err(FileFault::Memory);
        };
        Ok(FileDisk {
            file,
            tally,
            unsynced: false,
        })
    }

    /// What the system said of the first call that failed, such as that there is no space; `None` if none has.
    pub fn error(&self) -> Option<io::Error>
        ensures { result ≡ self.now.tally.error }
    {
        self.tally.error
    }
}

// Takes what a sync was answered, or syncs the file, unless a sync has failed.
fn try_sync<F: RawFile>(file: &mut F, unsynced: bool, answer: SyncAnswer) -> io::Result<()>
    requires { unsynced ≡ false → F.is_whole file.old ≡ true }
    ensures refused { unsynced ≡ true → IsErr result }
    ensures failed { HasFailed answer → IsErr result }
    ensures durable { F.honest → OnOk result (Only (F.seen file.old) (F.may_leave file.new)) }
    ensures whole { OnOk result (F.is_whole file.new ≡ true) }
    ensures same { F.honest → F.seen file.new ≡ F.seen file.old }
    ensures time { F.honest → Passes Same (F.moment file.old) (F.moment file.new)
        (F.left_since file.old) (F.left_since file.new) (F.may_leave file.old) (F.may_leave file.new) }
    ensures none { F.recorded → unsynced ≡ true → F.calls file.new ≡ F.calls file.old }
    ensures takes { F.recorded → unsynced ≡ false → IsDueSync answer (F.file file.old) (F.written file.old)
        → F.calls file.new ≡ Takes ∷ F.calls file.old }
    ensures syncs { F.recorded → unsynced ≡ false → (IsDueSync answer (F.file file.old) (F.written file.old) → ⊥)
        → F.calls file.new ≡ Syncs ∷ F.calls file.old }
{
    let told = answer.into_told();
    if unsynced {
        return Err(failed_before());
    }
    match told {
        Some(told) => take_told(file, told),
        None => file.sync(),
    }
}

// Takes what a sync was answered. If that isn't one of all that was written to this file, the file is synced: that
// fails, too, if the other one has.
fn take_told<F: RawFile>(file: &mut F, told: Told) -> io::Result<()>
    requires { F.is_whole file.old ≡ true }
    ensures failed { IsErr told.answer → IsErr result }
    ensures durable { F.honest → OnOk result (Only (F.seen file.old) (F.may_leave file.new)) }
    ensures whole { OnOk result (F.is_whole file.new ≡ true) }
    ensures same { F.honest → F.seen file.new ≡ F.seen file.old }
    ensures time { F.honest → Passes Same (F.moment file.old) (F.moment file.new)
        (F.left_since file.old) (F.left_since file.new) (F.may_leave file.old) (F.may_leave file.new) }
    ensures takes { F.recorded → IsDue told (F.file file.old) (F.written file.old)
        → F.calls file.new ≡ Takes ∷ F.calls file.old }
    ensures syncs { F.recorded → (IsDue told (F.file file.old) (F.written file.old) → ⊥)
        → F.calls file.new ≡ Syncs ∷ F.calls file.old }
{
    if told.is_due(file.id(), file.writes()) {
        return file.take_sync(told);
    }
    let synced = file.sync();
    told.into_answer()?;
    synced
}

fn failed_before() -> io::Error {
    io::Error::other("an earlier sync failed")
}

impl<F: RawFile> Disk for FileDisk<F> {
    ghost honest = { F.honest };

    ghost seen = { λ d. F.seen d.file };

    ghost may_leave = { λ d. F.may_leave d.file };

    ghost moment = { λ d. F.moment d.file };

    ghost left_since = { λ d. F.left_since d.file };

    ghost tears = { F.tears };

    ghost tears_torn = { F.tears_torn };

    ghost shortens = { F.shortens };

    ghost failures = { λ d. d.tally.failures };

    ghost counts = { λ d. d.tally.counts };

    ghost its_syncer = { λ d s. IsSyncerOf s (F.file d.file) (F.written d.file) };

    ghost counts_now = { λ d. F.counts_now d.file };

    ghost only_now = { λ d. F.only_now d.file };

    ghost seen_may_stay = { λ d. F.seen_may_stay d.file };

    fn length(&mut self) -> Result<u64, DiskFault>
        ensures value { F.honest → IfOk result (λ n. n ≡ length (F.seen self.old.file)) }
        ensures same { F.honest → F.seen self.new.file ≡ F.seen self.old.file }
        ensures time { F.honest → Passes Same (F.moment self.old.file) (F.moment self.new.file)
            (F.left_since self.old.file) (F.left_since self.new.file)
            (F.may_leave self.old.file) (F.may_leave self.new.file) }
        ensures called { F.recorded → F.calls self.new.file
            ≡ (if self.old.unsynced then F.calls self.old.file else Measures ∷ F.calls self.old.file) }
        ensures refused { self.old.unsynced ≡ true → IsErr result }
        ensures calls { self.new.tally.counts ≡ with_length self.old.tally.counts }
        ensures count { CountsFault result self.old.tally.failures self.new.tally.failures }
        ensures told { MatchResult result (λ _. self.new.tally.error ≡ self.old.tally.error)
            (λ _. self.new.tally.error ≢ None) }
        ensures first { self.old.tally.error ≢ None → self.new.tally.error ≡ self.old.tally.error }
        ensures unsynced { self.new.unsynced ≡ self.old.unsynced }
    {
        self.tally.counts = self.tally.counts.with_length();
        let length = if self.unsynced {
            Err(failed_before())
        } else {
            self.file.length()
        };
        self.tally.answer(FileCall::Length, length)
    }

    fn read_at(&mut self, at: u64, into: &mut [u8]) -> Result<(), DiskFault>
        requires { 1 ≤ length into.old }
        ensures value { F.honest → OnOk result (Reads (F.seen self.old.file) at into.new) }
        ensures same { F.honest → F.seen self.new.file ≡ F.seen self.old.file }
        ensures time { F.honest → Passes Same (F.moment self.old.file) (F.moment self.new.file)
            (F.left_since self.old.file) (F.left_since self.new.file)
            (F.may_leave self.old.file) (F.may_leave self.new.file) }
        ensures called { F.recorded → F.calls self.new.file
            ≡ (if self.old.unsynced then F.calls self.old.file else Gets at (length into.old) ∷ F.calls self.old.file) }
        ensures refused { self.old.unsynced ≡ true → IsErr result }
        ensures calls { self.new.tally.counts ≡ with_read (length into.old) self.old.tally.counts }
        ensures count { CountsFault result self.old.tally.failures self.new.tally.failures }
        ensures told { MatchResult result (λ _. self.new.tally.error ≡ self.old.tally.error)
            (λ _. self.new.tally.error ≢ None) }
        ensures first { self.old.tally.error ≢ None → self.new.tally.error ≡ self.old.tally.error }
        ensures unsynced { self.new.unsynced ≡ self.old.unsynced }
    {
        self.tally.counts = self.tally.counts.with_read(into.len());
        let read = if self.unsynced {
            Err(failed_before())
        } else {
            self.file.read_at(at, into)
        };
        self.tally.answer(FileCall::Read, read)
    }

    fn write_at(&mut self, at: u64, from: &[u8]) -> Result<(), DiskFault>
        requires { 1 ≤ length from.now }
        ensures written { F.honest → OnOk result (F.seen self.new.file ≡ put (F.seen self.old.file) at from.now) }
        ensures failed { F.honest → OnErr result (F.tears (F.seen self.old.file) at from.now (F.seen self.new.file)) }
        ensures time { F.honest → Passes (Torn at (length from.now)) (F.moment self.old.file) (F.moment self.new.file)
            (F.left_since self.old.file) (F.left_since self.new.file)
            (F.may_leave self.old.file) (F.may_leave self.new.file) }
        ensures called { F.recorded → F.calls self.new.file ≡ Puts at from.now ∷ F.calls self.old.file }
        ensures calls { self.new.tally.counts ≡ with_write self.old.tally.counts }
        ensures count { CountsFault result self.old.tally.failures self.new.tally.failures }
        ensures told { MatchResult result (λ _. self.new.tally.error ≡ self.old.tally.error)
            (λ _. self.new.tally.error ≢ None) }
        ensures first { self.old.tally.error ≢ None → self.new.tally.error ≡ self.old.tally.error }
        ensures unsynced { self.new.unsynced ≡ self.old.unsynced }
    {
        self.tally.counts = self.tally.counts.with_write();
        let written = self.file.write_at(at, from);
        self.tally.answer(FileCall::Write, written)
    }

    fn sync(&mut self) -> Result<(), DiskFault>
        ensures durable { F.honest → OnOk result (Only (F.seen self.old.file) (F.may_leave self.new.file)) }
        ensures same { F.honest → F.seen self.new.file ≡ F.seen self.old.file }
        ensures time { F.honest → Passes Same (F.moment self.old.file) (F.moment self.new.file)
            (F.left_since self.old.file) (F.left_since self.new.file)
            (F.may_leave self.old.file) (F.may_leave self.new.file) }
        // After a sync that failed each later one fails, and makes no call.
        ensures called { F.recorded → F.calls self.new.file
            ≡ (if self.old.unsynced then F.calls self.old.file else Syncs ∷ F.calls self.old.file) }
        ensures refused { self.old.unsynced ≡ true → IsErr result }
        ensures unsynced { MatchResult result (λ _. self.new.unsynced ≡ false) (λ _. self.new.unsynced ≡ true) }
        ensures calls { self.new.tally.counts ≡ with_sync self.old.tally.counts }
        ensures count { CountsFault result self.old.tally.failures self.new.tally.failures }
        ensures told { MatchResult result (λ _. self.new.tally.error ≡ self.old.tally.error)
            (λ _. self.new.tally.error ≢ None) }
        ensures first { self.old.tally.error ≢ None → self.new.tally.error ≡ self.old.tally.error }
    {
        self.take_sync(SyncAnswer::none())
    }

    // The system may keep the file as it is, as one that can't be cut: nobody is told, since that only costs space.
    fn shorten(&mut self, to: u64) -> bool
        ensures cut { F.honest
            → F.seen self.new.file ≡ (if result then take to (F.seen self.old.file) else F.seen self.old.file) }
        ensures time { F.honest → Passes (Cut to) (F.moment self.old.file) (F.moment self.new.file)
            (F.left_since self.old.file) (F.left_since self.new.file)
            (F.may_leave self.old.file) (F.may_leave self.new.file) }
        ensures asked { F.shortens → result ≡ true }
        ensures called { F.recorded → F.calls self.new.file ≡ Cuts to ∷ F.calls self.old.file }
        ensures tally { self.new.tally ≡ self.old.tally }
        ensures unsynced { self.new.unsynced ≡ self.old.unsynced }
    {
        self.file.shorten(to)
    }

    fn syncer(&self) -> Syncer {
        Syncer::of(self.file.handle(), self.file.writes())
    }

    fn take_sync(&mut self, answer: SyncAnswer) -> Result<(), DiskFault>
        ensures durable { F.honest → OnOk result (Only (F.seen self.old.file) (F.may_leave self.new.file)) }
        ensures same { F.honest → F.seen self.new.file ≡ F.seen self.old.file }
        ensures time { F.honest → Passes Same (F.moment self.old.file) (F.moment self.new.file)
            (F.left_since self.old.file) (F.left_since self.new.file)
            (F.may_leave self.old.file) (F.may_leave self.new.file) }
        ensures none { F.recorded → self.old.unsynced ≡ true → F.calls self.new.file ≡ F.calls self.old.file }
        // The answer of the sync that is due is taken, and of no other: after another one the file is synced.
        ensures takes { F.recorded → self.old.unsynced ≡ false
            → IsDueSync answer (F.file self.old.file) (F.written self.old.file)
            → F.calls self.new.file ≡ Takes ∷ F.calls self.old.file }
        ensures syncs { F.recorded → self.old.unsynced ≡ false
            → (IsDueSync answer (F.file self.old.file) (F.written self.old.file) → ⊥)
            → F.calls self.new.file ≡ Syncs ∷ F.calls self.old.file }
        ensures failed { HasFailed answer → IsErr result }
        ensures refused { self.old.unsynced ≡ true → IsErr result }
        ensures unsynced { MatchResult result (λ _. self.new.unsynced ≡ false) (λ _. self.new.unsynced ≡ true) }
        ensures calls { self.new.tally.counts ≡ with_sync self.old.tally.counts }
        ensures count { CountsFault result self.old.tally.failures self.new.tally.failures }
        ensures told { MatchResult result (λ _. self.new.tally.error ≡ self.old.tally.error)
            (λ _. self.new.tally.error ≢ None) }
        ensures first { self.old.tally.error ≢ None → self.new.tally.error ≡ self.old.tally.error }
    {
        self.tally.counts = self.tally.counts.with_sync();
        let synced = try_sync(&mut self.file, self.unsynced, answer);
        let answer = self.tally.answer(FileCall::Sync, synced);
        self.unsynced = answer.is_err();
        answer
    }

    fn leave_sync(&mut self, answer: SyncAnswer)
        ensures time { F.honest → Passes Same (F.moment self.old.file) (F.moment self.new.file)
            (F.left_since self.old.file) (F.left_since self.new.file)
            (F.may_leave self.old.file) (F.may_leave self.new.file) }
        ensures file { self.new.file ≡ self.old.file }
        ensures tally { self.new.tally ≡ self.old.tally }
        ensures failed { HasFailed answer → self.new.unsynced ≡ true }
        ensures unsynced { self.old.unsynced ≡ true → self.new.unsynced ≡ true }
    {
        if answer.has_failed() {
            self.unsynced = true;
        }
    }
}
