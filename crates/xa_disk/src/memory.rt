//! A disk in memory that keeps a record of its writes and syncs.
ghost use Rattle.std.specs.Prelude.{◌≡◌, ◌⊎◌, ◌+◌, ◌≤◌, ◌<◌, ◌≢◌, ◌↔◌, ℕ, [], ⊤, false};
ghost use Rattle.std.specs.Prelude.{length, Some, None, OnOk, OnErr, IfOk, IsErr, MatchBool, MatchResult, IsTrue, is_ok};
ghost use Rattle.xa_disk.specs.Disk.{put, Torn, Cut, Same, Only, AllOrNone, CountsFault, Reads};
ghost use Rattle.xa_disk.specs.Replay.{first_of, replay, IsImage, LeftSince};
ghost use Rattle.xa_disk.specs.Images.{counts_now, only_now, stays_of, all_or_none_torn};

use crate::bytes::{put_bytes, read_bytes};
use crate::call::{Call, kept, note_sync, note_write};
use crate::faults::Faults;
use crate::{Counts, Disk, DiskFault, Effect, SyncAnswer, Syncer};
use std::alloc::{AllocError, Global};
use std::marker::Model;

/// A disk in memory. A test plans which of its calls fail, and when it crashes.
#[derive(Debug, Drop)]
pub struct MemDisk {
    // What it held at first, if a write has changed the bytes since.
    first: Option<Vec<u8>>,
    calls: Vec<Call>,
    bytes: Vec<u8>,
    faults: Faults,
    failures: u64,
    counts: Counts,
    ghost replayed: { bytes.items ≡ (replay (first_of first bytes.items) calls.items).seen },
}

impl Model for MemDisk {
    ghost use Rattle.xa_disk.specs.{MemDiskFields.shown, MemDiskView.MemDiskView};

    ghost Value = { MemDiskView };

    ghost view = { shown };
}

// Copies what a disk holds at first, before the first write changes it.
fn keep_first(first: &mut Option<Vec<u8>>, bytes: &[u8], alloc: Global) -> Result<(), AllocError>
    ensures same { first_of first.new bytes.now ≡ first_of first.old bytes.now }
    ensures ok { OnOk result (first.new ≢ None) }
{
    if first.is_none() {
        *first = Some(Vec::from_slice(alloc, bytes)?);
    }
    Ok(())
}

// What a disk held at first: its bytes now, if no write has changed them.
fn held_first<'a>(first: &'a Option<Vec<u8>>, bytes: &'a [u8]) -> &'a [u8]
    ensures { result.now ≡ first_of first.now bytes.now }
{
    match first {
        Some(first) => first,
        None => bytes,
    }
}

impl MemDisk {
    ghost use Rattle.xa_disk.specs.Memory.{IsNew, Stays, Adds, Stops, SamePlans, Crashes, CrashesKeeping};

    /// An empty disk.
    pub fn new(alloc: Global) -> MemDisk
        ensures { IsNew [] result }
    {
        MemDisk::with_bytes(Vec::new(alloc))
    }

    /// A disk that holds these bytes, all of them stable.
    pub fn with_bytes(bytes: Vec<u8>) -> MemDisk
        ensures { IsNew bytes.items result }
    {
        let alloc = *bytes.allocator();
        MemDisk {
            first: None,
            calls: Vec::new(alloc),
            bytes,
            faults: Faults::none(alloc),
            failures: 0,
            counts: Counts::none(),
        }
    }

    /// Plans that the k-th device call from now fails; 1 is the next one. Of two plans for one call the
    /// later one counts, and a stop overrides both. Nothing else changes.
    pub fn fail(&mut self, k: u64, effect: Effect) -> Result<(), AllocError>
        ensures planned { OnOk result (Adds k effect self.old self.new) }
        ensures err { OnErr result (SamePlans self.old self.new) }
        ensures same { Stays self.old self.new }
    {
        self.faults.plan(k, effect)
    }

    /// From the k-th device call from now on each fails and has no effect, until a crash. Of two stops the earlier
    /// one counts. Nothing else changes.
    pub fn stop(&mut self, k: u64)
        ensures planned { Stops k self.old self.new }
        ensures same { Stays self.old self.new }
    {
        self.faults.stop(k);
    }

    /// A crash: the plans and a stop are gone, and all that no sync made stable. Moments count from 0 again.
    pub fn crash(&mut self) -> Result<(), AllocError>
        ensures ok { OnOk result (Crashes self.old self.new) }
        ensures err { OnErr result (self.new ≡ self.old) }
    {
        self.crash_keeping(0)
    }

    /// The same, but of the bytes that were written since the last sync with an effect the first k stay, in the order
    /// of the writes. A write that is cut leaves its front.
    pub fn crash_keeping(&mut self, k: u64) -> Result<(), AllocError>
        ensures ok { OnOk result (CrashesKeeping k self.old self.new) }
        ensures err { OnErr result (self.new ≡ self.old) }
    {
        let bytes = self.kept(k)?;
        self.first = None;
        self.bytes = bytes;
        self.calls.clear();
        self.faults.clear();
        Ok(())
    }
}

impl MemDisk {
    ghost use Rattle.xa_disk.specs.Keeping.{kept};
    ghost use Rattle.xa_disk.specs.Memory.{Keeps, SameCounts, SamePlans, CountsDown, Wrote, Synced, planned};

    // What a crash leaves that keeps the first k of the bytes written since the last sync.
    fn kept(&self, k: u64) -> Result<Vec<u8>, AllocError>
        ensures { IfOk result (λ bytes. bytes.items ≡ kept self.now.first self.now.calls k) }
    {
        let first = held_first(&self.first, &self.bytes);
        kept(*self.bytes.allocator(), first, &self.calls, k)
    }

    // The plan for the call that is made now, with which the counts are these.
    fn begin(&mut self, counts: Counts) -> Option<Effect>
        ensures plan { result ≡ planned self.old 1 }
        ensures later { CountsDown self.old self.new }
        ensures same { Keeps self.old self.new }
        ensures failures { self.new.failures ≡ self.old.failures }
        ensures counts { self.new.counts ≡ counts }
    {
        self.counts = counts;
        self.faults.take()
    }

    // Answers a call that was done or not.
    fn end(&mut self, plan: Option<Effect>, done: bool) -> Result<(), DiskFault>
        ensures ok { OnOk result ((plan ≡ None) × IsTrue done) }
        ensures err { OnErr result (plan ≡ None → done ≡ false) }
        ensures kept { Keeps self.old self.new }
        ensures plans { SamePlans self.old self.new }
        ensures counts { self.new.counts ≡ self.old.counts }
        ensures count { CountsFault result self.old.failures self.new.failures }
    {
        if plan.is_none() && done {
            return Ok(());
        }
        self.failures = self.failures.saturating_add(1);
        Err(DiskFault)
    }

    // A write with its effect.
    fn put(&mut self, at: u64, from: &[u8]) -> Result<(), AllocError>
        ensures ok { OnOk result (Wrote self.old self.new at from.now) }
        ensures err { OnErr result (Keeps self.old self.new) }
        ensures counted { SameCounts self.old self.new }
        ensures plans { SamePlans self.old self.new }
    {
        let alloc = *self.bytes.allocator();
        keep_first(&mut self.first, &self.bytes, alloc)?;
        note_write(&mut self.calls, alloc, at, from)?;
        match put_bytes(&mut self.bytes, at, from) {
            Ok(()) => Ok(()),
            Err(error) => {
                self.calls.pop();
                Err(error)
            }
        }
    }

    fn mark_sync(&mut self) -> Result<(), AllocError>
        ensures ok { OnOk result (Synced self.old self.new) }
        ensures err { OnErr result (Keeps self.old self.new) }
        ensures counted { SameCounts self.old self.new }
        ensures plans { SamePlans self.old self.new }
    {
        note_sync(&mut self.calls)?;
        Ok(())
    }

    // A write under a plan.
    fn try_put(&mut self, plan: Option<Effect>, at: u64, from: &[u8]) -> bool
        ensures done { MatchBool result (Wrote self.old self.new at from.now) (Keeps self.old self.new) }
        ensures counted { SameCounts self.old self.new }
        ensures lost { plan ≡ Some Effect.Lost → result ≡ false }
        ensures plans { SamePlans self.old self.new }
    {
        if let Some(Effect::Lost) = plan {
            return false;
        }
        match self.put(at, from) {
            Ok(()) => true,
            Err(_) => false,
        }
    }

    // A sync under a plan.
    fn try_sync(&mut self, plan: Option<Effect>) -> bool
        ensures done { MatchBool result (Synced self.old self.new) (Keeps self.old self.new) }
        ensures counted { SameCounts self.old self.new }
        ensures lost { plan ≡ Some Effect.Lost → result ≡ false }
        ensures plans { SamePlans self.old self.new }
    {
        if let Some(Effect::Lost) = plan {
            return false;
        }
        match self.mark_sync() {
            Ok(()) => true,
            Err(_) => false,
        }
    }
}

impl Disk for MemDisk {
    ghost use Rattle.xa_disk.specs.Counts.{with_length, with_read, with_write, with_sync};
    ghost use Rattle.xa_disk.specs.Memory.{Keeps, Wrote, Synced, PassesTime, CountsDown, Heeds, image_of, planned};
    ghost use Rattle.xa_disk.specs.Syncs.{HasFailed};

    ghost honest = { ⊤ };

    ghost seen = { λ d. d.bytes };

    ghost may_leave = { λ d c. IsImage (replay d.first d.calls) c };

    ghost moment = { λ d. length d.calls };

    ghost left_since = { λ d t c. LeftSince d.first d.calls t c };

    ghost tears = { AllOrNone };

    ghost tears_torn = { all_or_none_torn };

    ghost shortens = { ⊥ };

    ghost failures = { λ d. d.failures };

    ghost counts = { λ d. d.counts };

    ghost its_syncer = { λ _ s. s.handle ≡ None };

    ghost counts_now = { λ d t c le now. counts_now d.first d.calls t c le now };

    ghost only_now = { λ d c left. only_now d.first d.calls c left };

    ghost seen_may_stay = { λ d. stays_of d.first d.calls d.bytes d.replayed };

    fn length(&mut self) -> Result<u64, DiskFault>
        ensures value { IfOk result (λ n. n ≡ length self.old.bytes) }
        ensures same { self.new.bytes ≡ self.old.bytes }
        ensures time { PassesTime Same self.old self.new }
        ensures calls { self.new.counts ≡ with_length self.old.counts }
        ensures count { CountsFault result self.old.failures self.new.failures }
        ensures later { CountsDown self.old self.new }
        ensures heeds { Heeds (planned self.old 1) result
            (Keeps self.old self.new) ⊥ (Keeps self.old self.new) }
    {
        let plan = self.begin(self.counts.with_length());
        self.end(plan, true)?;
        Ok(self.bytes.len() as u64)
    }

    fn read_at(&mut self, at: u64, into: &mut [u8]) -> Result<(), DiskFault>
        requires { 1 ≤ length into.old }
        ensures value { OnOk result (Reads self.old.bytes at into.new) }
        ensures same { self.new.bytes ≡ self.old.bytes }
        ensures time { PassesTime Same self.old self.new }
        ensures calls { self.new.counts ≡ with_read (length into.old) self.old.counts }
        ensures count { CountsFault result self.old.failures self.new.failures }
        ensures later { CountsDown self.old self.new }
        ensures heeds { Heeds (planned self.old 1) result
            (Keeps self.old self.new)
            ((length self.old.bytes < at + length into.old) × Keeps self.old self.new)
            (Keeps self.old self.new) }
    {
        let plan = self.begin(self.counts.with_read(into.len()));
        let done = read_bytes(&self.bytes, at, into);
        self.end(plan, done)
    }

    fn write_at(&mut self, at: u64, from: &[u8]) -> Result<(), DiskFault>
        requires { 1 ≤ length from.now }
        ensures written { OnOk result (self.new.bytes ≡ put self.old.bytes at from.now) }
        ensures failed { OnErr result (AllOrNone self.old.bytes at from.now self.new.bytes) }
        ensures time { PassesTime (Torn at (length from.now)) self.old self.new }
        ensures calls { self.new.counts ≡ with_write self.old.counts }
        ensures count { CountsFault result self.old.failures self.new.failures }
        ensures later { CountsDown self.old self.new }
        ensures heeds { Heeds (planned self.old 1) result
            (Wrote self.old self.new at from.now) (Keeps self.old self.new) (Keeps self.old self.new) }
    {
        let plan = self.begin(self.counts.with_write());
        let done = self.try_put(plan, at, from);
        self.end(plan, done)
    }

    fn sync(&mut self) -> Result<(), DiskFault>
        ensures durable { OnOk result (Only self.old.bytes (image_of self.new)) }
        ensures same { self.new.bytes ≡ self.old.bytes }
        ensures time { PassesTime Same self.old self.new }
        ensures calls { self.new.counts ≡ with_sync self.old.counts }
        ensures count { CountsFault result self.old.failures self.new.failures }
        ensures later { CountsDown self.old self.new }
        ensures heeds { Heeds (planned self.old 1) result
            (Synced self.old self.new) (Keeps self.old self.new) (Keeps self.old self.new) }
    {
        let plan = self.begin(self.counts.with_sync());
        let done = self.try_sync(plan);
        self.end(plan, done)
    }

    // It has no room to give back.
    fn shorten(&mut self, to: u64) -> bool
        ensures same { self.new ≡ self.old }
        ensures never { result ≡ false }
        ensures time { PassesTime (Cut to) self.old self.new }
    {
        false
    }

    fn syncer(&self) -> Syncer {
        Syncer::none()
    }

    fn take_sync(&mut self, answer: SyncAnswer) -> Result<(), DiskFault>
        ensures durable { OnOk result (Only self.old.bytes (image_of self.new)) }
        ensures same { self.new.bytes ≡ self.old.bytes }
        ensures time { PassesTime Same self.old self.new }
        ensures calls { self.new.counts ≡ with_sync self.old.counts }
        ensures count { CountsFault result self.old.failures self.new.failures }
        ensures later { CountsDown self.old self.new }
        ensures heeds { Heeds (planned self.old 1) result
            (Synced self.old self.new) (Keeps self.old self.new) (Keeps self.old self.new) }
        ensures failed { HasFailed answer → IsErr result }
    {
        if answer.has_failed() {
            let plan = self.begin(self.counts.with_sync());
            return self.end(plan, false);
        }
        self.sync()
    }

    fn leave_sync(&mut self, answer: SyncAnswer)
        ensures time { PassesTime Same self.old self.new }
        ensures keeps { self.new ≡ self.old }
    {
        let _has_failed = answer.has_failed();
    }
}
