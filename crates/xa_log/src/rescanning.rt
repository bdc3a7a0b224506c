//! Reading a log again, and giving its disks back.
ghost use Rattle.std.specs.Prelude.{◌≡◌, ◌⊎◌, List, ℕ, length, OnOk, OnErr, IfOk, IfErr};
ghost use Rattle.xa_log.specs.{Ahead.IsMeasured, Answers.CountsDeviceOf, Buffer.KeepsRoom};
ghost use Rattle.xa_log.specs.Calls.{Looks, LooksSecond, ReadsLittle};
ghost use Rattle.xa_log.specs.Believed.Chain.{logged};
ghost use Rattle.xa_log.specs.Believed.LogStates.{LogState, IsIn, MayFind, LostTears};
ghost use Rattle.xa_log.specs.Believed.LogStates.{IsCalmBeside, LeavesBoth, LooksTo, LeftByLook, KeepsAll};
ghost use Rattle.xa_log.specs.Believed.Pair.{generation, fault_pair, logged_of};
ghost use Rattle.xa_log.specs.{Reading.bodies_of, Reading.TellsFault, Believed.Stands.EndsBehind, Believed.Stands.Untouched};
ghost use Rattle.xa_log.specs.Believed.TwoFiles.{IsOpenPair, IsReadPair, first_of, second_of};

use crate::generation::generation_of_bodies;
use crate::looking::{arrange, in_order, read_again};
use crate::opening::new_buffer;
use crate::window::WINDOW;
use crate::{Log, OpenFault};
use xa_disk::Disk;

impl<D: Disk> Log<D> {
    /// Whether the first of the two files is the current one.
    pub fn on_first(&self) -> bool
        ensures { result ≡ self.now.on_first }
    {
        self.on_first
    }

    /// Gives the disks back, the first one first.
    pub fn into_disks(self) -> (D, D)
        ensures { result ≡ (first_of self, second_of self) }
    {
        in_order(self.disk, self.other, self.on_first)
    }

    /// Reads both files again, as `open` does. After a fault the log stands as before.
    pub fn rescan(&mut self) -> Result<Vec<Vec<u8>>, OpenFault>
        ensures log { D.honest
            → IfOk result (λ r. IsOpenPair D.Disk (bodies_of r.items) (logged (D.seen self.new.other)) self.new) }
        ensures ends { IfOk result (λ r. EndsBehind (bodies_of r.items) self.new) }
        ensures number { IfOk result (λ r. self.new.generation ≡ generation (bodies_of r.items)) }
        ensures fault { D.honest
            → TellsFault result
            (fault_pair self.old.log_bytes self.old.on_first (D.seen self.old.disk) (D.seen self.old.other)) }
        ensures logged { D.honest
            → IfOk result
            (λ r. logged_of self.old.on_first (D.seen self.old.disk) (D.seen self.old.other) ≡ bodies_of r.items) }
        ensures looks { D.honest → LooksTo D.Disk self.old self.new }
        ensures count { CountsDeviceOf D.failures result (first_of self.old) (first_of self.new)
            (second_of self.old) (second_of self.new) }
        ensures calls { Looks result self.old.log_bytes (D.counts (first_of self.old)) (D.counts (first_of self.new)) }
        ensures calls_second { LooksSecond result self.old.log_bytes
            (D.counts (second_of self.old)) (D.counts (second_of self.new)) }
        ensures calls_once { D.honest
            → Looks result (length (D.seen (first_of self.old)))
            (D.counts (first_of self.old)) (D.counts (first_of self.new)) }
        ensures calls_once_second { D.honest
            → LooksSecond result (length (D.seen (second_of self.old)))
            (D.counts (second_of self.old)) (D.counts (second_of self.new)) }
        ensures little { OnOk result (ReadsLittle D.Disk self.new.on_first (first_of self.old) (first_of self.new)
            (second_of self.old) (second_of self.new)) }
        ensures settings { self.new.log_bytes ≡ self.old.log_bytes }
        ensures room { KeepsRoom self.old self.new }
        ensures measured { D.honest → OnOk result (IsMeasured D.Disk self.new) }
        ensures as_before { OnErr result (Untouched self.old self.new) }
        ensures keeps { D.honest → OnErr result (KeepsAll D.Disk self.old self.new) }
        // Whichever state the log was in. If what was left to chance comes out well, a rescan that succeeds finds
        // what it may find, and the other file after it.
        ensures anew { D.honest → (state : LogState) → IsIn D.Disk state self.old → LostTears D.tears state
            → IsCalmBeside D.Disk state self.old
            → IfOk result
            (λ r. MayFind state (bodies_of r.items) × IsReadPair D.Disk (bodies_of r.items) self.new) }
        // And it finds a log, that isn't damaged, if device and memory serve.
        ensures readable { D.honest → (state : LogState) → IsIn D.Disk state self.old → LostTears D.tears state
            → IsCalmBeside D.Disk state self.old
            → IfErr result (λ e. (e ≡ OpenFault.Device) ⊎ (e ≡ OpenFault.Memory)) }
        // A crash at any moment of the call leaves of both files what one before the call could have left.
        ensures any_moment { D.honest → (state : LogState) → IsIn D.Disk state self.old → (first second : List ℕ)
            → LeftByLook D.Disk self.old self.new first second → LeavesBoth state self.old first second }
    {
        let alloc = *self.buffer.allocator();
        let mut other_window = new_buffer(alloc, WINDOW)?;
        let (on_first, scan, len, second_len) = read_again(
            alloc,
            &mut self.disk,
            &mut self.other,
            self.on_first,
            &mut self.buffer,
            &mut other_window,
            self.log_bytes,
        )?;
        arrange(&mut self.disk, &mut self.other, self.on_first, on_first);
        let (known, other_known) = in_order(len, second_len, on_first);
        let digest = scan.digest;
        self.on_first = on_first;
        self.known = known;
        self.other_known = other_known;
        self.format = scan.format;
        self.end = scan.end;
        self.digest = digest;
        self.generation = generation_of_bodies(&scan.bodies);
        self.lost = false;
        Ok(scan.bodies)
    }
}
