//! Making room for a long record, so that its append or its checkpoint takes no memory.
ghost use Rattle.std.specs.Prelude.{◌≡◌, ◌≤◌, OnOk, OnErr};
ghost use Rattle.xa_log.specs.{Buffer.Holds, Buffer.KeepsRoom, Believed.LogStates.KeepsAll, Believed.Stands.Untouched};

use crate::Log;
use crate::ahead::READY_BYTES;
use crate::opening::new_buffer;
use std::alloc::AllocError;
use xa_disk::Disk;
use xa_limits::{AROUND_CLOSED, MOST_BODY};

impl<D: Disk> Log<D> {
    /// Has the log's buffer hold the record of a body of `body` bytes, with the zeros that may go after it. A body of
    /// up to `MOST_BODY_OF_ONE` bytes always fits. Asks nothing of the disks, and changes nothing else; nothing at all
    /// if there is no memory. The buffer grows to the longest record that was reserved and no further, to 8,650,792
    /// bytes for a body of `MOST_BODY` bytes.
    pub fn reserve(&mut self, body: usize) -> Result<(), AllocError>
        requires { body ≤ MOST_BODY }
        ensures holds { OnOk result (Holds self.new body) }
        ensures room { KeepsRoom self.old self.new }
        ensures refused { OnErr result (self.new ≡ self.old) }
        ensures disks { (self.new.disk ≡ self.old.disk) × (self.new.other ≡ self.old.other) }
        ensures untouched { Untouched self.old self.new }
        ensures state { KeepsAll D.Disk self.old self.new }
    {
        let room = AROUND_CLOSED + body + READY_BYTES as usize;
        if self.buffer.len() < room {
            let alloc = *self.buffer.allocator();
            self.buffer = new_buffer(alloc, room)?;
        }
        Ok(())
    }
}
