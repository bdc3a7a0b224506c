//! The versions of one key under multiversion timestamp ordering (Bernstein, Hadzilacos and Goodman,
//! Concurrency Control and Recovery in Database Systems, 5.3).
//!
//! A branch reads, of all versions of the key up to its own timestamp, the one with the greatest. Each
//! version keeps the greatest timestamp that read it, its read mark. A write is late if a branch above it
//! has already read a version below it: that read should have seen the write.
//!
//! The versions of all keys stand in one [`Pool`], a slab: what is pruned, rolled back or cleared is room for the next
//! version of any key. Contracts see a [`Chain`] over it as a list of versions, ascending by timestamp. `StandsFor`
//! ties that list to what happened: the writes of the key with their fates, and the answered reads. A call on one chain
//! leaves every other chain of the pool as it was, and the pool's number of versions changes as that chain's does.
//!
//! One binary search finds what a read at a timestamp sees and whether a write there is late: [`Chain::look`]. Its
//! [`Look`] serves the calls that read, mark or write there. The other calls search on their own.
//!
//! - `chain`: `Chain`, with every call on it
//! - `look`: `Look`, what a search found; `found`: `Found`, the source of a read; `fate`: `Fate`, how a branch ended
//! - `pool`: `Pool`; `version`: `Version`, what one branch left at a key, and `ValueBytes`, its bytes, its
//!   own or others' (`SharedBytes`)
//! - `finding`: the search; `changes`: how a read is marked, a write installed and settled; `pruning`: how versions are
//!   dropped; `slots`: the one version at a slot of the pool, and `Slots`, those of a chain
//! - `laws`: `others_stay`, that other chains stay; `idle_stands`, when a key may be forgotten; `worked_histories`,
//!   worked rows
//!
//! The definitions, in reading order: `Accesses`, what a read sees and when a write is late; `Chain`, the versions,
//! what changes them and `StandsFor`; `Look`; `Pool`; `Calls`, what a call leaves; `Last`, what is last committed;
//! `Idle`, `Within`; `Rows`, worked rows. `Stored`, `Target` and `Slots` are of the private steps.
#![tactic(auto)]

mod chain;
mod changes;
mod fate;
mod finding;
mod found;
mod laws;
mod look;
mod pool;
mod pruning;
mod slots;
mod version;

pub use chain::Chain;
pub use fate::Fate;
pub use found::Found;
pub use laws::{idle_stands, others_stay, worked_histories};
pub use look::Look;
pub use pool::Pool;
pub use version::{ValueBytes, Version};
