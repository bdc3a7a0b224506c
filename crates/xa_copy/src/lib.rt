//! A copy of a log whose server runs: `copy_log`, which reads the current one of its two files while another process may
//! append to it, and writes what it read to two new files.
//!
//! What is proved of a copy is `Copies`, for a source that is honest: each record stays where it stands until the log is begun
//! anew, with a greater generation (`Goes`). So does a server's file while no device call of the server's fails; an append that it
//! refuses is zeroed again, and its record may be in the copy, as it may be in what a crash leaves. That a read gives what stands at
//! one moment is a premise on the system (`FileSource`). Nothing is proved of when a fault comes; a source is only read.
//!
//! A standby is such a copy that goes on: `Standby::begin` opens it as a log, and each `follow` takes what the source has since.
//! What is proved of a round is `FollowsTo`: the standby is the log that the source was at a moment of it; and whatever is
//! answered, and whatever a crash leaves, is a log that the source was, or some first part of what was appended to it
//! (`StaysBeside`, `LeavesFollowed`). A snapshot is in it whole (`Was`).
//!
//! - `copy`: `copy_log`, and `TRIES`; `copied`: `Copied`, what was copied
//! - `standby`: `Standby`, and `begin`; `follow`: a round; `followed`: `Followed`, what it took; `follow_fault`: `FollowFault`, why
//!   none was made; `anew`: how a standby is begun anew with its source
//! - `piece`: what a source has after a log that was copied, as much as is appended at once; `snapshot`: the records with which a
//!   log begins that a checkpoint wrote
//! - `source`: the trait `Source`, a file that another process may append to, or begin anew, between two reads, and `Sources`,
//!   what opens them; `still`: `StillSource`, bytes that stay; `file_source`: `FileSource`, a file of the system
//! - `head`: the first record of a file, by which the current one is told
//! - `copying`: one record after another, up to the closing length; `gather`: what was read, up to where it is written
//! - `record`: the bytes of a record; `named`: those of a format's name
//! - `fault`: `CopyFault`, why no copy was made
#![tactic(auto)]

mod anew;
mod copied;
mod copy;
mod copying;
mod fault;
mod file_source;
mod follow;
mod follow_fault;
mod followed;
mod gather;
mod head;
mod named;
mod piece;
mod record;
mod snapshot;
mod source;
mod standby;
mod still;

pub use copied::Copied;
pub use copy::{TRIES, copy_log};
pub use fault::CopyFault;
pub use file_source::FileSource;
pub use follow_fault::FollowFault;
pub use followed::Followed;
pub use source::{Source, SourceFault, Sources};
pub use standby::Standby;
pub use still::StillSource;
