//! Tests of what no clause says, and no program shows, of disks and logs. What `xarm scan` and `xarm serve` print and leave
//! of two files is tested by `.ci/logs`, what `xarm play` answers after device calls that fail by `.ci/scripts`.
//!
//! - `disks`: what a crash leaves of a write after a file's end; real files; `folders`: where those stand
//! - `groups`: groups of records that fail, are cut, or fit to the byte
//! - `limits`: the longest bodies, checkpoints that fit to the byte, files that no log is made in
//! - `ends`: where a log's next record begins, its generation, and that nothing is written once one is lost
//! - `lists`: what recovery lists of records; `scans`: an output that can't be flushed; `returned`: disks that a refused opening
//!   gives back
//! - `log_pairs`: the records and logs that several of these tests have; `rows`: `none_wrong`
#![tactic(auto)]

mod log_pairs;
#[cfg(test)]
mod tests;
