//! How a log is made on its disks, or read from them.
ghost use Rattle.std.specs.Prelude.{◌≡◌, ◌≤◌, ◌<◌, ◌↔◌, [], List, ℕ, true, false};
ghost use Rattle.std.specs.Prelude.{if◌then◌else◌, length, OnOk, IfOk, IfErr, IsErrOf, MatchResult, None};
ghost use Rattle.xa_disk.specs.{Disk.Same, Time.TimePasses};
ghost use Rattle.xa_disk.specs.Counts.{with_length, with_write, with_sync};
ghost use Rattle.xa_log.specs.Ahead.{IsMeasured};
ghost use Rattle.xa_log.specs.Calls.{OnlyReads, ReadsLittle, asked};
ghost use Rattle.xa_log.specs.{Believed.Chain.logged, Believed.Checkpoint.IsQuiet};
ghost use Rattle.xa_log.specs.Opened.{IsOpened, found_in, found_in_first, limit_of};
ghost use Rattle.xa_log.specs.Believed.Pair.{generation, pair_fault, logged_pair};
ghost use Rattle.xa_log.specs.Reading.{Ends, bodies_of, TellsFault, ExplainsNew};
ghost use Rattle.xa_log.specs.Believed.Stands.{EndsBehind};
ghost use Rattle.xa_log.specs.Believed.TwoFiles.{Pair, IsOpenPair, first_of, second_of};
ghost use Rattle.xa_log.specs.declared.format.TheConstants.{PREAMBLE_BYTES};

use crate::generation::generation_of_bodies;
use crate::looking::in_order;
use crate::opened::Opened;
use crate::opening::{create_on, open_on};
use crate::{Log, OpenFault};
use std::alloc::Global;
use xa_disk::Disk;

impl<D: Disk + Drop> Log<D> {
    /// Makes an empty log on the first of two empty disks, as `create_on` does, with its faults.
    pub fn create(
        alloc: Global,
        mut first: D,
        mut second: D,
        log_bytes: u64,
    ) -> Result<Log<D>, OpenFault>
        ensures log { D.honest → IfOk result (λ log. Pair D.Disk [] [] log × IsQuiet D.Disk [] log.other) }
        ensures ends { IfOk result (EndsBehind []) }
        ensures number { IfOk result (λ log. log.generation ≡ 0) }
        ensures measured { D.honest → IfOk result (IsMeasured D.Disk) }
        ensures empty { D.honest → OnOk result ((D.seen first ≡ []) × (D.seen second ≡ [])) }
        ensures room { OnOk result (PREAMBLE_BYTES ≤ log_bytes) }
        ensures settings { IfOk result (λ log. (log.log_bytes ≡ log_bytes) × (log.on_first ≡ true)) }
        ensures count { IfOk result (λ log. (D.failures (first_of log) ≡ D.failures first)
            × (D.failures (second_of log) ≡ D.failures second)) }
        ensures calls { IfOk result
            (λ log. D.counts (first_of log) ≡ with_sync (with_write (with_length (D.counts first)))) }
        ensures calls_second { IfOk result
            (λ log. D.counts (second_of log) ≡ with_sync (with_length (D.counts second))) }
        ensures too_long { IsErrOf result OpenFault.TooLong ↔ (log_bytes < PREAMBLE_BYTES) }
        ensures fault { D.honest → IfErr result (λ e. ExplainsNew e log_bytes (D.seen first) (D.seen second)) }
    {
        let opened = create_on(alloc, &mut first, &mut second, log_bytes)?;
        let (log, _none) = Log::on(first, second, opened);
        Ok(log)
    }

    /// Opens the log that two disks have, as `open_on` does, and returns its bodies.
    pub fn open(
        alloc: Global,
        mut first: D,
        mut second: D,
        log_bytes: u64,
    ) -> Result<(Log<D>, Vec<Vec<u8>>), OpenFault>
        ensures log { D.honest
            → IfOk result (λ r. IsOpenPair D.Disk (bodies_of r.1.items) (logged (D.seen r.0.other)) r.0) }
        ensures ends { IfOk result (λ r. EndsBehind (bodies_of r.1.items) r.0) }
        ensures number { IfOk result (λ r. r.0.generation ≡ generation (bodies_of r.1.items)) }
        ensures measured { D.honest → IfOk result (λ r. IsMeasured D.Disk r.0) }
        ensures fault { D.honest → TellsFault result (pair_fault log_bytes (D.seen first) (D.seen second)) }
        ensures logged { D.honest
            → IfOk result (λ r. logged_pair (D.seen first) (D.seen second) ≡ bodies_of r.1.items) }
        // What it leaves is a pair that an opening accepts, with the same bodies.
        ensures leaves { D.honest
            → IfOk result (λ r. (c d : List ℕ) → D.may_leave (first_of r.0) c → D.may_leave (second_of r.0) d
            → (pair_fault log_bytes c d ≡ None) × (logged_pair c d ≡ bodies_of r.1.items)) }
        ensures same { D.honest
            → IfOk result (λ r. (D.seen (first_of r.0) ≡ D.seen first) × (D.seen (second_of r.0) ≡ D.seen second)) }
        ensures time { D.honest → IfOk result (λ r. TimePasses D.Disk Same first (first_of r.0)) }
        ensures time_second { D.honest → IfOk result (λ r. TimePasses D.Disk Same second (second_of r.0)) }
        ensures settings { IfOk result (λ r. r.0.log_bytes ≡ log_bytes) }
        ensures count { IfOk result (λ r. (D.failures (first_of r.0) ≡ D.failures first)
            × (D.failures (second_of r.0) ≡ D.failures second)) }
        ensures calls { IfOk result (λ r. OnlyReads log_bytes (asked (D.counts first)) (D.counts (first_of r.0))) }
        ensures calls_second { IfOk result
            (λ r. OnlyReads log_bytes (asked (D.counts second)) (D.counts (second_of r.0))) }
        ensures calls_once { D.honest
            → IfOk result (λ r. OnlyReads (length (D.seen first)) (asked (D.counts first)) (D.counts (first_of r.0))) }
        ensures calls_once_second { D.honest
            → IfOk result (λ r. OnlyReads (length (D.seen second))
            (asked (D.counts second)) (D.counts (second_of r.0))) }
        ensures little { IfOk result
            (λ r. ReadsLittle D.Disk r.0.on_first first (first_of r.0) second (second_of r.0)) }
    {
        let opened = open_on(alloc, &mut first, &mut second, log_bytes)?;
        Ok(Log::on(first, second, opened))
    }

    /// The log that `create_on` or `open_on` made or read on these two disks, with its bodies.
    pub fn on(first: D, second: D, opened: Opened) -> (Log<D>, Vec<Vec<u8>>)
        ensures log { D.honest → IsOpened D.Disk first second opened
            → IsOpenPair D.Disk (bodies_of result.1.items) (logged (D.seen result.0.other)) result.0 }
        ensures ends { Ends (found_in opened) → EndsBehind (bodies_of result.1.items) result.0 }
        ensures disks { (first_of result.0 ≡ first) × (second_of result.0 ≡ second) }
        ensures on_first { result.0.on_first ≡ found_in_first opened }
        ensures bodies { result.1 ≡ (found_in opened).bodies }
        ensures format { result.0.format ≡ (found_in opened).format }
        ensures end { result.0.end ≡ (found_in opened).end }
        ensures digest { result.0.digest ≡ (found_in opened).digest }
        ensures number { result.0.generation ≡ generation (bodies_of result.1.items) }
        ensures settings { result.0.log_bytes ≡ limit_of opened }
        ensures measured { D.honest → IsOpened D.Disk first second opened → IsMeasured D.Disk result.0 }
        ensures alive { result.0.lost ≡ false }
    {
        let scan = opened.scan;
        let digest = scan.digest;
        let number = generation_of_bodies(&scan.bodies);
        let (disk, other) = in_order(first, second, opened.on_first);
        let (known, other_known) = in_order(opened.len, opened.second_len, opened.on_first);
        let log = Log {
            disk,
            other,
            on_first: opened.on_first,
            format: scan.format,
            log_bytes: opened.log_bytes,
            end: scan.end,
            digest,
            generation: number,
            known,
            other_known,
            buffer: opened.buffer,
            lost: false,
        };
        (log, scan.bodies)
    }
}
