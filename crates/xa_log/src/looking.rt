//! Which of two files is the current one, and reading its log.
ghost use Rattle.std.specs.Prelude.{◌≡◌, ◌≢◌, ◌⊎◌, ◌+◌, ◌≤◌, ◌<◌, min, true, false, List, ℕ};
ghost use Rattle.std.specs.Prelude.{length, drop, OnOk, IfOk, IfErr, IfSome, MatchResult, MatchBool, Some, None, if◌then◌else◌};
ghost use Rattle.xa_disk.specs.Disk.{Same, Only, CountsFault};
ghost use Rattle.xa_disk.specs.{Time.TimePasses, declared.counts.Counts.Counts};
ghost use Rattle.xa_log.specs.Answers.{CountsDeviceOf};
ghost use Rattle.xa_log.specs.Calls.{Fetched, FetchedSome, Looks, LooksSecond, LooksAt, LooksSecondAt, ReadsLittle, asked};
ghost use Rattle.xa_log.specs.Reading.{Ends, Explains, is_newer};
ghost use Rattle.xa_log.specs.Believed.Chain.{format_of};
ghost use Rattle.xa_log.specs.Believed.Pair.{number_in, beats, pair_fault, fault_pair};
ghost use Rattle.xa_log.specs.Looking.{AreShort, IsFront, HasFront, either_newer, either_log, Tells};
ghost use Rattle.xa_log.specs.Looking.{Began, IsHead, HasHead, FetchedHead, Chooses, IsCurrent};

use crate::OpenFault;
use crate::format::Format;
use crate::found::Found;
use crate::heads::{Head, is_either_lost, number_in_first, read_heads};
use crate::reading::{Scan, read_front, read_records, synced_length};
use crate::record::size_of;
use crate::window::{Span, WINDOW};
use std::alloc::Global;
use std::mem;
use xa_disk::{Disk, DiskFault};
use xa_limits::FORMAT_BYTES;

/// Where in a body its number stands, which in the first body is the log's generation.
pub const NUMBER_OFFSET: usize = 1;

/// Where that number ends. A shorter body has the number 0.
pub const NUMBER_END: usize = 5;

/// How a file begins: its format, if it names one, or that it names a later one; and what a window has of it.
#[derive(Clone, Copy)]
pub struct Front {
    pub format: Option<Format>,
    pub newer: bool,
    pub span: Span,
}

// Syncs and measures one file and then the other, before a byte of either is read: so what is found outlasts a crash.
pub(crate) fn measure<D: Disk>(
    first: &mut D,
    second: &mut D,
    log_bytes: u64,
) -> Result<(u64, u64), OpenFault>
    ensures value { D.honest
        → MatchResult result (λ r. AreShort log_bytes (D.seen first.old) (D.seen second.old) r.0 r.1)
        (λ e. Explains e (pair_fault log_bytes (D.seen first.old) (D.seen second.old))) }
    ensures fits { IfOk result (λ r. (r.0 ≤ log_bytes) × (r.1 ≤ log_bytes)) }
    ensures durable { D.honest → OnOk result (Only (D.seen first.new) (D.may_leave first.new)) }
    ensures durable_second { D.honest → OnOk result (Only (D.seen second.new) (D.may_leave second.new)) }
    ensures same { D.honest → D.seen first.new ≡ D.seen first.old }
    ensures same_second { D.honest → D.seen second.new ≡ D.seen second.old }
    ensures time { D.honest → TimePasses D.Disk Same first.old first.new }
    ensures time_second { D.honest → TimePasses D.Disk Same second.old second.new }
    ensures count { CountsDeviceOf D.failures result first.old first.new second.old second.new }
    ensures calls { (most : ℕ)
        → MatchResult result (λ _. D.counts first.new ≡ asked (D.counts first.old))
        (λ e. LooksAt e most (D.counts first.old) (D.counts first.new)) }
    ensures calls_second { (most : ℕ)
        → MatchResult result (λ _. D.counts second.new ≡ asked (D.counts second.old))
        (λ e. LooksSecondAt e most (D.counts second.old) (D.counts second.new)) }
{
    let len = synced_length(first)?;
    let other_len = synced_length(second)?;
    if len > log_bytes || other_len > log_bytes {
        return Err(OpenFault::TooLong);
    }
    Ok((len, other_len))
}

// How a file of this length begins, as an empty window has it then. Fewer bytes than a format's name has are not read.
pub(crate) fn front_of<D: Disk>(
    disk: &mut D,
    window: &mut [u8],
    len: u64,
) -> Result<Front, DiskFault>
    requires { length window.old ≡ WINDOW }
    ensures front { D.honest → len ≡ length (D.seen disk.old) → IfOk result (IsFront (D.seen disk.old) window.new) }
    ensures holds { IfOk result (HasFront len) }
    ensures same { D.honest → D.seen disk.new ≡ D.seen disk.old }
    ensures time { D.honest → TimePasses D.Disk Same disk.old disk.new }
    ensures count { CountsFault result (D.failures disk.old) (D.failures disk.new) }
    ensures fetched { MatchResult result
        (λ f. Fetched len (f.span.from + f.span.have) (D.counts disk.old) (D.counts disk.new))
        (λ _. FetchedSome len (D.counts disk.old) (D.counts disk.new)) }
{
    if len < FORMAT_BYTES as u64 {
        return Ok(Front {
            format: None,
            newer: false,
            span: Span { from: 0, have: 0 },
        });
    }
    let span = read_front(disk, window, len)?;
    Ok(front_by(&window[..FORMAT_BYTES], span))
}

// How a file with these first eight bytes begins, and what a window has of it.
fn front_by(front: &[u8], span: Span) -> Front
    requires { length front.now ≡ FORMAT_BYTES }
    ensures format { result.format ≡ format_of front.now }
    ensures newer { result.newer ≡ is_newer front.now }
    ensures span { result.span ≡ span }
{
    match Format::of(front) {
        Ok(format) => Front {
            format: Some(format),
            newer: false,
            span,
        },
        Err(OpenFault::TooNew) => Front {
            format: None,
            newer: true,
            span,
        },
        Err(_) => Front {
            format: None,
            newer: false,
            span,
        },
    }
}

// The number in a body.
pub(crate) fn number_of(body: &[u8]) -> usize
    ensures { result ≡ number_in body.now }
{
    if body.len() < NUMBER_END {
        return 0;
    }
    size_of(&body[NUMBER_OFFSET..NUMBER_END])
}

// Whether a log is taken before that of the second file.
fn is_before(mine: &Option<Found>, other: &Option<Found>) -> bool
    ensures { (bodies stood : List (List ℕ)) → Tells bodies mine.now → Tells stood other.now
        → result ≡ beats true bodies stood }
{
    let generation = number_in_first(mine);
    let behind = number_in_first(other);
    behind < generation || (behind == generation && (other.is_none() || mine.is_some()))
}

// Which of two files is the current one, with how it begins.
fn choose(first: Option<Head>, second: Option<Head>) -> Option<(bool, Head)>
    ensures choice { (a window b other_window : List ℕ) → IsHead a window first → IsHead b other_window second
        → Chooses a b result }
    ensures chosen { IfSome result (λ c. (if c.0 then first else second) ≡ Some c.1) }
{
    match (first, second) {
        (Some(first), Some(second)) => {
            if is_before(&first.first, &second.first) {
                Some((true, first))
            } else {
                Some((false, second))
            }
        }
        (Some(first), None) => Some((true, first)),
        (None, Some(second)) => Some((false, second)),
        (None, None) => None,
    }
}

// Reads how both files begin. `TooNew` if either is of a later format.
pub(crate) fn read_fronts<D: Disk>(
    first: &mut D,
    second: &mut D,
    window: &mut [u8],
    other_window: &mut [u8],
    lens: (u64, u64),
) -> Result<(Front, Front), OpenFault>
    requires room { length window.old ≡ WINDOW }
    requires other_room { length other_window.old ≡ WINDOW }
    ensures front { D.honest → lens.0 ≡ length (D.seen first.old)
        → IfOk result (λ r. IsFront (D.seen first.old) window.new r.0) }
    ensures other_front { D.honest → lens.1 ≡ length (D.seen second.old)
        → IfOk result (λ r. IsFront (D.seen second.old) other_window.new r.1) }
    ensures newer { D.honest → lens.0 ≡ length (D.seen first.old) → lens.1 ≡ length (D.seen second.old)
        → MatchResult result (λ _. either_newer (D.seen first.old) (D.seen second.old) ≡ false)
        (λ e. e ≡ OpenFault.TooNew → either_newer (D.seen first.old) (D.seen second.old) ≡ true) }
    ensures holds { IfOk result (λ r. HasFront lens.0 r.0 × HasFront lens.1 r.1) }
    ensures kinds { IfErr result (λ e. (e ≡ OpenFault.Device) ⊎ (e ≡ OpenFault.TooNew)) }
    ensures same { D.honest → D.seen first.new ≡ D.seen first.old }
    ensures same_second { D.honest → D.seen second.new ≡ D.seen second.old }
    ensures time { D.honest → TimePasses D.Disk Same first.old first.new }
    ensures time_second { D.honest → TimePasses D.Disk Same second.old second.new }
    ensures count { CountsDeviceOf D.failures result first.old first.new second.old second.new }
    ensures fetched { MatchResult result
        (λ r. Fetched lens.0 (r.0.span.from + r.0.span.have) (D.counts first.old) (D.counts first.new))
        (λ _. FetchedSome lens.0 (D.counts first.old) (D.counts first.new)) }
    ensures fetched_second { MatchResult result
        (λ r. Fetched lens.1 (r.1.span.from + r.1.span.have) (D.counts second.old) (D.counts second.new))
        (λ _. FetchedSome lens.1 (D.counts second.old) (D.counts second.new)) }
{
    let front = front_of(first, window, lens.0)?;
    let other_front = front_of(second, other_window, lens.1)?;
    if front.newer || other_front.newer {
        return Err(OpenFault::TooNew);
    }
    Ok((front, other_front))
}

// Syncs and measures both files, and reads how both begin. Returns how long they are, and how they begin.
pub(crate) fn read_both<D: Disk>(
    alloc: Global,
    first: &mut D,
    second: &mut D,
    window: &mut [u8],
    other_window: &mut [u8],
    log_bytes: u64,
) -> Result<((u64, u64), (Option<Head>, Option<Head>)), OpenFault>
    requires room { length window.old ≡ WINDOW }
    requires other_room { length other_window.old ≡ WINDOW }
    ensures first { IfOk result (λ r. Began D.Disk log_bytes first.old first.new window.new r.0.0 r.1.0) }
    ensures second { IfOk result (λ r. Began D.Disk log_bytes second.old second.new other_window.new r.0.1 r.1.1) }
    ensures older { D.honest → OnOk result (either_newer (D.seen first.old) (D.seen second.old) ≡ false) }
    ensures fault { D.honest
        → IfErr result (λ e. Explains e (pair_fault log_bytes (D.seen first.old) (D.seen second.old))) }
    ensures same { D.honest → D.seen first.new ≡ D.seen first.old }
    ensures same_second { D.honest → D.seen second.new ≡ D.seen second.old }
    ensures time { D.honest → TimePasses D.Disk Same first.old first.new }
    ensures time_second { D.honest → TimePasses D.Disk Same second.old second.new }
    ensures count { CountsDeviceOf D.failures result first.old first.new second.old second.new }
    ensures calls { IfErr result (λ e. LooksAt e log_bytes (D.counts first.old) (D.counts first.new)) }
    ensures calls_second { IfErr result (λ e. LooksSecondAt e log_bytes (D.counts second.old) (D.counts second.new)) }
    ensures calls_once { D.honest
        → IfErr result (λ e. LooksAt e (length (D.seen first.old)) (D.counts first.old) (D.counts first.new)) }
    ensures calls_once_second { D.honest
        → IfErr result (λ e. LooksSecondAt e (length (D.seen second.old)) (D.counts second.old) (D.counts second.new)) }
{
    let lens = measure(first, second, log_bytes)?;
    let fronts = read_fronts(first, second, window, other_window, lens)?;
    let heads = read_heads(alloc, first, second, window, other_window, lens, fronts)?;
    Ok((lens, heads))
}

// Reads the log of the current one of two files that begin like this. The other one isn't touched. Returns their lengths.
pub(crate) fn read_current<D: Disk>(
    alloc: Global,
    first: &mut D,
    second: &mut D,
    window: &mut [u8],
    other_window: &mut [u8],
    lens: (u64, u64),
    heads: (Option<Head>, Option<Head>),
) -> Result<(bool, Scan, u64, u64), OpenFault>
    requires room { length window.old ≡ WINDOW }
    requires other_room { length other_window.old ≡ WINDOW }
    requires holds { HasHead lens.0 heads.0 }
    requires other_holds { HasHead lens.1 heads.1 }
    ensures value { D.honest → lens.0 ≡ length (D.seen first.old) → lens.1 ≡ length (D.seen second.old)
        → IsHead (D.seen first.old) window.old heads.0 → IsHead (D.seen second.old) other_window.old heads.1
        → MatchResult result (λ r. (either_log (D.seen first.old) (D.seen second.old) ≡ true)
        × IsCurrent (D.seen first.old) (D.seen second.old) r.0 r.1)
        (λ e. e ≡ OpenFault.NotALog → either_log (D.seen first.old) (D.seen second.old) ≡ false) }
    ensures kinds { IfErr result (λ e. (e ≡ OpenFault.Device) ⊎ (e ≡ OpenFault.Memory) ⊎ (e ≡ OpenFault.NotALog)) }
    ensures end { IfOk result (λ r. Ends r.1) }
    ensures fits { (most : ℕ) → lens.0 ≤ most → lens.1 ≤ most → IfOk result (λ r. r.1.end ≤ most) }
    ensures lens { IfOk result (λ r. (r.2 ≡ lens.0) × (r.3 ≡ lens.1)) }
    ensures other { IfOk result (λ r. MatchBool r.0 (second.new ≡ second.old) (first.new ≡ first.old)) }
    ensures same { D.honest → D.seen first.new ≡ D.seen first.old }
    ensures same_second { D.honest → D.seen second.new ≡ D.seen second.old }
    ensures time { D.honest → TimePasses D.Disk Same first.old first.new }
    ensures time_second { D.honest → TimePasses D.Disk Same second.old second.new }
    ensures count { CountsDeviceOf D.failures result first.old first.new second.old second.new }
    ensures fetched { (begin : Counts) (most : ℕ) → FetchedHead lens.0 most begin (D.counts first.old) heads.0
        → FetchedSome lens.0 begin (D.counts first.new) }
    ensures fetched_second { (begin : Counts) (most : ℕ)
        → FetchedHead lens.1 most begin (D.counts second.old) heads.1
        → FetchedSome lens.1 begin (D.counts second.new) }
{
    match choose(heads.0, heads.1) {
        Some((true, head)) => {
            let scan = read_records(alloc, first, window, head.format, head.first, lens.0)?;
            Ok((true, scan, lens.0, lens.1))
        }
        Some((false, head)) => {
            let scan = read_records(alloc, second, other_window, head.format, head.first, lens.1)?;
            Ok((false, scan, lens.0, lens.1))
        }
        None => Err(OpenFault::NotALog),
    }
}

// Syncs and measures both files, reads how both begin, and then the log of the current one. Returns it, whether it is
// the first file's, and how long both are. Each file has a window of its own, so that no byte is read twice.
pub(crate) fn read_pair<D: Disk>(
    alloc: Global,
    first: &mut D,
    second: &mut D,
    window: &mut [u8],
    other_window: &mut [u8],
    log_bytes: u64,
) -> Result<(bool, Scan, u64, u64), OpenFault>
    requires room { length window.old ≡ WINDOW }
    requires other_room { length other_window.old ≡ WINDOW }
    ensures value { D.honest
        → MatchResult result (λ r. (pair_fault log_bytes (D.seen first.old) (D.seen second.old) ≡ None)
        × IsCurrent (D.seen first.old) (D.seen second.old) r.0 r.1)
        (λ e. Explains e (pair_fault log_bytes (D.seen first.old) (D.seen second.old))) }
    ensures durable { D.honest → OnOk result (Only (D.seen first.new) (D.may_leave first.new)) }
    ensures durable_second { D.honest → OnOk result (Only (D.seen second.new) (D.may_leave second.new)) }
    ensures lens { D.honest → IfOk result
        (λ r. (r.2 ≡ length (D.seen first.old)) × (r.3 ≡ length (D.seen second.old))) }
    ensures end { IfOk result (λ r. Ends r.1) }
    ensures fits { IfOk result (λ r. r.1.end ≤ log_bytes) }
    ensures same { D.honest → D.seen first.new ≡ D.seen first.old }
    ensures same_second { D.honest → D.seen second.new ≡ D.seen second.old }
    ensures time { D.honest → TimePasses D.Disk Same first.old first.new }
    ensures time_second { D.honest → TimePasses D.Disk Same second.old second.new }
    ensures count { CountsDeviceOf D.failures result first.old first.new second.old second.new }
    ensures calls { Looks result log_bytes (D.counts first.old) (D.counts first.new) }
    ensures calls_second { LooksSecond result log_bytes (D.counts second.old) (D.counts second.new) }
    ensures calls_once { D.honest → Looks result (length (D.seen first.old)) (D.counts first.old) (D.counts first.new) }
    ensures calls_once_second { D.honest
        → LooksSecond result (length (D.seen second.old)) (D.counts second.old) (D.counts second.new) }
    ensures little { IfOk result (λ r. ReadsLittle D.Disk r.0 first.old first.new second.old second.new) }
{
    let (lens, heads) = read_both(alloc, first, second, window, other_window, log_bytes)?;
    if is_either_lost(&heads.0, &heads.1) {
        return Err(OpenFault::Damaged);
    }
    let read = read_current(alloc, first, second, window, other_window, lens, heads)?;
    if read.1.broken {
        return Err(OpenFault::Damaged);
    }
    Ok(read)
}

// The same of the current file and the other one, in the order of the two, by way of the front of a buffer.
pub(crate) fn read_again<D: Disk>(
    alloc: Global,
    disk: &mut D,
    other: &mut D,
    on_first: bool,
    buffer: &mut [u8],
    other_window: &mut [u8],
    log_bytes: u64,
) -> Result<(bool, Scan, u64, u64), OpenFault>
    requires room { WINDOW ≤ length buffer.old }
    requires other_room { length other_window.old ≡ WINDOW }
    ensures value { D.honest → MatchResult result
        (λ r. (fault_pair log_bytes on_first (D.seen disk.old) (D.seen other.old) ≡ None)
        × IsCurrent (D.seen (if on_first then disk.old else other.old))
        (D.seen (if on_first then other.old else disk.old)) r.0 r.1)
        (λ e. Explains e (fault_pair log_bytes on_first (D.seen disk.old) (D.seen other.old))) }
    ensures durable { D.honest → OnOk result (Only (D.seen disk.new) (D.may_leave disk.new)) }
    ensures durable_other { D.honest → OnOk result (Only (D.seen other.new) (D.may_leave other.new)) }
    ensures lens { D.honest → IfOk result
        (λ r. (r.2 ≡ length (D.seen (if on_first then disk.old else other.old)))
        × (r.3 ≡ length (D.seen (if on_first then other.old else disk.old)))) }
    ensures end { IfOk result (λ r. Ends r.1) }
    ensures fits { IfOk result (λ r. r.1.end ≤ log_bytes) }
    ensures same { D.honest → D.seen disk.new ≡ D.seen disk.old }
    ensures same_other { D.honest → D.seen other.new ≡ D.seen other.old }
    ensures time { D.honest → TimePasses D.Disk Same disk.old disk.new }
    ensures time_other { D.honest → TimePasses D.Disk Same other.old other.new }
    ensures count { CountsDeviceOf D.failures result
        (if on_first then disk.old else other.old) (if on_first then disk.new else other.new)
        (if on_first then other.old else disk.old) (if on_first then other.new else disk.new) }
    ensures calls { Looks result log_bytes
        (D.counts (if on_first then disk.old else other.old)) (D.counts (if on_first then disk.new else other.new)) }
    ensures calls_second { LooksSecond result log_bytes
        (D.counts (if on_first then other.old else disk.old)) (D.counts (if on_first then other.new else disk.new)) }
    ensures calls_once { D.honest → Looks result (length (D.seen (if on_first then disk.old else other.old)))
        (D.counts (if on_first then disk.old else other.old)) (D.counts (if on_first then disk.new else other.new)) }
    ensures calls_once_second { D.honest
        → LooksSecond result (length (D.seen (if on_first then other.old else disk.old)))
        (D.counts (if on_first then other.old else disk.old)) (D.counts (if on_first then other.new else disk.new)) }
    ensures little { IfOk result (λ r. ReadsLittle D.Disk r.0
        (if on_first then disk.old else other.old) (if on_first then disk.new else other.new)
        (if on_first then other.old else disk.old) (if on_first then other.new else disk.new)) }
{
    let window = &mut buffer[..WINDOW];
    if on_first {
        return read_pair(alloc, disk, other, window, other_window, log_bytes);
    }
    read_pair(alloc, other, disk, window, other_window, log_bytes)
}

// Swaps the two if the current one was the first of them and no longer is, or wasn't and now is.
pub(crate) fn arrange<D>(disk: &mut D, other: &mut D, on_first: bool, is_first: bool)
    ensures first { (if is_first then disk.new else other.new) ≡ (if on_first then disk.old else other.old) }
    ensures second { (if is_first then other.new else disk.new) ≡ (if on_first then other.old else disk.old) }
{
    if on_first != is_first {
        mem::swap(disk, other);
    }
}

// The two, with the one that is the first of them or isn't before the other one.
pub(crate) fn in_order<D>(one: D, other: D, is_first: bool) -> (D, D)
    ensures { result ≡ (if is_first then (one, other) else (other, one)) }
{
    if is_first { (one, other) } else { (other, one) }
}
