//! How many of what was measured were at most this long, or this many, as Prometheus reads it.
ghost use Rattle.std.specs.Fmt.{decimal};
ghost use Rattle.std.specs.Prelude.{◌≡◌, ◌<◌, ◌+◌, ◌/◌, ◌%◌, ◌^◌, ◌++◌, IfOk, OnOk};
ghost use Rattle.xa_operate.specs.Histograms.{all, bucket_line, bucket_lines, buckets, digit, first_id, histogram_heading};
ghost use Rattle.xa_operate.specs.Histograms.{histogram_help, histogram_name, histogram_text, in_buckets, last_lines, number_text};
ghost use Rattle.xa_operate.specs.Histograms.{seconds_text, six_digits, sum_id};

use crate::family::push_labelled;
use crate::metrics::{push_heading, push_worded};
use crate::told::count_of;
use std::alloc::{AllocError, Global};

/// What is measured of groups of calls: how many microseconds their syncs take, or how many calls they have.
#[derive(Clone, Copy, Debug, PartialEq, Eq)]
pub(crate) enum Histogram {
    Syncs,
    Groups,
}

/// The id of how many groups there were.
pub(crate) const GROUPS: u64 = 3;

impl Histogram {
    fn name(self) -> &'static str
        ensures { result.now ≡ histogram_name self }
    {
        match self {
            Histogram::Syncs => "xarm_sync_seconds",
            Histogram::Groups => "xarm_group_calls",
        }
    }

    fn help(self) -> &'static str
        ensures { result.now ≡ histogram_help self }
    {
        match self {
            Histogram::Syncs => "How long the log's syncs for groups of calls took.",
            Histogram::Groups => "How many calls shared a sync.",
        }
    }

    /// The id of the first bucket.
    fn first_id(self) -> u64
        ensures value { result ≡ first_id self }
        ensures small { result < 2000 }
    {
        match self {
            Histogram::Syncs => 1000,
            Histogram::Groups => 1100,
        }
    }

    fn buckets(self) -> u32
        ensures value { result ≡ buckets self }
        ensures few { result < 32 }
    {
        match self {
            Histogram::Syncs => 25,
            Histogram::Groups => 17,
        }
    }

    /// The id of what was measured in all.
    fn sum_id(self) -> u64
        ensures { result ≡ sum_id self }
    {
        match self {
            Histogram::Syncs => 5,
            Histogram::Groups => 4,
        }
    }
}

/// Adds a histogram, whole.
pub(crate) fn push_histogram(
    alloc: Global,
    text: &mut Vec<u8>,
    numbers: &[u64],
    histogram: Histogram,
) -> Result<(), AllocError>
    ensures { OnOk result (text.new.items ≡ text.old.items ++ histogram_text histogram numbers.now) }
{
    push_front(text, histogram)?;
    let under = push_buckets(alloc, text, numbers, histogram)?;
    push_last(alloc, text, numbers, histogram, under)
}

fn push_front(text: &mut Vec<u8>, histogram: Histogram) -> Result<(), AllocError>
    ensures { OnOk result (text.new.items ≡ text.old.items ++ histogram_heading histogram) }
{
    push_heading(text, histogram.name(), "histogram", histogram.help())
}

/// Adds a line for each bucket, and gives how many are in them.
fn push_buckets(
    alloc: Global,
    text: &mut Vec<u8>,
    numbers: &[u64],
    histogram: Histogram,
) -> Result<u64, AllocError>
    ensures lines { OnOk result (text.new.items ≡ text.old.items ++ bucket_lines histogram numbers.now (buckets histogram)) }
    ensures all { IfOk result (λ n. n ≡ in_buckets histogram numbers.now (buckets histogram)) }
{
    let first = histogram.first_id();
    let mut under: u64 = 0;
    for bucket in 0..histogram.buckets() {
        under = under.saturating_add(count_of(numbers, first + u64::from(bucket)));
        push_bucket(alloc, text, histogram, bucket, under)?;
    }
    Ok(under)
}

fn push_bucket(
    alloc: Global,
    text: &mut Vec<u8>,
    histogram: Histogram,
    bucket: u32,
    under: u64,
) -> Result<(), AllocError>
    requires { bucket < 32 }
    ensures { OnOk result (text.new.items ≡ text.old.items ++ bucket_line histogram bucket under) }
{
    let bound = number_text(alloc, histogram, power(bucket))?;
    text.extend_from_slice(histogram.name().as_bytes())?;
    push_labelled(alloc, text, "_bucket", "le", bound.as_slice(), under)
}

fn power(exponent: u32) -> u64
    requires { exponent < 32 }
    ensures { result ≡ 2 ^ exponent }
{
    2u64.pow(exponent)
}

/// Adds how many there were in all, and what they come to.
fn push_last(
    alloc: Global,
    text: &mut Vec<u8>,
    numbers: &[u64],
    histogram: Histogram,
    under: u64,
) -> Result<(), AllocError>
    requires { under ≡ in_buckets histogram numbers.now (buckets histogram) }
    ensures { OnOk result (text.new.items ≡ text.old.items ++ last_lines histogram numbers.now) }
{
    let all = all(numbers, under);
    let count = format!(in alloc; "{all}")?;
    let sum = count_of(numbers, histogram.sum_id());
    let sum = number_text(alloc, histogram, sum)?;
    text.extend_from_slice(histogram.name().as_bytes())?;
    push_labelled(alloc, text, "_bucket", "le", b"+Inf", all)?;
    push_worded(text, histogram.name(), "_sum", sum.as_slice())?;
    push_worded(text, histogram.name(), "_count", count.as_bytes())
}

/// How many groups there were: at least those in the buckets.
fn all(numbers: &[u64], under: u64) -> u64
    ensures { result ≡ all numbers.now under }
{
    let told = count_of(numbers, GROUPS);
    if told < under { under } else { told }
}

/// A number as it is printed: microseconds in seconds.
fn number_text(alloc: Global, histogram: Histogram, number: u64) -> Result<Vec<u8>, AllocError>
    ensures { IfOk result (λ text. text.items ≡ number_text histogram number) }
{
    match histogram {
        Histogram::Syncs => seconds_text(alloc, number),
        Histogram::Groups => Ok(format!(in alloc; "{number}")?.into_bytes()),
    }
}

fn seconds_text(alloc: Global, microseconds: u64) -> Result<Vec<u8>, AllocError>
    ensures { IfOk result (λ text. text.items ≡ seconds_text microseconds) }
{
    let seconds = microseconds / 1_000_000;
    let mut text = format!(in alloc; "{seconds}.")?.into_bytes();
    text.extend_from_slice(&six_digits(microseconds))?;
    Ok(text)
}

fn six_digits(number: u64) -> [u8; 6]
    ensures { result ≡ six_digits number }
{
    [
        digit(number, 100_000),
        digit(number, 10_000),
        digit(number, 1000),
        digit(number, 100),
        digit(number, 10),
        digit(number, 1),
    ]
}

fn digit(number: u64, unit: u64) -> u8
    requires { 0 < unit }
    ensures { result ≡ digit number unit }
{
    b'0' + (number / unit % 10) as u8
}
