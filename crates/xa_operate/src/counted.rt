//! What a server has counted, as Prometheus reads it.
ghost use Rattle.std.specs.Prelude.{◌≡◌, ◌++◌, IfOk, OnOk};
ghost use Rattle.xa_operate.specs.Counted.{connection_metrics, counted_text, lone_metric, memory_metric};

use crate::family::{Family, push_family};
use crate::histogram::{Histogram, push_histogram};
use crate::metrics::push_metric;
use crate::told::told;
use std::alloc::{AllocError, Global};

/// The metrics of what was counted.
pub(crate) fn counted_text(alloc: Global, numbers: &[u64]) -> Result<Vec<u8>, AllocError>
    ensures { IfOk result (λ text. text.items ≡ counted_text numbers.now) }
{
    let mut text = Vec::new(alloc);
    push_counted(alloc, &mut text, numbers)?;
    Ok(text)
}

fn push_counted(alloc: Global, text: &mut Vec<u8>, numbers: &[u64]) -> Result<(), AllocError>
    ensures { OnOk result (text.new.items ≡ text.old.items ++ counted_text numbers.now) }
{
    push_connections(alloc, text, numbers)?;
    push_family(alloc, text, numbers, Family::Calls)?;
    push_family(alloc, text, numbers, Family::Codes)?;
    push_histogram(alloc, text, numbers, Histogram::Syncs)?;
    push_histogram(alloc, text, numbers, Histogram::Groups)?;
    push_memory(alloc, text, numbers)
}

fn push_connections(alloc: Global, text: &mut Vec<u8>, numbers: &[u64]) -> Result<(), AllocError>
    ensures { OnOk result (text.new.items ≡ text.old.items ++ connection_metrics numbers.now) }
{
    push_lone(
        alloc,
        text,
        "xarm_connections_accepted_total",
        "counter",
        "Connections accepted since the server started.",
        told(numbers, 1),
    )?;
    push_lone(
        alloc,
        text,
        "xarm_connections_refused_total",
        "counter",
        "Connections closed at once since the server started, as too many were open.",
        told(numbers, 2),
    )
}

fn push_memory(alloc: Global, text: &mut Vec<u8>, numbers: &[u64]) -> Result<(), AllocError>
    ensures { OnOk result (text.new.items ≡ text.old.items ++ memory_metric numbers.now) }
{
    push_lone(
        alloc,
        text,
        "xarm_resident_memory_bytes",
        "gauge",
        "Memory of the server in use.",
        told(numbers, 6),
    )
}

/// Adds a metric, if its number is told.
fn push_lone(
    alloc: Global,
    text: &mut Vec<u8>,
    name: &str,
    kind: &str,
    help: &str,
    number: Option<u64>,
) -> Result<(), AllocError>
    ensures { OnOk result (text.new.items ≡ text.old.items ++ lone_metric name.now kind.now help.now number) }
{
    match number {
        Some(number) => push_metric(alloc, text, name, kind, help, number),
        None => Ok(()),
    }
}
