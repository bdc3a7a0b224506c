//! How a server is doing, as Prometheus reads it.
ghost use Rattle.std.specs.Fmt.{decimal};
ghost use Rattle.std.specs.Prelude.{◌≡◌, ◌++◌, OnOk};
ghost use Rattle.xa_operate.specs.Metrics.{branch_metrics, heading, log_metrics, metric, metrics_text, server_metrics, worded};

use std::alloc::{AllocError, Global};
use xa_frame::Status;

/// Adds a metric of each number.
pub(crate) fn push_metrics(
    alloc: Global,
    text: &mut Vec<u8>,
    status: Status,
) -> Result<(), AllocError>
    ensures { OnOk result (text.new.items ≡ text.old.items ++ metrics_text status) }
{
    push_log_metrics(alloc, text, status)?;
    push_branch_metrics(alloc, text, status)?;
    push_server_metrics(alloc, text, status)
}

fn push_log_metrics(alloc: Global, text: &mut Vec<u8>, status: Status) -> Result<(), AllocError>
    ensures { OnOk result (text.new.items ≡ text.old.items ++ log_metrics status) }
{
    push_metric(
        alloc,
        text,
        "xarm_boots",
        "gauge",
        "Openings, Restarts and Trims of this log so far.",
        status.boot,
    )?;
    push_metric(
        alloc,
        text,
        "xarm_log_bytes",
        "gauge",
        "Where the log ends.",
        status.end,
    )?;
    push_metric(
        alloc,
        text,
        "xarm_log_limit_bytes",
        "gauge",
        "Where the log would be full.",
        status.bytes,
    )
}

fn push_branch_metrics(alloc: Global, text: &mut Vec<u8>, status: Status) -> Result<(), AllocError>
    ensures { OnOk result (text.new.items ≡ text.old.items ++ branch_metrics status) }
{
    push_metric(
        alloc,
        text,
        "xarm_branches",
        "gauge",
        "Branches that are working, prepared, or completed by the operator.",
        status.branches,
    )?;
    push_metric(
        alloc,
        text,
        "xarm_prepared_branches",
        "gauge",
        "Branches in doubt.",
        status.prepared,
    )?;
    push_metric(
        alloc,
        text,
        "xarm_completed_branches",
        "gauge",
        "Branches that the operator completed.",
        status.completed,
    )
}

fn push_server_metrics(alloc: Global, text: &mut Vec<u8>, status: Status) -> Result<(), AllocError>
    ensures { OnOk result (text.new.items ≡ text.old.items ++ server_metrics status) }
{
    push_metric(
        alloc,
        text,
        "xarm_sessions",
        "gauge",
        "Connections, including the one that asks.",
        status.sessions,
    )?;
    push_metric(
        alloc,
        text,
        "xarm_versions",
        "gauge",
        "Versions of all keys.",
        status.versions,
    )?;
    push_metric(
        alloc,
        text,
        "xarm_calls_total",
        "counter",
        "Connects, calls and hang-ups since the server started.",
        status.calls,
    )?;
    push_metric(
        alloc,
        text,
        "xarm_uptime_seconds",
        "gauge",
        "Seconds since the server started.",
        status.seconds,
    )
}

/// Adds a metric: what it is, of which type, and its number.
#[tactic(auto, unfolding(crate::specs::Metrics::metric))]
pub(crate) fn push_metric(
    alloc: Global,
    text: &mut Vec<u8>,
    name: &str,
    kind: &str,
    help: &str,
    number: u64,
) -> Result<(), AllocError>
    ensures { OnOk result (text.new.items ≡ text.old.items ++ metric name.now kind.now help.now number) }
{
    let digits = format!(in alloc; "{number}")?;
    push_worded(text, "# HELP ", name, help.as_bytes())?;
    push_worded(text, "# TYPE ", name, kind.as_bytes())?;
    push_worded(text, "", name, digits.as_bytes())
}

/// Adds what stands before the samples of a metric.
pub(crate) fn push_heading(
    text: &mut Vec<u8>,
    name: &str,
    kind: &str,
    help: &str,
) -> Result<(), AllocError>
    ensures { OnOk result (text.new.items ≡ text.old.items ++ heading name.now kind.now help.now) }
{
    push_worded(text, "# HELP ", name, help.as_bytes())?;
    push_worded(text, "# TYPE ", name, kind.as_bytes())
}

pub(crate) fn push_worded(
    text: &mut Vec<u8>,
    front: &str,
    name: &str,
    behind: &[u8],
) -> Result<(), AllocError>
    ensures { OnOk result (text.new.items ≡ text.old.items ++ worded front.now name.now behind.now) }
{
    text.extend_from_slice(front.as_bytes())?;
    text.extend_from_slice(name.as_bytes())?;
    text.push(b' ')?;
    text.extend_from_slice(behind)?;
    text.push(b'\n')?;
    Ok(())
}
