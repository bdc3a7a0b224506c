//! Which calls may move the log's end.
ghost use Rattle.std.specs.Prelude.{◌≡◌};
ghost use Rattle.xa_server.specs.Logging.{appends, may_log};

use xa_frame::Request;

/// Whether a call may append to the log. One that begins it anew is another.
pub(crate) fn appends(request: &Request) -> bool
    ensures { result ≡ appends request.now }
{
    matches!(
        request,
        Request::Prepare { .. }
            | Request::Commit { .. }
            | Request::Rollback { .. }
            | Request::Forget { .. }
            | Request::Decide { .. }
    )
}

/// Whether a call may append to the log, or begin it anew.
pub(crate) fn may_log(request: &Request) -> bool
    ensures { result ≡ may_log request.now }
{
    appends(request) || matches!(request, Request::Restart | Request::Trim)
}
