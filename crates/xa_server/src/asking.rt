//! What is asked by an ask.
ghost use Rattle.std.specs.Prelude.{◌≡◌, IfSome, option_map};
ghost use Rattle.xa_frame.specs.Spelling.{call_of};
ghost use Rattle.xa_server.specs.Believed.Watching.{is_restart};

use xa_codes::Call;
use xa_frame::Request;
use xa_reactor::Ask;

/// Whether the request of an ask that isn't answered is a Restart.
pub(crate) fn asks_restart(ask: &Ask) -> bool
    ensures { IfSome ask.now.request (λ request. result ≡ is_restart request) }
{
    match &ask.request {
        Some(request) => is_restart(request),
        None => false,
    }
}

/// Which call an ask that isn't answered is.
pub(crate) fn call_of(ask: &Ask) -> Option<Call>
    ensures { result ≡ option_map call_of ask.now.request }
{
    match &ask.request {
        Some(request) => Some(request.call()),
        None => None,
    }
}

/// Whether a request is a Restart.
pub(crate) fn is_restart(request: &Request) -> bool
    ensures { result ≡ is_restart request.now }
{
    matches!(request, Request::Restart)
}
