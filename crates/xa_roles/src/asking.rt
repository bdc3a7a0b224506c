ghost use Rattle.std.specs.Prelude.{◌≡◌, Bool};
ghost use Rattle.xa_roles.specs.Believed.Roles.{includes, least, least_of, least_to_order, may_ask, may_order};

use crate::role::Role;
use xa_codes::Call;
use xa_control::Control;
use xa_frame::Question;

/// Whether a connection that has shown this role may ask a manager this; one that has shown none may ask it nothing.
pub fn may_ask(standing: Option<Role>, question: &Question) -> bool
    ensures { result ≡ may_ask standing question.now }
{
    match standing {
        Some(role) => includes(role, least_of(question)),
        None => false,
    }
}

/// Whether a connection that has shown this role, or none, may ask the server itself this.
pub fn may_order(standing: Option<Role>, control: &Control) -> bool
    ensures { result ≡ may_order standing control.now }
{
    match (least_to_order(control), standing) {
        (None, _) => true,
        (Some(least), Some(role)) => includes(role, least),
        (Some(_), None) => false,
    }
}

fn includes(role: Role, least: Role) -> bool
    ensures { result ≡ includes role least }
{
    match least {
        Role::Monitor => true,
        Role::Client => role != Role::Monitor,
        Role::Operator => role == Role::Operator,
    }
}

fn least_of(question: &Question) -> Role
    ensures { result ≡ least_of question.now }
{
    match question {
        Question::Status => Role::Monitor,
        Question::Call(request) => least(request.call()),
    }
}

fn least(call: Call) -> Role
    ensures { result ≡ least call }
{
    match call {
        Call::Branches => Role::Monitor,
        Call::Decide | Call::Doom | Call::Restart | Call::Tick | Call::Trim => Role::Operator,
        _ => Role::Client,
    }
}

// The least role, where any is needed.
fn least_to_order(control: &Control) -> Option<Role>
    ensures { result ≡ least_to_order control.now }
{
    match control {
        Control::Hello(_) | Control::First(_) | Control::Final(_) => None,
        Control::Metrics => Some(Role::Monitor),
        Control::Sessions(_) | Control::Disconnect(_) | Control::Shutdown => Some(Role::Operator),
    }
}
