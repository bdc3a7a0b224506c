ghost use Rattle.std.specs.Prelude.{◌≡◌};
ghost use Rattle.xa_talk.specs.Ticks.{text_of};

use xa_codes::{Detail, XAER_INVAL, XAER_RMFAIL};
use xa_frame::Reply;

/// What a moment that was refused comes to, as `xarm` prints it after its name.
pub fn refusal_text(refusal: &Reply) -> &'static str
    ensures { result.now ≡ text_of refusal.now }
{
    match (refusal.code, refusal.detail) {
        (XAER_INVAL, Detail::Nothing) => "clock went back",
        (XAER_RMFAIL, _) => "resource manager down",
        _ => "tick refused",
    }
}
