ghost use Rattle.std.specs.Prelude.{◌≡◌, ◌==◌};
ghost use Rattle.mv_rules.specs.Verdict.{verdict_of};

use crate::answers::Put;
use mv_chain::Look;
use xa_limits::MOST_WRITES;

/// What a put has to do.
#[derive(Clone, Copy, Debug, PartialEq, Eq)]
pub(crate) enum Verdict {
    /// Nothing: it is refused.
    Refused(Put),
    /// To write a key that the branch has written before.
    Again,
    /// To write a key for the first time.
    First,
}

/// What a put has to do, if its branch has written `count` keys and the look at its timestamp found `look`.
pub(crate) fn judge(look: &Look, count: usize) -> Verdict
    ensures { result ≡ verdict_of (look.now.from == look.now.at) count look.now.late }
{
    let own = look.from == look.at;
    if !own && count >= MOST_WRITES {
        return Verdict::Refused(Put::Limit);
    }
    if look.late {
        return Verdict::Refused(Put::Late);
    }
    if own { Verdict::Again } else { Verdict::First }
}
