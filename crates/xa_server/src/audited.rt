ghost use Rattle.std.specs.Prelude.{◌≡◌, IfOk, string_bytes};
ghost use Rattle.xa_server.specs.Lines.{found_word, lines_of};

use std::alloc::{AllocError, Global};

/// What is told of a history.
#[derive(Clone, Copy, Debug, PartialEq, Eq)]
pub struct Audited {
    /// How many connects, calls and hang-ups it has.
    pub calls: u64,
    /// Of how many of these the receipt found no memory, so that it wasn't audited.
    pub dropped: u64,
    /// Whether the audit found no fault.
    pub is_whole: bool,
}

/// The lines that show it, each with its line feed: two, and one more between them if receipts were dropped.
pub fn audited_lines(alloc: Global, told: Audited) -> Result<String, AllocError>
    ensures { IfOk result (λ text. string_bytes text ≡ lines_of told) }
{
    let Audited {
        calls,
        dropped,
        is_whole,
    } = told;
    let found = found_word(is_whole);
    if dropped == 0 {
        format!(in alloc; "calls {calls}\naudit {found}\n")
    } else {
        format!(in alloc; "calls {calls}\nreceipts dropped {dropped}\naudit {found}\n")
    }
}

fn found_word(is_whole: bool) -> &'static str
    ensures { result.now ≡ found_word is_whole }
{
    if is_whole { "ok" } else { "failed" }
}
