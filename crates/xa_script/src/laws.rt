ghost use Rattle.std.specs.Prelude.{◌≡◌, ◌<◌, ◌≤◌, ◌^◌, ◌∷◌, ◌++◌, [], ℕ, All, List, Option, Some};
ghost use Rattle.xa_frame.specs.Limits.{Holds, IsRequest};
ghost use Rattle.xa_frame.specs.declared.request.Request.{Request};
ghost use Rattle.xa_script.specs.Asking.{HasName, HoldsBytes, request_line};
ghost use Rattle.xa_script.specs.Lines.{line_of};
ghost use Rattle.xa_script.specs.declared.line.Line.TheVariants.{Call};
ghost use Rattle.xa_script.specs.Requests.{ReadsTexts};
ghost use Rattle.xa_script.specs.Texts.{quoted, text_of};
ghost use Rattle.xa_script.specs.Words.{words};
ghost use Rattle.xa_xid.specs.Triple.{Triple};

/// The texts of XIDs can be read: there is a function that gives the XID of each XID's text, and of no other text. So
/// what a contract says over all such functions, as that of `read_line`, isn't empty.
pub fn reader_exists()
    ensures { (xid_of : List ℕ → Option Triple) × ReadsTexts xid_of }
{}

/// Bytes that are shown as text in quotes are read from it; and that text is one word of a line, at its end and before
/// other words.
pub fn texts_are_read()
    ensures read { (bytes : List ℕ) → All (λ b. b < 256) bytes → text_of (quoted bytes) ≡ Some bytes }
    ensures last { (bytes : List ℕ) → words (quoted bytes) ≡ quoted bytes ∷ [] }
    ensures first { (bytes : List ℕ) (rest : List ℕ) → words (quoted bytes ++ 32 ∷ rest) ≡ quoted bytes ∷ words rest }
{}

/// The line that asks something of a session is read as just that request of that session: for each request within the
/// limits, but for an Open with an info that is no name, which a script can't spell.
pub fn requests_are_read()
    ensures { (xid_of : List ℕ → Option Triple) → ReadsTexts xid_of → (session : ℕ) (request : Request)
        → 1 ≤ session → session < 2 ^ 64 → IsRequest request → Holds request → HoldsBytes request → HasName request
        → line_of xid_of (request_line session request) ≡ Call session request }
{}
