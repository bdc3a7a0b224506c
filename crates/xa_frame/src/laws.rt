ghost use Rattle.std.specs.Prelude.{◌≤◌, ℕ, List, length};
ghost use Rattle.xa_frame.specs.{declared.reply.Reply.Reply, Faults.fault_of_request, Faults.fault_of_reply, Laws.IsOneSpelling};
ghost use Rattle.xa_frame.specs.{Questions.SpellsQuestion, Questions.fault_of_question};
ghost use Rattle.xa_limits.specs.declared.TheConstants.{MOST_CONTENT};
ghost use Rattle.xa_frame.specs.Rows.{HasNumbers, SpelledSo, FaultyRequests, FaultyQuestions, FaultyReplies};
ghost use Rattle.xa_frame.specs.Spelling.{SpellsRequest, SpellsReply};

/// A content spells one request at most, and a request has one content. It does nothing.
pub fn one_request()
    ensures { IsOneSpelling SpellsRequest fault_of_request }
{}

/// A content spells one question at most, and a question has one content. It does nothing.
pub fn one_question()
    ensures { IsOneSpelling SpellsQuestion fault_of_question }
{}

/// A content spells one reply at most, a reply has one content, and it fits a frame. It does nothing.
pub fn one_reply()
    ensures spelling { IsOneSpelling SpellsReply fault_of_reply }
    ensures short { (bytes : List ℕ) (r : Reply) → SpellsReply bytes r → length bytes ≤ MOST_CONTENT }
{}

/// Worked contents: the numbers of operations, details and directions, what spells some requests and replies, and which
/// fault some bytes have, by the definitions. It does nothing.
pub fn worked_contents()
    ensures numbers { HasNumbers }
    ensures spelled { SpelledSo }
    ensures requests { FaultyRequests }
    ensures questions { FaultyQuestions }
    ensures replies { FaultyReplies }
{}
