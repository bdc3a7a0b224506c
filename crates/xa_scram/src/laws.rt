ghost use Rattle.xa_scram.specs.{Laws.AreShort, Laws.IsMutualAlways, Rows.KeyedSo, Rows.SpelledSo};

/// Who has the secret is let in by a server that was given a verifier of it, and accepts that server. It does nothing.
pub fn mutual()
    ensures { IsMutualAlways }
{}

/// What is longer than `MOST_MESSAGE` bytes is no message and no verifier's text. It does nothing.
pub fn short_messages()
    ensures { AreShort }
{}

/// Worked rows, by the definitions. It does nothing.
pub fn worked_rows()
    ensures spelled { SpelledSo }
    ensures keyed { KeyedSo }
{}
