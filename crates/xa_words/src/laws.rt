ghost use Rattle.xa_words.specs.Worked.{AddsUser, ByItself, CountedTwice, LetsIn, LogsIn, ModesAreRead, WithAudit, WithHistory};
ghost use Rattle.xa_words.specs.Worked.{WithWorkers, WorkersAndMore};

/// Worked rows, by the definitions: what a server is asked for by itself, with an audit, with a history, with workers, and
/// with workers whose other numbers the words give; and that loops are counted twice. It does nothing.
pub fn worked_services()
    ensures itself { ByItself }
    ensures audit { WithAudit }
    ensures history { WithHistory }
    ensures workers { WithWorkers }
    ensures more { WorkersAndMore }
    ensures twice { CountedTwice }
{}

/// The same of logins: who may log in and connect to a server, who is added to those who may, and who logs in.
pub fn worked_logins()
    ensures lets { LetsIn }
    ensures adds { AddsUser }
    ensures logs { LogsIn }
{}

/// The same of permissions: which ones words spell.
pub fn worked_modes()
    ensures { ModesAreRead }
{}
