//! Worked rows.
ghost use Rattle.xa_reactor.specs.Allowance.{AllowanceRows, FewAreTold, NoneIsLost};
ghost use Rattle.xa_reactor.specs.{Admission.AdmissionRows, Ticks.TickRows, Trims.DueRows, Visited.VisitRows};

/// Who is admitted at a few counts. It does nothing.
pub fn places_are_kept()
    ensures { AdmissionRows }
{}

/// When there is a line for an order, by a few times; by any time few orders are told of, and each is told of or counted. It
/// does nothing.
pub fn lines_are_few()
    ensures rows { AllowanceRows }
    ensures few { FewAreTold }
    ensures lost { NoneIsLost }
{}

/// When trims are due of a few logs. It does nothing.
pub fn trims_are_due()
    ensures { DueRows }
{}

/// When ticks are due, by a few clocks. It does nothing.
pub fn ticks_are_due()
    ensures { TickRows }
{}

/// What became of a few trims and ticks, by their replies. It does nothing.
pub fn visits_are_told()
    ensures { VisitRows }
{}
