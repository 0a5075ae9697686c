//! Laws of the worlds and logs of a card. Each function does nothing; its contract is the law.

ghost use Rattle.card_core.specs.Headline.{TheHeadline};
ghost use Rattle.card_core.specs.Laws.{NamedProgramsAreLive, IdsAreGivenOnce, IdsNameOneCode, ConnectionsAreApart, ConnectionsBoundBursts, StepsHaveReplies, SomeAnswersNeverCome, ConnectionsFollowFromTheLog, LogsBoundBursts, PromisesLeaveOneAnswer};

/// The headline. An accepted program returns on every cell within as many instructions as it has, never leaving its
/// code or reading an unwritten scratch word. The promise holds for each judged cell of a log.
pub fn the_headline()
    ensures { TheHeadline }
{}

/// Each connection and each picked cell names a live program.
pub fn named_programs_are_live()
    ensures { NamedProgramsAreLive }
{}

/// No id is given twice, and each loaded code is accepted.
pub fn ids_are_given_once()
    ensures { IdsAreGivenOnce }
{}

/// The code of an id never changes.
pub fn ids_name_one_code()
    ensures { IdsNameOneCode }
{}

/// No two connections have the same line or the same incarnation.
pub fn connections_are_apart()
    ensures { ConnectionsAreApart }
{}

/// In any span of `d` ticks one contract passes or tags at most `1 + (d + limit) / increment` cells of a connection,
/// for the increment and the limit of its bucket 1.
pub fn connections_bound_bursts()
    ensures { ConnectionsBoundBursts }
{}

/// In every world each step has a reply that reports no allocation failure.
pub fn steps_have_replies()
    ensures { StepsHaveReplies }
{}

/// No reply is `Stale`, and `NoMemory` is a reply only to a Setup or a Cut.
pub fn some_answers_never_come()
    ensures { SomeAnswersNeverCome }
{}

/// The headline allows only one answer for a judged cell of a given line.
pub fn promises_leave_one_answer()
    ensures { PromisesLeaveOneAnswer }
{}

/// The connections are those of the log, each with the program and the history that it has by the log.
pub fn connections_follow_from_the_log()
    ensures { ConnectionsFollowFromTheLog }
{}

/// The burst bound of each contract's bucket 1, over the cells of a connection in the log.
pub fn logs_bound_bursts()
    ensures { LogsBoundBursts }
{}
