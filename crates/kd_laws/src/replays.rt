//! A history is a function of its events, so a replay of a record repeats what was served.
ghost use Rattle.kd_laws.specs.OneStep.{OneHistory, OneStep};
ghost use Rattle.kd_laws.specs.Recorded.{ReplayRepeatsSession, ReplayRepeatsSessions, ReplayStopsOnTheWay, SessionsAreHistories};

use kd_keeps::Keeps;

/// A history is a function of its events: over a given table, an event has one answer and leaves
/// one table.
pub fn one_step()
    ensures { OneStep }
{
    kd_lease::laws::one_change();
}

/// A replay cannot differ from what was served: two servers with the same configuration and rows,
/// over stores of any types, answer the same events alike, byte for byte.
pub fn one_history<S: Keeps, T: Keeps>()
    ensures { OneHistory S.Keeps T.Keeps }
{
    one_step();
}

/// A replay of what a session of `serve` recorded writes what the session logged, line for line,
/// except for the lines `fault 99 Send`, and ends with the session's last rows. The replay starts
/// with the configuration, the ports and the rows with which the session began. The two stores may
/// be of any types. The session must end between two batches, and the replay must reach the end of
/// the record.
pub fn replay_repeats_session<S: Keeps, T: Keeps>()
    ensures { ReplayRepeatsSession S.Keeps T.Keeps }
{
    one_step();
}

/// A session of `serve` that ends between two batches is a history of the events that it recorded,
/// and its log is what the server answered them, whatever its store.
pub fn sessions_are_histories<S: Keeps>()
    ensures { SessionsAreHistories S.Keeps }
{}

/// The same for a day with restarts. Each session begins with the rows with which the previous one
/// ended; all have one configuration, and their stores may be of any types. One replay of all that
/// they recorded, over the rows with which the first began, writes all that they logged, except for
/// the lines `fault 99 Send`, and ends with the rows of the last.
pub fn replay_repeats_sessions<T: Keeps>()
    ensures { ReplayRepeatsSessions T.Keeps }
{
    one_step();
}

/// If such a replay stops early, for example because memory runs out, it has written a prefix of
/// what the sessions logged, except for those lines. It never stops because a line of the record is
/// not an event.
pub fn replay_stops_on_the_way<T: Keeps>()
    ensures { ReplayStopsOnTheWay T.Keeps }
{
    one_step();
}
