//! What is done with a server, from its opening to what is found after it, is a history.
ghost use Rattle.kd_laws.specs.Lives.{LivesAreHistories, LivesKeepConfigurations, OpeningsAreHistories, OpeningsEnd, RunsAreCalls};

use kd_keeps::Keeps;

/// An opening of a server is a history: a store that stands at a table, the calls of the server
/// over it, and the store as it was left. The history goes from that table to the rows that are
/// found afterwards, if these are rows that a crash of the store leaves. This holds for every store
/// that keeps leases, if its disk is clean.
pub fn openings_are_histories<S: Keeps>()
    ensures { OpeningsAreHistories S.Keeps }
{}

/// After an opening, a crash leaves one of two tables if the disk is clean; and the disk was then
/// clean before the opening.
pub fn openings_end<S: Keeps>()
    ensures { OpeningsEnd S.Keeps }
{}

/// Openings that follow one another, each starting at the rows found after the previous one, form
/// one history with stops, to which `no_overlap_across` applies. Their configurations and the types
/// of their stores may differ. Each step is a call of `Server::handle` under the configuration of
/// its opening; if the store failed, the step was stopped.
pub fn lives_are_histories()
    ensures { LivesAreHistories }
{}

/// If all openings have one configuration, so do all steps, and `no_overlap` applies to them.
pub fn lives_keep_configurations()
    ensures { LivesKeepConfigurations }
{}

/// A run of events is a series of calls of `Server::handle`, up to the first fault.
pub fn runs_are_calls<S: Keeps>()
    ensures { RunsAreCalls S.Keeps }
{}
