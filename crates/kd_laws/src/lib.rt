//! The laws: what holds of everything that the server and the program do, over histories and lives.
//!
//! Each law is the contract of a function that does nothing but name the laws it rests on. Nothing
//! here runs, and the program does not depend on this crate. What the laws promise: no address is
//! given to two clients at once (`overlap`, in the words of `specs/NoOverlap.antt`), while its lease
//! lasts (`granted`, `specs/Granted.antt`); a client that
//! renews its lease without a relay keeps it (`renewals`, `specs/Renewals.antt`); whatever is done
//! with a server, across stops and new configurations, is such a history (`lives`,
//! `specs/Lives.antt`), and its calls are those of the traffic (`calls`, `specs/Calls.antt`); a
//! replay repeats what was served (`replays`, `specs/Recorded.antt`); the program's runs over files
//! are such lives (`runs`, `specs/AcrossRuns.antt`); and boot fields are zeros where nothing is given
//! to them (`unbooted`, `specs/Unbooted.antt`).
#![tactic(auto)]

pub mod calls;
pub mod granted;
pub mod lives;
pub mod overlap;
pub mod renewals;
pub mod replays;
pub mod runs;
pub mod sent;
pub mod unbooted;
