//! Which calls of a server a command makes: those of the datagrams that came, or of the lines that
//! were read, and what they returned is what was sent and written.
ghost use Rattle.kd_laws.specs.Calls.{ReplayingIsCalls, ServingIsCalls};

use kd_keeps::Keeps;

/// What a replay does with a server is calls of `Server::handle`, one for each line that it handled,
/// in order; if the bytes of its input are known, the lines of what they returned are what it wrote.
pub fn replaying_is_calls<S: Keeps>()
    ensures { ReplayingIsCalls S.Keeps }
{}

/// What `serve` does with a server is calls of `Server::handle_all`, one for each batch of datagrams
/// that came and was handled, in order. What they returned was handed over to be sent and was
/// written, and nothing else was. This holds however serving ends.
pub fn serving_is_calls<S: Keeps>()
    ensures { ServingIsCalls S.Keeps }
{}
