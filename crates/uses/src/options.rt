ghost use Rattle.std.specs.Prelude.{◌≤◌, IfOk};
ghost use Rattle.kd_options.specs.Laws.{IsReply, read_back};
ghost use Rattle.kd_options.specs.Message.{Reads};

use kd_options::{Reply, WriteFault, laws};
use std::alloc::Global;

/// Writes a reply whose bytes read back as its header and the options that were kept.
pub fn write_reply(alloc: Global, reply: &Reply, room: u16) -> Result<Vec<u8>, WriteFault>
    requires { IsReply reply.now.header room reply.now.items }
    ensures { IfOk result
        (λ bytes. Reads bytes.items (read_back reply.now.header room reply.now.items)) }
{
    laws::text_reads();
    reply.write(alloc, room)
}
