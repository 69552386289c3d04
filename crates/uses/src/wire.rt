ghost use Rattle.std.specs.Prelude.{◌≡◌, ◌≤◌, ◌∷◌, [], ◌++◌, Ok, drop, length};
ghost use Rattle.kd_wire.specs.Area.{piece, spelled};
ghost use Rattle.kd_wire.specs.Header.{header_bytes, header_read};
ghost use Rattle.kd_wire.specs.declared.header.Header.{Header as HeaderFields};

use kd_wire::{Header, WireFault, put_end, put_piece, write_header};

/// Writes an offer with a message's header, and returns its length.
pub fn offer(message: &[u8], out: &mut [u8]) -> Result<usize, WireFault>
    requires { 244 ≤ length out.old }
    ensures { (h : HeaderFields) → header_read message.now ≡ Ok h
        → (result ≡ Ok 244) × (out.new ≡ header_bytes (record h { op = 2 })
        ++ spelled (piece 53 (2 ∷ [])) ++ 255 ∷ drop 244 out.old) }
{
    let mut header = Header::read(message)?;
    header.op = 2;
    write_header(out, &header);
    let end = put_piece(out, 240, 53, &[2]);
    Ok(put_end(out, end))
}
