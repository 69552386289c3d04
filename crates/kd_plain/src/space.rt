ghost use Rattle.std.specs.Prelude.{◌≡◌, ◌≤◌, length};
ghost use Rattle.std.specs.List.{prefix_len};
ghost use Rattle.kd_plain.specs.Plain.{a_json_space, behind_spaces};

// Whether a byte is white space in JSON.
pub(crate) fn is_json_space(byte: u8) -> bool
    ensures { result ≡ a_json_space byte }
{
    byte == b' ' || byte == b'\t' || byte == b'\n' || byte == b'\r'
}

// Returns how many bytes of white space a text begins with.
fn space_size(text: &[u8]) -> usize
    ensures size { result ≡ prefix_len a_json_space text.now }
    ensures within { result ≤ length text.now }
{
    text.iter().take_while(|b| is_json_space(**b)).count()
}

// Returns what follows the white space that a text begins with.
pub(crate) fn after_spaces(text: &[u8]) -> &[u8]
    ensures { result.now ≡ behind_spaces text.now }
{
    let (_, behind) = text.split_at(space_size(text));
    behind
}
