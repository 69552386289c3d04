ghost use Rattle.std.specs.Prelude.{◌≡◌, option_map};
ghost use Rattle.kd_json.specs.Configured.{file_by_name};

use kd_wire::Bytes;

/// A token file that a class's test can name.
#[derive(Drop)]
pub struct TokenFile {
    /// Its name, as it appears at the key `tokens` of a class.
    pub name: Bytes,
    /// Its bytes.
    pub bytes: Bytes,
}

// Returns the bytes of the first of these files with a name.
pub(crate) fn file_named<'a>(name: &[u8], files: &'a [TokenFile]) -> Option<&'a [u8]>
    ensures { option_map (λ bytes. bytes.now) result ≡ file_by_name name.now files.now }
{
    let file = files.iter().find(|file| name == file.name.as_slice())?;
    Some(file.bytes.as_slice())
}
