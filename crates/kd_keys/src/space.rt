ghost use Rattle.std.specs.Prelude.{◌≡◌};
ghost use Rattle.kd_keys.specs.Definitions.{is_dhcp4};
ghost use Rattle.kd_keys.specs.Options.{is_served_space};

// Reports whether a space is that of the options of messages.
pub(crate) fn is_of_messages(space: &[u8]) -> bool
    ensures { result ≡ is_dhcp4 space.now }
{
    space == "dhcp4".as_bytes()
}

// Reports whether the options of a space are read.
pub(crate) fn is_readable(space: &[u8]) -> bool
    ensures { result ≡ is_served_space space.now }
{
    !space.is_empty()
        && (space == "vendor-encapsulated-options-space".as_bytes()
            || !space.starts_with(b"vendor-"))
}
