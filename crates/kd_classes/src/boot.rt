ghost use Rattle.std.specs.Prelude.{◌≡◌, IsTrue};
ghost use Rattle.kd_classes.specs.Boot.{boot_or, gives_nothing, no_boot};

use kd_wire::Entries;

/// What one part of a configuration gives to the fields of a reply by which its client boots (RFC
/// 2131 section 2, figure 1).
#[derive(Clone, Copy)]
pub struct Boot {
    /// The address of the next server, in host order, for `siaddr`; `Some(0)` is 0.0.0.0, which
    /// hides another one.
    pub next_server: Option<u32>,
    /// The name of that server, and zeros after it, for `sname`.
    pub server_name: Option<[u8; 64]>,
    /// The name of the boot file, and zeros after it, for `file`.
    pub file_name: Option<[u8; 128]>,
}

/// What a part of a configuration gives to these fields: one value, or none if it has no key for it.
pub type BootList = Entries<Boot>;

impl Boot {
    /// Gives nothing to any field.
    pub fn none() -> Boot
        ensures { result ≡ no_boot }
    {
        Boot {
            next_server: None,
            server_name: None,
            file_name: None,
        }
    }

    /// Reports whether nothing is given to any field.
    pub fn is_none(self) -> bool
        ensures same { result ≡ gives_nothing self }
        ensures none { IsTrue result → self ≡ no_boot }
    {
        self.next_server.is_none() && (self.server_name.is_none() && self.file_name.is_none())
    }

    /// Returns these values, and those of another for the fields to which this one gives nothing.
    pub fn or(self, other: Boot) -> Boot
        ensures { result ≡ boot_or self other }
    {
        Boot {
            next_server: self.next_server.or(other.next_server),
            server_name: self.server_name.or(other.server_name),
            file_name: self.file_name.or(other.file_name),
        }
    }
}
