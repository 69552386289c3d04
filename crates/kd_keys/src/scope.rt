ghost use Rattle.std.specs.Prelude.{true, false, ◌≡◌, ◌&&◌, ◌==◌, bytes_eq};
ghost use Rattle.std.specs.List.{find};
ghost use Rattle.std.specs.Option.{option_copied};
ghost use Rattle.kd_keys.specs.Scope.{definitions_in};

use crate::definition::DefinedOption;

/// Where options are read: for whom, and by which definitions.
#[derive(Clone, Copy)]
pub struct OptionScope<'a> {
    /// They are for all clients: the option with the server's address may be there.
    pub for_all: bool,
    /// The definitions of a class, which come first.
    pub own: &'a [DefinedOption],
    /// The definitions of the whole server.
    pub shared: &'a [DefinedOption],
}

impl<'a> OptionScope<'a> {
    ghost use Rattle.kd_keys.specs.Definitions.{defined_as, defined_at};

    // Returns the definition of the option of a space with this code.
    #[tactic(auto, using(crate::proofs::Scopes::found_first, crate::proofs::Scopes::found_later))]
    pub(crate) fn with_code(self, space: &[u8], code: u8) -> Option<&'a DefinedOption>
        ensures { option_copied result ≡ defined_at (definitions_in self.entry) space.now code }
    {
        match first_with_code(self.own, space, code) {
            Some(it) => Some(it),
            None => first_with_code(self.shared, space, code),
        }
    }

    // Returns the definition of the option of a space with this name.
    #[tactic(auto, using(crate::proofs::Scopes::found_first, crate::proofs::Scopes::found_later))]
    pub(crate) fn with_name(self, space: &[u8], name: &[u8]) -> Option<&'a DefinedOption>
        ensures { option_copied result ≡ defined_as (definitions_in self.entry) space.now name.now }
    {
        match first_with_name(self.own, space, name) {
            Some(it) => Some(it),
            None => first_with_name(self.shared, space, name),
        }
    }
}

/// The scope of options for all clients.
pub fn scope_of_all<'a>(shared: &'a [DefinedOption]) -> OptionScope<'a>
    ensures for_all { result.for_all ≡ true }
    ensures known { definitions_in result ≡ shared.now }
{
    OptionScope {
        for_all: true,
        own: &[],
        shared,
    }
}

/// The scope of options for a part of the server, with the definitions of the whole.
pub fn part_scope<'a>(shared: &'a [DefinedOption]) -> OptionScope<'a>
    ensures for_all { result.for_all ≡ false }
    ensures known { definitions_in result ≡ shared.now }
{
    OptionScope {
        for_all: false,
        own: &[],
        shared,
    }
}

// Returns the first of these definitions that is of a space and has this code.
fn first_with_code<'a>(
    definitions: &'a [DefinedOption],
    space: &[u8],
    code: u8,
) -> Option<&'a DefinedOption>
    ensures { option_copied result
        ≡ find (λ it. bytes_eq it.space space.now && it.code == code) definitions.now }
{
    definitions
        .iter()
        .find(|it| it.space.as_slice() == space && it.code == code)
}

// Returns the first of these definitions that is of a space and has this name.
fn first_with_name<'a>(
    definitions: &'a [DefinedOption],
    space: &[u8],
    name: &[u8],
) -> Option<&'a DefinedOption>
    ensures { option_copied result
        ≡ find (λ it. bytes_eq it.space space.now && bytes_eq it.name name.now) definitions.now }
{
    definitions.iter().find(|it| it.space.as_slice() == space && it.name.as_slice() == name)
}
