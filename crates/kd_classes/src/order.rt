ghost use Rattle.std.specs.Prelude.{◌≡◌, not, take, MatchResult, Some, slice_get};
ghost use Rattle.std.specs.List.{list_all};
ghost use Rattle.kd_classes.specs.Order.{AreInOrder, IsFaultOf, IsFirstClassFault, IsInOrder, asked, built_in, known_after, named_among};

use crate::definition::ClassDef;
use crate::fault::ClassFault;
use kd_token::Program;

// Reports whether one of these definitions has the name.
fn is_named(name: &[u8], definitions: &[ClassDef]) -> bool
    ensures { result ≡ named_among name.now definitions.now }
{
    definitions.iter().any(|def| name == def.name.as_slice())
}

/// Reports whether the name of a class is built in: a message can have it before any definition
/// (Kea's classes `ALL` and `VENDOR_CLASS_` with a vendor class).
pub fn is_built_in(name: &[u8]) -> bool
    ensures { result ≡ built_in name.now }
{
    name == b"ALL".as_slice() || name.starts_with(b"VENDOR_CLASS_")
}

// Reports whether a name is known after these definitions.
fn is_known(name: &[u8], earlier: &[ClassDef]) -> bool
    ensures { result ≡ known_after earlier.now name.now }
{
    is_built_in(name) || is_named(name, earlier)
}

// Reports whether every name of a program is known after these definitions.
#[tactic(auto, using(crate::proofs::Left::passes_at, crate::proofs::Left::fails_at, crate::proofs::Left::ends_at))]
fn are_known(program: &Program, earlier: &[ClassDef]) -> bool
    ensures { result ≡ list_all (known_after earlier.now) program.now.names }
{
    // A program has at most 64 names.
    let _limits = program.tokens();
    'names: for at in 0..64 {
        let Some(name) = program.name_at(at) else {
            return true;
        };
        if !is_known(name, earlier) {
            return false;
        }
    }
    true
}

// Reports whether every name that a definition asks for is known after these definitions.
fn asks_known(definition: &ClassDef, earlier: &[ClassDef]) -> bool
    ensures { result ≡ list_all (known_after earlier.now) (asked definition.now) }
{
    match &definition.test {
        Some(test) => are_known(test.program(), earlier),
        None => true,
    }
}

// Checks that the definition at an index is in order.
fn check_at(index: usize, definition: &ClassDef, definitions: &[ClassDef]) -> Result<(), ClassFault>
    requires there { slice_get definitions.now index ≡ Some definition.now }
    ensures { MatchResult result (λ _. IsInOrder (take index definitions.now) definition.now)
        (λ fault. IsFaultOf index (take index definitions.now) definition.now fault) }
{
    let earlier = &definitions[..index];
    if is_named(definition.name.as_slice(), earlier) {
        Err(ClassFault::Duplicate(index))
    } else if asks_known(definition, earlier) {
        Ok(())
    } else {
        Err(ClassFault::UnknownMember(index))
    }
}

// Checks that definitions are in order; returns the first fault if they are not.
pub(crate) fn check(definitions: &[ClassDef]) -> Result<(), ClassFault>
    ensures { MatchResult result (λ _. AreInOrder definitions.now)
        (λ fault. IsFirstClassFault definitions.now fault) }
{
    if definitions.len() > 256 {
        return Err(ClassFault::TooMany);
    }
    'definitions: for (index, definition) in definitions.iter().enumerate() {
        check_at(index, definition, definitions)?;
    }
    Ok(())
}
