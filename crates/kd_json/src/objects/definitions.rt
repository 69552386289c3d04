ghost use Rattle.std.specs.Prelude.{◌≡◌, ◌≢◌, IfErr, IfOk, List};
ghost use Rattle.std.specs.List.{AllByRecursion};
ghost use Rattle.kd_classes.specs.HeldSet.{IsAccepted};
ghost use Rattle.kd_classes.specs.Order.{AreInOrder};
ghost use Rattle.kd_classes.specs.declared.definition.ClassDef.{ClassDef};
ghost use Rattle.kd_json.specs.Alike.{AskAlike, AsksAlike};
ghost use Rattle.kd_json.specs.Configured.{AreDefinitions, IsDefinition};
ghost use Rattle.kd_json.specs.declared.objects.faults.ClassesFault.TheVariants.{Memory};

use crate::objects::class::ClassEntry;
use crate::objects::faults::ClassesFault;
use crate::objects::program::test_of;
use crate::token_file::TokenFile;
use kd_classes::{ClassDef, Classes};
use std::alloc::Global;

// Builds the classes of these entries, if their definitions are in order.
pub(crate) fn classes_in(
    alloc: Global,
    entries: Vec<ClassEntry>,
    files: &[TokenFile],
) -> Result<Classes, ClassesFault>
    ensures found { IfOk result (λ classes. AreDefinitions files.now entries.items classes) }
    ensures ordered { IfOk result (λ classes. AreInOrder classes) }
    ensures accepted { IfOk result (λ classes. AllByRecursion IsAccepted classes) }
    ensures refused { IfErr result
        (λ fault. fault ≢ Memory → (defs : List ClassDef)
        → AreDefinitions files.now entries.items defs → AreInOrder defs → ⊥) }
{
    let definitions = definitions_of(alloc, entries, files)?;
    match Classes::new(definitions) {
        Ok(classes) => Ok(classes),
        Err(fault) => Err(ClassesFault::Class(fault)),
    }
}

// Builds the definitions of these entries.
fn definitions_of(
    alloc: Global,
    entries: Vec<ClassEntry>,
    files: &[TokenFile],
) -> Result<Vec<ClassDef>, ClassesFault>
    ensures found { IfOk result (λ defs. AreDefinitions files.now entries.items defs.items) }
    ensures same { IfOk result
        (λ defs. (others : List ClassDef) → AreDefinitions files.now entries.items others
        → AskAlike others defs.items) }
    ensures accepted { IfOk result (λ defs. AllByRecursion IsAccepted defs.items) }
    ensures refused { IfErr result
        (λ fault. fault ≢ Memory → (defs : List ClassDef)
        → AreDefinitions files.now entries.items defs → ⊥) }
{
    let mut definitions = Vec::new(alloc);
    for entry in entries {
        let definition = definition_of(alloc, definitions.len(), entry, files)?;
        definitions.push(definition)?;
    }
    Ok(definitions)
}

// Builds the definition of the entry with this number.
fn definition_of(
    alloc: Global,
    number: usize,
    entry: ClassEntry,
    files: &[TokenFile],
) -> Result<ClassDef, ClassesFault>
    ensures found { IfOk result (λ def. IsDefinition files.now entry def) }
    ensures same { IfOk result
        (λ def. (other : ClassDef) → IsDefinition files.now entry other → AsksAlike other def) }
    ensures accepted { IfOk result (λ def. IsAccepted def) }
    ensures refused { IfErr result
        (λ fault. fault ≢ Memory → (def : ClassDef) → IsDefinition files.now entry def → ⊥) }
{
    let ClassEntry {
        name,
        source,
        options,
        boot,
        lifetime,
    } = entry;
    let test = test_of(alloc, number, &source, files)?;
    Ok(ClassDef {
        name,
        test,
        options,
        boot,
        lifetime,
    })
}
