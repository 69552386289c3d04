ghost use Rattle.std.specs.Prelude.{◌≡◌, ℕ, List};
ghost use Rattle.std.specs.List.{AllByRecursion};
ghost use Rattle.kd_classes.specs.HeldSet.{HeldSet, IsAccepted, JoinInOrder};
ghost use Rattle.kd_classes.specs.Order.{AreInOrder, IsFirstClassFault};
ghost use Rattle.kd_classes.specs.declared.definition.ClassDef.{ClassDef};
ghost use Rattle.kd_classes.specs.declared.fault.ClassFault.{ClassFault};
ghost use Rattle.kd_options.specs.Message.{IsMessage, Seen};

/// Definitions in order have no fault.
pub fn no_fault()
    ensures { (defs : List ClassDef) (fault : ClassFault) → AreInOrder defs
        → IsFirstClassFault defs fault → ⊥ }
{}

/// Definitions have at most one first fault.
pub fn one_fault()
    ensures { (defs : List ClassDef) (fault other : ClassFault) → IsFirstClassFault defs fault
        → IsFirstClassFault defs other → fault ≡ other }
{}

/// If the tests are accepted programs, every message has the list of names of its classes.
pub fn accepted_held()
    ensures { (message : Seen) (defs : List ClassDef) → IsMessage message
        → AllByRecursion IsAccepted defs
        → (names : List (List ℕ)) × HeldSet message defs names }
{
    kd_machine::laws::accepted_ends();
}

/// Definitions join a message with at most one list of names, whatever it holds before them.
pub fn one_join()
    ensures { (message : Seen) (defs : List ClassDef) (held names others : List (List ℕ))
        → JoinInOrder message defs held names → JoinInOrder message defs held others
        → names ≡ others }
{
    kd_machine::laws::one_end();
}

/// Definitions give a message at most one list of names.
pub fn one_held()
    ensures { (message : Seen) (defs : List ClassDef) (names others : List (List ℕ))
        → HeldSet message defs names → HeldSet message defs others
        → names ≡ others }
{
    kd_machine::laws::one_end();
}
