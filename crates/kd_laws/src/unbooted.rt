//! Where a configuration gives nothing to the boot fields, they are zeros.
ghost use Rattle.kd_laws.specs.Unbooted.{BootFieldsAreZero};

/// Where no class, subnet or reservation gives anything to the fields by which clients boot, as in our
/// own format, `siaddr`, `sname` and `file` of every reply are zeros.
pub fn boot_fields_are_zero()
    ensures { BootFieldsAreZero }
{}
