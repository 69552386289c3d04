ghost use Rattle.std.specs.Prelude.{IfSome, None, string_bytes};
ghost use Rattle.kd_reports.specs.KeaWords.{AreKeaRemarks};

use kd_reports::kea_remarks;

/// Returns a line for each key of a file of Kea's that is skipped.
pub fn skipped_in(rt: &HostRuntime, path: &str) -> Option<String>
    ensures { IfSome result (λ words. AreKeaRemarks path.now None (string_bytes words)) }
{
    kea_remarks(rt, path, None).ok()
}
