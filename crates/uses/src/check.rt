ghost use Rattle.std.specs.Prelude.{IfOk, IfSome, codes, string_bytes};
ghost use Rattle.kd_check.specs.Report.{IsReport};
ghost use Rattle.kd_json.specs.FirstFault.{IsFaultOfText};
ghost use Rattle.kd_json.specs.declared.fault.ConfigFault.{ConfigFault};

use kd_check::config_report;
use kd_json::read_config;
use std::alloc::{AllocError, Global};

/// Returns what is wrong with the configuration in a text, in words, or nothing if it has no fault.
pub fn complaint(alloc: Global, text: &[u8]) -> Result<Option<String>, AllocError>
    ensures { IfOk result (λ found. IfSome found (λ report. (fault : ConfigFault)
        × IsFaultOfText text.now fault
        × IsReport (codes "kdhcp.json") text.now fault (string_bytes report))) }
{
    match read_config(alloc, text, &[]) {
        Ok(_) => Ok(None),
        Err(fault) => Ok(Some(config_report(alloc, "kdhcp.json", text, &fault)?)),
    }
}
