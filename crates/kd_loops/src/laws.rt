ghost use Rattle.kd_loops.specs.Laws.{BatchesReplay, RecordsReplay};

/// The record that serving writes is an input of a replay, with exactly the events that were
/// served.
pub fn records_replay()
    ensures events { RecordsReplay }
    ensures batches { BatchesReplay }
{}
