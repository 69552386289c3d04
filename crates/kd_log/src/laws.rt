ghost use Rattle.kd_log.specs.Laws.{LogsAreRead, PrintedIsRead, ServedLogsAreRead};

/// What is printed of the leases of a table, at any time, is read back as that table.
pub fn printed_is_read()
    ensures { PrintedIsRead }
{}

/// What a replay writes for the events that it handled, split into lines, is the line of each.
pub fn logs_are_read()
    ensures { LogsAreRead }
{}

/// What serving writes for the datagrams that it answered, split into lines, is lines of events and
/// remarks.
pub fn served_logs_are_read()
    ensures { ServedLogsAreRead }
{}
