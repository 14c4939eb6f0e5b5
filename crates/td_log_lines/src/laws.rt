//! What holds of every list of calls.

ghost use Rattle.td_log_lines.specs.Runs.{NoFaultIsLost};

/// Of the faults of each text that come, each is printed, or counted in a line, or held back until the next such line.
pub fn no_fault_is_lost()
    ensures { NoFaultIsLost }
{}
