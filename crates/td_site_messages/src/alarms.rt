//! Alarms, in words.

use std::alloc::AllocError;
use td_alarms::{Alarm, Alarms};

/// The most alarms that are named at a start.
const MOST_NAMED: usize = 10;

/// What is said of a site of which nothing differs.
const NO_ALARMS: &str = "no alarms\n";

// Appends a line for an alarm.
fn push_alarm(out: &mut String, alarm: &Alarm) -> Result<(), AllocError> {
    let Alarm { site, address } = *alarm;
    writeln!(
        out,
        "ALARM: statements of site {site} differ here and at the site met at {address}"
    )
}

/// Appends a line for each alarm, or that there is none.
pub fn push_alarms(out: &mut String, alarms: &Alarms) -> Result<(), AllocError> {
    let list = alarms.list();
    if list.is_empty() {
        return out.push_str(NO_ALARMS);
    }
    for alarm in list {
        push_alarm(out, alarm)?;
    }
    Ok(())
}

// Appends lines for the first alarms, and how many more there are.
fn push_first(out: &mut String, list: &[Alarm]) -> Result<(), AllocError> {
    for alarm in list.iter().take(MOST_NAMED) {
        push_alarm(out, alarm)?;
    }
    let more = list.len().saturating_sub(MOST_NAMED);
    if more > 0 {
        writeln!(out, "and {more} more")?;
    }
    Ok(())
}

/// Appends the alarms of a site that starts, in lines, and after these the hint how one is ended; nothing where there is
/// none.
pub fn push_start_alarms(
    out: &mut String,
    alarms: &Alarms,
    site: u16,
    hint: &str,
) -> Result<(), AllocError> {
    let list = alarms.list();
    if list.is_empty() {
        return Ok(());
    }
    push_first(out, list)?;
    writeln!(
        out,
        "two programs have written as one site, or a journal is damaged; docs/TUTORIAL.md says what to do{hint}"
    )?;
    push_own_alarm(out, alarms, site)
}

/// Appends a warning where statements of the site itself differ at another one: what it issues may reach nobody.
pub fn push_own_alarm(out: &mut String, alarms: &Alarms, site: u16) -> Result<(), AllocError> {
    if !alarms.is_raised(site) {
        return Ok(());
    }
    writeln!(
        out,
        "WARNING: statements of site {site}, which is this one, differ elsewhere: what it issues may reach no other site; docs/TUTORIAL.md says what to do"
    )
}

/// Appends how many alarms of a site were ended.
pub fn push_acknowledged(out: &mut String, count: usize, site: u16) -> Result<(), AllocError> {
    if count == 0 {
        return writeln!(out, "there is no alarm of site {site}");
    }
    let alarms = if count == 1 { "alarm" } else { "alarms" };
    writeln!(
        out,
        "{count} {alarms} of site {site} ended; a meeting raises it again as long as the statements differ"
    )
}
