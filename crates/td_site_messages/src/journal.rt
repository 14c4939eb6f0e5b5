//! A site's journal, in words.

use crate::wording::push_count;
use std::alloc::AllocError;
use td_journal_files::{Checked, Contents, Cut, Damage, Found, PassedOver, Salvaged, SyncFailure};
use td_replica::Replica;
use td_stamps::Entry;

/// What is said at the start of a site that keeps no journal.
const UNKEPT: &str =
    "nothing is kept: without --journal all statements are forgotten when the program ends\n";

/// What is said of a journal that is read and not written.
const NOT_WRITTEN: &str =
    "nothing is written here, and what others write to it from now on is seen at the next start\n";

// How many of the entries are the site's own.
fn count_of_own(entries: &[Entry], site: u16) -> usize {
    entries.iter().filter(|entry| entry.site == site).count()
}

// Appends how many statements the journal has, and how many of them are the site's own, after how it is read.
fn push_held<R: Replica>(
    out: &mut String,
    name: &str,
    how: &str,
    site: &R,
) -> Result<(), AllocError> {
    let Ok(held) = site.held() else {
        return Ok(());
    };
    write!(out, "journal {name}: {how}")?;
    if held.is_empty() {
        return out.push_str("empty\n");
    }
    push_count(out, held.len(), "statement")?;
    let own = count_of_own(held.entries(), site.site());
    writeln!(out, ", {own} of them this site's")
}

// Appends the name of the file beside the journal that keeps a cut; the first one's has no number.
fn push_name_of_cut(out: &mut String, name: &str, number: u32) -> Result<(), AllocError> {
    if number == 1 {
        return writeln!(out, "{name}.cut");
    }
    writeln!(out, "{name}.cut.{number}")
}

// Appends what was cut off, and where it is kept.
fn push_cut(out: &mut String, name: &str, found: &Found, cut: &Cut) -> Result<(), AllocError> {
    let bytes = cut.bytes;
    let whole = found.whole;
    if cut.is_damage || found.is_short() {
        write!(
            out,
            "journal {name}: DAMAGED behind byte {whole}. The {bytes} bytes behind it cannot be read, and are kept in "
        )?;
    } else {
        write!(
            out,
            "journal {name}: it ended in a statement that was not whole, as a stop leaves it; its {bytes} bytes are kept in "
        )?;
    }
    push_name_of_cut(out, name, cut.number)
}

/// Appends how many statements can be read where a journal is damaged, and which.
pub fn push_readable(out: &mut String, damage: &Damage) -> Result<(), AllocError> {
    let (Some(first), Some(last)) = (damage.first, damage.last) else {
        return out.push_str("where no statement can be read");
    };
    out.push_str("where ")?;
    push_count(out, damage.statements as usize, "statement")?;
    let clock = first.clock;
    let site = first.site;
    write!(out, " can be read, {clock}.{site}")?;
    if first == last {
        return Ok(());
    }
    let clock = last.clock;
    let site = last.site;
    write!(out, " to {clock}.{site}")
}

// Appends how a journal was salvaged.
fn push_salvaged(out: &mut String, name: &str, salvaged: &Salvaged) -> Result<(), AllocError> {
    let from = salvaged.damage.from;
    let end = salvaged.damage.end;
    write!(
        out,
        "journal {name}: SALVAGED. It was damaged between byte {from} and byte {end}, "
    )?;
    push_readable(out, &salvaged.damage)?;
    let kept = salvaged.kept;
    write!(
        out,
        "; these are left out, and {kept} are kept. The damaged journal is in "
    )?;
    if salvaged.number == 1 {
        return writeln!(out, "{name}.damaged");
    }
    let number = salvaged.number;
    writeln!(out, "{name}.damaged.{number}")
}

// Appends what `--salvage` did, if the words have it.
fn push_salvage(out: &mut String, name: &str, found: &Found) -> Result<(), AllocError> {
    match &found.salvaged {
        Some(salvaged) => push_salvaged(out, name, salvaged),
        None if found.is_salvaging => {
            writeln!(
                out,
                "journal {name}: it is not damaged, and --salvage changed nothing"
            )
        }
        None => Ok(()),
    }
}

// Appends how much of a journal was not compared with its sums.
fn push_checked(out: &mut String, name: &str, checked: Checked) -> Result<(), AllocError> {
    match checked {
        Checked::NotKept | Checked::Everything => Ok(()),
        Checked::Unusable => writeln!(
            out,
            "journal {name}: not checked, since {name}.sums is no file that this user may read and write; move that away"
        ),
        Checked::UpTo(0) => {
            writeln!(
                out,
                "journal {name}: not checked, since it had no sums; it has them now"
            )
        }
        Checked::UpTo(byte) => writeln!(
            out,
            "journal {name}: checked up to byte {byte}; what is after that had no sums, and has them now"
        ),
    }
}

// Appends that a journal has less than was on the disk once.
fn push_short(out: &mut String, name: &str, seen: u64, whole: u64) -> Result<(), AllocError> {
    writeln!(
        out,
        "journal {name}: LACKS STATEMENTS. {seen} bytes of it were on the disk once, and {whole} are whole now: it was damaged or removed, or an older copy took its place"
    )
}

// Appends what was found of the file of a journal.
fn push_found<R: Replica>(
    out: &mut String,
    name: &str,
    found: &Found,
    site: &R,
) -> Result<(), AllocError> {
    if found.is_new {
        writeln!(out, "journal {name}: begun, empty")?;
    } else {
        push_held(out, name, "", site)?;
        push_salvage(out, name, found)?;
        push_checked(out, name, found.checked)?;
    }
    if let Some(cut) = &found.cut {
        push_cut(out, name, found, cut)?;
    }
    match found.seen {
        Some(seen) if found.is_short() => push_short(out, name, seen, found.whole),
        _ => Ok(()),
    }
}

/// Appends what was found of the journal of this name, in lines; or that none is kept.
pub fn push_journal<R: Replica>(
    out: &mut String,
    name: Option<&str>,
    found: Option<Found>,
    site: &R,
) -> Result<(), AllocError> {
    match (name, found) {
        (None, _) => out.push_str(UNKEPT),
        (Some(name), None) => push_held(out, name, "", site),
        (Some(name), Some(found)) => push_found(out, name, &found, site),
    }
}

// Appends what is passed over of a journal that is left as it is.
fn push_passed(
    out: &mut String,
    name: &str,
    whole: u64,
    passed: PassedOver,
) -> Result<(), AllocError> {
    let bytes = passed.bytes;
    if passed.is_damage {
        return writeln!(
            out,
            "journal {name}: DAMAGED behind byte {whole}. The {bytes} bytes behind it cannot be read, and are passed over"
        );
    }
    writeln!(
        out,
        "journal {name}: it ends in a statement that is not whole, as a stop leaves it or who writes it now; its {bytes} bytes are passed over"
    )
}

/// Appends what was read of the journal of this name, which is whole up to this byte, and is left as it is, in lines.
pub fn push_read_only_journal<R: Replica>(
    out: &mut String,
    name: &str,
    contents: &Contents,
    whole: u64,
    site: &R,
) -> Result<(), AllocError> {
    push_held(out, name, "read only, ", site)?;
    if let Some(passed) = contents.behind(whole) {
        push_passed(out, name, whole, passed)?;
    }
    if let Some(seen) = contents.seen
        && whole < seen
    {
        push_short(out, name, seen, whole)?;
    }
    out.push_str(NOT_WRITTEN)
}

/// Why a statement is not on the disk.
pub fn failure_words(failure: Option<SyncFailure>) -> &'static str {
    match failure {
        Some(SyncFailure::Moved) =>
            "its file stands no longer under its name: it was moved, removed or replaced",
        Some(SyncFailure::Full) =>
            "there is no room for it: the disk is full, or a limit on files is reached",
        _ => "the system refuses to write it",
    }
}

/// Appends that what the site accepts is not on the disk, and why.
pub(crate) fn push_unwritten(
    out: &mut String,
    failure: Option<SyncFailure>,
) -> Result<(), AllocError> {
    let why = failure_words(failure);
    write!(
        out,
        "journal: the journal cannot be written: {why}. This is not kept, and all before it stands. Mend that, end the program and start it again"
    )
}
