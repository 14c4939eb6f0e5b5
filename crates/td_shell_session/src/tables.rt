//! What the base relvars of a site have, as files: a script that makes them again, and tables for other programs.

use crate::answer::Answer;
use crate::dump::{is_of_journals, push_script};
use crate::fault::{Fault, FileFault};
use crate::new_file::{NotWritten, write_new};
use std::alloc::{AllocError, Global};
use std::fs;
use std::fs::File;
use std::rt::Files;
use td_grammar::LATEST;
use td_headings::{Catalogue, Origin};
use td_journal_files::Notes;
use td_listings::relation_table;
use td_relations::Relation;
use td_replica::{Catalogued, Opens, Replica, ValueError};
use td_semantics::{Answer as Evaluated, Meter, Outcome};
use td_shell_dumps::{DumpStatement, Tables, Trial, Untold, refused_insertions, tables_of};
use td_shell_input::push_entry;
use td_site_messages::{SiteFault, push_count};
use td_values::Name;

// Why what the relvars of a site have is not dumped.
fn not_dumped(error: Untold) -> Fault<'static> {
    match error {
        Untold::OutOfMemory => Fault::Site(SiteFault::Unchanged),
        Untold::Broken => Fault::Site(SiteFault::Broken),
        Untold::TooLong { relvar } => Fault::LongTuple(relvar),
    }
}

// Appends the script, and after it a line for each statement.
fn push_tables(
    dump: &mut String,
    script: &str,
    insertions: &[DumpStatement],
) -> Result<(), AllocError> {
    push_script(dump, script)?;
    for insertion in insertions {
        push_entry(dump, LATEST, insertion.text.as_str())?;
    }
    Ok(())
}

// Writes the script and the statements to a new file.
fn write_insertions<H: Files<File = File>>(
    alloc: Global,
    host: &H,
    file: &str,
    script: &str,
    insertions: &[DumpStatement],
) -> Result<(), NotWritten> {
    let mut dump = String::new(alloc);
    match push_tables(&mut dump, script, insertions) {
        Ok(()) => write_new(alloc, host, file, dump.as_bytes()),
        Err(_) => Err(NotWritten::OutOfMemory),
    }
}

// How many of the site's statements have no effect.
fn count_refused<R: Replica>(alloc: Global, site: &R) -> Result<usize, AllocError> {
    match site.outcomes(alloc) {
        Ok(outcomes) => Ok(
            outcomes
                .iter()
                .filter(|(_, outcome)| !matches!(outcome, Outcome::Done))
                .count(),
        ),
        Err(_) => Err(AllocError),
    }
}

// Says what a dump has that makes the tables again.
fn say_dumped(
    out: &mut String,
    file: &str,
    tables: &Tables,
    refused: usize,
) -> Result<(), AllocError> {
    out.push_str("dumped the script and ")?;
    push_count(out, tables.tuples, "tuple")?;
    out.push_str(" of ")?;
    push_count(out, tables.relvars, "base relvar")?;
    out.push_str(" by ")?;
    push_count(out, tables.insertions.len(), "statement")?;
    writeln!(out, " to {file}")?;
    out.push_str("it forgets the history: who issued what and when, past answers, and ")?;
    push_count(out, refused, "refused statement")?;
    out.push_str(
        "\nchange its script before sites start with it, if only by a comment: so sites of the old script do not meet them\n",
    )
}

// Appends what a new site refused, if it did.
fn push_warning(out: &mut String, trial: &Trial) -> Result<(), AllocError> {
    if trial.refused == 0 {
        return Ok(());
    }
    out.push_str("WARNING: ")?;
    push_count(out, trial.refused, "statement")?;
    out.push_str(
        " of the file would be refused by themselves, and it does not make this site's tables again:\n",
    )?;
    out.push_str(trial.lines.as_str())
}

// Writes the statements of the tables to the file, and says what a new site made of them.
fn write_tried<'t, R: Replica, H: Files<File = File>>(
    out: &mut String,
    host: &H,
    site: &R,
    tables: &Tables,
    trial: &Trial,
    file: &'t str,
) -> Result<(), Fault<'t>> {
    let alloc = *out.allocator();
    let refused = count_refused(alloc, site)?;
    if let Err(error) = write_insertions(alloc, host, file, site.script(), &tables.insertions) {
        return Err(Fault::unwritten(file, error));
    }
    say_dumped(out, file, tables, refused)?;
    Ok(push_warning(out, trial)?)
}

// Tries the statements of the tables at a new site, and writes them to the file.
fn write_tables<'t, O: Opens + Drop, R: Replica, H: Files<File = File>>(
    out: &mut String,
    host: &H,
    site: &R,
    tables: &Tables,
    file: &'t str,
    meter: &mut Meter,
) -> Result<(), Fault<'t>> {
    let Ok(held) = site.held() else {
        return Err(Fault::Site(SiteFault::Broken));
    };
    let insertions = tables.insertions.as_slice();
    let tried = refused_insertions::<O>(
        *out.allocator(),
        site.script(),
        held.limit(),
        insertions,
        meter,
    );
    match tried {
        Ok(trial) => write_tried(out, host, site, tables, &trial, file),
        Err(error) => Err(Fault::from(error)),
    }
}

/// Writes the script, and after it statements that insert what the base relvars have now, to a file that is not there
/// yet. They are tried at a new site first, and those that it refuses are reported.
pub(crate) fn dump_tables<'t, O: Opens + Drop, R: Catalogued, H: Files<File = File>>(
    out: &mut String,
    host: &H,
    site: &R,
    file: &'t str,
    meter: &mut Meter,
) -> Result<(), Fault<'t>> {
    if is_of_journals(file) {
        return Err(Fault::file(file, FileFault::JournalName));
    }
    if !site.is_open() {
        return Err(Fault::Site(SiteFault::Broken));
    }
    match tables_of(*out.allocator(), site) {
        Ok(tables) => write_tables::<O, _, _>(out, host, site, &tables, file, meter),
        Err(error) => Err(not_dumped(error)),
    }
}

// The relation as comma-separated values; none of one without attributes.
fn csv_of(alloc: Global, relation: &Relation) -> Result<Option<Vec<u8>>, ValueError> {
    if relation.heading().is_empty() {
        return Ok(None);
    }
    match relation_table(alloc, relation) {
        Ok(text) => Ok(Some(text)),
        Err(AllocError) => Err(ValueError::OutOfMemory),
    }
}

// The table of a relvar as comma-separated values; none if it has no attributes.
fn table_of<R: Replica>(
    alloc: Global,
    site: &R,
    name: &Name,
) -> Result<Option<Vec<u8>>, ValueError> {
    match site.value_of(alloc, name) {
        Ok(Evaluated::Value(relation)) => csv_of(alloc, &relation),
        Ok(Evaluated::Raised(_)) => Ok(None),
        Err(error) => Err(error),
    }
}

/// Where tables go.
#[derive(Drop)]
struct Target<'a, H> {
    host: &'a H,
    folder: &'a str,
    catalogue: &'a Catalogue,
    notes: &'a Notes,
}

impl<H: Files<File = File>> Target<'_, H> {
    // Writes a table to this file, and says what it did.
    fn write_file(&self, answer: &mut Answer, file: &str, table: &[u8]) -> Result<(), AllocError> {
        match write_new(*answer.text.allocator(), self.host, file, table) {
            Ok(()) => writeln!(answer.text, "{file}"),
            Err(NotWritten::OutOfMemory) => Err(AllocError),
            Err(error) => {
                answer.push_fault(self.catalogue, self.notes, Fault::unwritten(file, error))
            }
        }
    }

    // Writes a table into the folder by the name of its relvar, and says what it did.
    fn write_table(
        &self,
        answer: &mut Answer,
        relvar: &str,
        table: &[u8],
    ) -> Result<(), AllocError> {
        let alloc = *answer.text.allocator();
        let folder = self.folder;
        let file = format!(in alloc; "{folder}/{relvar}.csv")?;
        self.write_file(answer, file.as_str(), table)
    }

    // Writes the table of one relvar into the folder, and says what it did.
    fn export<R: Replica>(
        &self,
        answer: &mut Answer,
        site: &R,
        name: &Name,
    ) -> Result<(), AllocError> {
        let relvar = name.as_str();
        match table_of(*answer.text.allocator(), site, name) {
            Ok(Some(table)) => self.write_table(answer, relvar, &table),
            Ok(None) => writeln!(answer.text, "{relvar} has no attributes, and no table"),
            Err(ValueError::OutOfMemory) => Err(AllocError),
            Err(ValueError::Broken | ValueError::Unknown) => {
                let fault = Fault::Site(SiteFault::Broken);
                answer.push_fault(self.catalogue, self.notes, fault)
            }
        }
    }
}

// Writes the tables of all base relvars, in the order of the script.
fn export_all<R: Replica, H: Files<File = File>>(
    answer: &mut Answer,
    site: &R,
    target: &Target<'_, H>,
) -> Result<(), AllocError> {
    let catalogue = target.catalogue;
    for place in 0..catalogue.schema().relvar_count() {
        if let (Some((name, _)), Some(Origin::Base(_, _))) = (
            catalogue.relvar_at(place),
            catalogue.origin(place),
        ) {
            target.export(answer, site, name)?;
        }
    }
    Ok(())
}

/// Writes a CSV file for each base relvar into a folder, which is made if it is not there, and never over a file.
pub(crate) fn export<'t, R: Catalogued, H: Files<File = File>>(
    answer: &mut Answer,
    host: &H,
    site: &R,
    folder: &'t str,
    notes: &Notes,
) -> Result<(), Fault<'t>> {
    if fs::symlink_metadata(host, folder).is_err() && fs::create_dir(host, folder).is_err() {
        return Err(Fault::file(folder, FileFault::NoFolder));
    }
    let target = Target {
        host,
        folder,
        catalogue: site.catalogue(),
        notes,
    };
    Ok(export_all(answer, site, &target)?)
}
