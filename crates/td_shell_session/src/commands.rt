//! Commands, which begin with a dot.

use crate::access::Access;
use crate::answer::Answer;
use crate::compare::compare;
use crate::dump::{ENTRY_BYTES, dump, issue_entry};
use crate::fault::{Fault, FileFault, PlainFault};
use crate::help::HELP;
use crate::host::{Platform, Run};
use crate::import::import;
use crate::inputs::Inputs;
use crate::lists::{digest, log, refused_statements, vector};
use crate::meet::{Way, meet};
use crate::queries::ask_at;
use crate::relvars::{relvars, schema};
use crate::session::{Session, check_open};
use crate::tables::{dump_tables, export};
use std::rt::Files;
use td_changes::Changes;
use td_comparison::FirstMessage;
use td_paths::read_plain;
use td_replica::{Catalogued, Replica};
use td_shell_input::DotCommand;
use td_site_messages::{push_acknowledged, push_alarms, push_own_alarm};
use td_stamps::Stamp;

// Has the lines of a file come next.
fn read<'t, H: Files + AllocGlobal>(
    host: &H,
    inputs: &mut Inputs,
    file: &'t str,
) -> Result<(), Fault<'t>> {
    let bytes = match read_plain(host, file) {
        Ok(bytes) => bytes,
        Err(error) => return Err(Fault::file(file, FileFault::Unreadable(error))),
    };
    if inputs.read_file(bytes)? {
        Ok(())
    } else {
        Err(Fault::Plain(PlainFault::NestedFiles))
    }
}

// Issues the statement of a line of a dump, which is in files alone.
fn answer_entry<R: Changes + Catalogued + Drop, P: Platform>(
    run: &mut Run<'_, P>,
    session: &mut Session<R>,
    answer: &mut Answer,
    words: &str,
) -> Result<(), Fault<'static>> {
    if session.inputs.is_typed() {
        return Err(Fault::Plain(PlainFault::TypedEntry));
    }
    check_open(session.access)?;
    if words.len() > ENTRY_BYTES {
        return Err(Fault::Plain(PlainFault::LongLine));
    }
    push_own_alarm(
        &mut answer.text,
        &session.companions.alarms,
        session.site.site(),
    )?;
    issue_entry(answer, &mut session.site, words, run.meter, run.notes)
}

// Imports a file.
fn answer_import<'t, R: Changes + Catalogued + Drop, P: Platform>(
    run: &mut Run<'_, P>,
    session: &mut Session<R>,
    answer: &mut Answer,
    file: &'t str,
    relvar: &'t str,
) -> Result<(), Fault<'t>> {
    check_open(session.access)?;
    push_own_alarm(
        &mut answer.text,
        &session.companions.alarms,
        session.site.site(),
    )?;
    match read_plain(run.host, file) {
        Ok(bytes) => import(
            answer,
            &mut session.site,
            relvar,
            &bytes,
            run.meter,
            run.notes,
            run.faults,
        ),
        Err(error) => Err(Fault::file(file, FileFault::Unreadable(error))),
    }
}

// Lets go of the alarms of a site, and says how many there were.
fn acknowledge<R: Replica + Drop, H: Files>(
    out: &mut String,
    host: &H,
    session: &mut Session<R>,
    site: u16,
) -> Result<(), Fault<'static>> {
    if matches!(session.access, Access::ReadOnly) {
        return Err(Fault::Plain(PlainFault::ReadOnly));
    }
    let count = session.companions.alarms.acknowledge(site);
    if count > 0 && !session.companions.alarms.save(host)? {
        return Err(Fault::Plain(PlainFault::UnwrittenAlarms));
    }
    Ok(push_acknowledged(out, count, site)?)
}

// Answers a command that shows what the site holds, and changes nothing.
fn show<'t, R: Changes + Catalogued>(
    out: &mut String,
    site: &R,
    command: DotCommand<'t>,
) -> Result<(), Fault<'t>> {
    match command {
        DotCommand::Help => Ok(out.push_str(HELP)?),
        DotCommand::Tables => relvars(out, site),
        DotCommand::Schema(name) => Ok(schema(out, site.script(), name)?),
        DotCommand::Log => log(out, site),
        DotCommand::Refused { is_own } => refused_statements(out, site, is_own),
        DotCommand::Vector => vector(out, site),
        DotCommand::Digest(of) => digest(out, site, of),
        DotCommand::Misused(usage) => Err(Fault::Misused(usage)),
        DotCommand::Unknown(word) => Err(Fault::NoCommand(word)),
        _ => Ok(()),
    }
}

/// Answers a command whose answer is a text.
pub(crate) fn answer_command<'t, R: Changes + Catalogued + Drop, P: Platform>(
    run: &mut Run<'_, P>,
    session: &mut Session<R>,
    answer: &mut Answer,
    command: DotCommand<'t>,
) -> Result<(), Fault<'t>> {
    match command {
        DotCommand::Read(file) => read(run.host, &mut session.inputs, file),
        DotCommand::Import { file, relvar } => answer_import(run, session, answer, file, relvar),
        DotCommand::Dump(file) => dump(&mut answer.text, run.host, &session.site, file),
        DotCommand::DumpTables(file) => dump_tables::<P::Site, _, _>(
            &mut answer.text,
            run.host,
            &session.site,
            file,
            run.meter,
        ),
        DotCommand::Export(folder) => export(answer, run.host, &session.site, folder, run.notes),
        DotCommand::Entry(words) => answer_entry(run, session, answer, words),
        DotCommand::Serve(address) => meet(run, session, answer, Way::Serve, address),
        DotCommand::Call { address, is_plain } => {
            let opening = if is_plain {
                FirstMessage::Greeting
            } else {
                FirstMessage::Question
            };
            meet(run, session, answer, Way::Call(opening), address)
        }
        DotCommand::Compare { address, site } => compare(run, &*session, answer, address, site),
        DotCommand::Alarms => Ok(push_alarms(&mut answer.text, &session.companions.alarms)?),
        DotCommand::Acknowledge(site) => acknowledge(&mut answer.text, run.host, session, site),
        DotCommand::At { clock, site, query } => ask_at(
            &mut answer.text,
            &session.site,
            query,
            Stamp { clock, site },
            session.mode,
            run.meter,
        ),
        command => show(&mut answer.text, &session.site, command),
    }
}
