//! The conversation at one site.

use crate::answer::{Answer, put_no_memory};
use crate::commands::answer_command;
use crate::draft::Draft;
use crate::ended::SessionEnd;
use crate::fault::{Fault, PlainFault};
use crate::host::{Platform, Run};
use crate::inputs::Next;
use crate::issue::issue;
use crate::queries::ask;
use crate::session::{Session, check_open};
use crate::timing::{begin, push_time};
use std::alloc::Global;
use std::time::Instant;
use std::{mem, str};
use td_arrivals::NoteError;
use td_changes::Changes;
use td_io::{Sink, put, write_all};
use td_listings::{ListingError, listing};
use td_replica::{Catalogued, Replica};
use td_shell_input::{DotCommand, Standing, command_of};
use td_site_messages::{SiteFault, push_own_alarm};
use td_site_opening::complain;

// What follows an answer.
#[derive(Clone, Copy, PartialEq, Eq)]
enum After {
    GoOn,
    Quit,
}

// What comes before a line that is typed at this site.
fn prompt<K: Sink>(
    alloc: Global,
    site: u16,
    draft: &Draft,
    output: &mut K,
) -> Result<(), SessionEnd> {
    if draft.standing_at_end() != Standing::Empty {
        return Ok(put(output, b".. ")?);
    }
    let prompt = format!(in alloc; "{site}> ")?;
    Ok(put(output, prompt.as_bytes())?)
}

// Writes what a line is answered, and notes whether that is a fault.
fn put_answer<R: Catalogued + Drop, P: Platform>(
    run: &mut Run<'_, P>,
    session: &mut Session<R>,
    answer: &Answer,
) -> Result<(), SessionEnd> {
    session.has_faults = session.has_faults || answer.is_fault;
    Ok(write_all(run.output, answer.text.as_bytes())?)
}

// Says why a line is not answered.
fn put_fault<R: Catalogued + Drop, P: Platform>(
    run: &mut Run<'_, P>,
    session: &mut Session<R>,
    fault: Fault<'_>,
) -> Result<(), SessionEnd> {
    let mut answer = Answer::new(run.alloc);
    match answer.push_fault(session.site.catalogue(), run.notes, fault) {
        Ok(()) => put_answer(run, session, &answer),
        Err(_) => {
            session.has_faults = true;
            put_no_memory(run.output)
        }
    }
}

// Takes note of when the statements came that the site holds now, and reports if that cannot be kept.
fn note_arrivals<R: Replica + Drop, P: Platform>(run: &mut Run<'_, P>, session: &mut Session<R>) {
    let Ok(held) = session.site.held() else {
        return;
    };
    let Some(arrivals) = &mut session.companions.arrivals else {
        return;
    };
    match arrivals.note(run.host, held.entries()) {
        Ok(()) => {}
        Err(NoteError::OutOfMemory) => complain(
            run.faults,
            "fault memory: when statements came is not kept\n",
        ),
        Err(NoteError::Unwritten) => complain(
            run.faults,
            "fault file: when statements came cannot be written\n",
        ),
    }
}

// Says what a line is answered, or why not, after it has taken note of the statements that came by it.
fn say<R: Catalogued + Drop, P: Platform>(
    run: &mut Run<'_, P>,
    session: &mut Session<R>,
    answer: &Answer,
    answered: Result<(), Fault<'_>>,
) -> Result<(), SessionEnd> {
    note_arrivals(run, session);
    match answered {
        Ok(()) => put_answer(run, session, answer),
        Err(fault) => put_fault(run, session, fault),
    }
}

// Says how long an answer took, if that is wanted.
fn say_time<R: Catalogued + Drop, P: Platform>(
    run: &mut Run<'_, P>,
    session: &mut Session<R>,
    begun: Option<Instant>,
) -> Result<(), SessionEnd> {
    let mut answer = Answer::new(run.alloc);
    match push_time(&mut answer.text, run.host, begun) {
        Ok(()) => put_answer(run, session, &answer),
        Err(error) => put_fault(run, session, Fault::from(error)),
    }
}

// Answers a text that was typed; a statement is issued only if the site may be changed.
fn answer_text<'t, R: Changes + Catalogued + Drop, P: Platform>(
    run: &mut Run<'_, P>,
    session: &mut Session<R>,
    out: &mut String,
    standing: Standing,
    text: &'t str,
) -> Result<(), Fault<'t>> {
    match standing {
        Standing::Statement => {
            check_open(session.access)?;
            push_own_alarm(out, &session.companions.alarms, session.site.site())?;
            issue(out, &mut session.site, text, run.meter)
        }
        Standing::Query => ask(out, &session.site, text, session.mode),
        Standing::Empty | Standing::Open => Ok(()),
    }
}

// Answers a text, and says how long that took.
fn say_text<R: Changes + Catalogued + Drop, P: Platform>(
    run: &mut Run<'_, P>,
    session: &mut Session<R>,
    standing: Standing,
    text: &str,
) -> Result<(), SessionEnd> {
    let begun = begin(run.host, session.is_timed);
    let mut answer = Answer::new(run.alloc);
    let answered = answer_text(run, session, &mut answer.text, standing, text);
    say(run, session, &answer, answered)?;
    say_time(run, session, begun)
}

// Answers what a draft has, if it has anything.
fn say_draft<R: Changes + Catalogued + Drop, P: Platform>(
    run: &mut Run<'_, P>,
    session: &mut Session<R>,
    draft: &Draft,
) -> Result<(), SessionEnd> {
    let standing = draft.standing_at_end();
    if standing == Standing::Empty {
        return Ok(());
    }
    match draft.text() {
        Some(text) => say_text(run, session, standing, text),
        None => put_fault(run, session, Fault::Plain(PlainFault::LongText)),
    }
}

// Answers the text that was typed, if there is one, and begins the next one.
fn finish<R: Changes + Catalogued + Drop, P: Platform>(
    run: &mut Run<'_, P>,
    session: &mut Session<R>,
) -> Result<(), SessionEnd> {
    let draft = mem::replace(&mut session.draft, Draft::new(run.alloc));
    say_draft(run, session, &draft)
}

// Writes all that the site has.
fn list<R: Catalogued + Drop, P: Platform>(
    run: &mut Run<'_, P>,
    session: &mut Session<R>,
) -> Result<(), SessionEnd> {
    match listing(run.alloc, &session.site, run.output) {
        Ok(()) => Ok(()),
        Err(ListingError::Broken) => put_fault(run, session, Fault::Site(SiteFault::Broken)),
        Err(ListingError::OutOfMemory) => {
            put_fault(run, session, Fault::Site(SiteFault::NoMemory))
        }
        Err(ListingError::WriteFault) => Err(SessionEnd::WriteFault),
    }
}

// Answers a command whose answer is a text.
fn say_command<R: Changes + Catalogued + Drop, P: Platform>(
    run: &mut Run<'_, P>,
    session: &mut Session<R>,
    command: DotCommand<'_>,
) -> Result<(), SessionEnd> {
    let mut answer = Answer::new(run.alloc);
    let answered = answer_command(run, session, &mut answer, command);
    say(run, session, &answer, answered)
}

// Carries out the command of a line, and says what it answers and how long that took.
fn carry_out<R: Changes + Catalogued + Drop, P: Platform>(
    run: &mut Run<'_, P>,
    session: &mut Session<R>,
    line: &str,
) -> Result<After, SessionEnd> {
    let begun = begin(run.host, session.is_timed);
    match command_of(line) {
        DotCommand::Quit => return Ok(After::Quit),
        DotCommand::Mode(mode) => session.mode = mode,
        DotCommand::Timer(is_timed) => session.is_timed = is_timed,
        DotCommand::Listing => list(run, session)?,
        command => say_command(run, session, command)?,
    }
    say_time(run, session, begun)?;
    Ok(After::GoOn)
}

// Takes a line. One that is empty or begins with a dot ends a text that is open.
fn take_line<R: Changes + Catalogued + Drop, P: Platform>(
    run: &mut Run<'_, P>,
    session: &mut Session<R>,
    line: &str,
) -> Result<After, SessionEnd> {
    let words = line.trim_ascii();
    if words.is_empty() {
        finish(run, session)?;
        return Ok(After::GoOn);
    }
    if words.as_bytes().starts_with(b".") {
        finish(run, session)?;
        // (a command may wait for another site)
        run.output.flush()?;
        return carry_out(run, session, words);
    }
    session.draft.add(line)?;
    if !session.draft.is_open() {
        finish(run, session)?;
    }
    Ok(After::GoOn)
}

// Takes the bytes of a line.
fn take_bytes<R: Changes + Catalogued + Drop, P: Platform>(
    run: &mut Run<'_, P>,
    session: &mut Session<R>,
    bytes: &[u8],
) -> Result<After, SessionEnd> {
    match str::from_utf8(bytes) {
        Ok(line) => take_line(run, session, line),
        Err(_) => {
            put_fault(run, session, Fault::Plain(PlainFault::NoUtf8))?;
            Ok(After::GoOn)
        }
    }
}

// Takes what comes next.
fn take<R: Changes + Catalogued + Drop, P: Platform>(
    run: &mut Run<'_, P>,
    session: &mut Session<R>,
    next: &Next,
) -> Result<After, SessionEnd> {
    match next {
        Next::Line(bytes) => take_bytes(run, session, bytes),
        Next::TooLong => {
            put_fault(run, session, Fault::Plain(PlainFault::LongLine))?;
            Ok(After::GoOn)
        }
        Next::FileEnd => {
            finish(run, session)?;
            Ok(After::GoOn)
        }
        Next::End => {
            finish(run, session)?;
            Ok(After::Quit)
        }
    }
}

// Reads what comes next, and takes it.
fn read_next<R: Changes + Catalogued + Drop, P: Platform>(
    run: &mut Run<'_, P>,
    session: &mut Session<R>,
) -> Result<After, SessionEnd> {
    match session.inputs.next_line(run.input) {
        Ok(next) => take(run, session, &next),
        Err(ended) => Err(ended),
    }
}

// Answers line after line, up to `.quit` or the end of the input, and flushes before it would wait.
fn answer_lines<R: Changes + Catalogued + Drop, P: Platform>(
    run: &mut Run<'_, P>,
    session: &mut Session<R>,
) -> Result<(), SessionEnd> {
    for _ in 0..u64::MAX {
        if session.is_prompted && session.inputs.is_typed() {
            prompt(run.alloc, session.site.site(), &session.draft, run.output)?;
        }
        if read_next(run, session)? == After::Quit {
            return Ok(());
        }
        if session.inputs.would_wait(run.input) {
            run.output.flush()?;
        }
    }
    Err(SessionEnd::ReadFault)
}

/// Answers line after line, up to `.quit` or the end of the input. Each answer is flushed before more of the input is
/// asked for and before a command. At a terminal a prompt comes before each line that is typed.
pub(crate) fn converse<R: Changes + Catalogued + Drop, P: Platform>(
    run: &mut Run<'_, P>,
    session: &mut Session<R>,
) -> Result<(), SessionEnd> {
    let ended = answer_lines(run, session);
    if !matches!(ended, Err(SessionEnd::WriteFault)) {
        run.output.flush()?;
    }
    ended
}
