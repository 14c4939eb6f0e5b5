//! Which definitions of a script are refused, and where.

use crate::names::Names;
use crate::pieces::{DefinitionSpan, pieces, tokens_of};
use crate::report::Report;
use std::alloc::AllocError;
use td_grammar::{ReadError, read_script};
use td_headings::Catalogue;
use td_parse_errors::{Reading, is_too_deep, place_of_fault};
use td_tokens::{Token, tokens_end};
use td_type_errors::{Diagnostic, define_or_diagnose};

// What is wrong with a text that is no definition, where its reading stops at this place.
fn syntax_fault(text: &str, place: usize) -> &'static str {
    let (front, rest) = text.split_at(text.floor_char_boundary(place));
    if rest.is_empty() {
        return "the definition ends here too early; a semicolon may be missing";
    }
    if tokens_end(text) > front.len() {
        return "this does not go on with the definition";
    }
    match rest.as_bytes() {
        [b'\'', ..] => "a text without its closing quote on this line",
        [b'/', b'*', ..] => "a comment without its end",
        [b'(' | b'{', ..] => "more than 64 brackets are open here",
        [b'0'..=b'9', ..] => "an integer that is too large, or that letters follow",
        [b'a'..=b'z' | b'A'..=b'Z', ..] => "a name of more than 64 bytes",
        _ => "a character that no word of the language has",
    }
}

/// What was defined so far.
#[derive(Drop)]
struct Checker<'a> {
    script: &'a str,
    catalogue: Catalogue,
    names: Names<'a>,
}

impl<'a> Checker<'a> {
    // Tells why the definition is ill typed, and forgets what it would have defined.
    fn refuse(
        &mut self,
        report: &mut Report<'_>,
        piece: &DefinitionSpan<'a>,
        tokens: &[Token<'a>],
        found: &Diagnostic,
    ) -> Result<(), AllocError> {
        if self.names.is_twice(tokens) {
            report.count_refused();
            return self.tell_type(report, piece, found);
        }
        let unknown = self.names.unknown_names(report.alloc, tokens)?;
        let is_judged = if unknown.is_empty() {
            !self.names.names_refused(tokens)
        } else {
            !unknown.iter().all(|name| self.names.is_lost(name.text))
        };
        if is_judged {
            report.count_refused();
            self.tell_mistakes(report, piece, &unknown, found)?;
        } else {
            report.count_unjudged();
        }
        self.names.lose(tokens)
    }

    // Tells what is ill typed in the piece, at the place in the script at which that is found.
    fn tell_type(
        &self,
        report: &mut Report<'_>,
        piece: &DefinitionSpan<'a>,
        found: &Diagnostic,
    ) -> Result<(), AllocError> {
        let what = format!(in report.alloc; "ill typed: {}", found.message)?;
        report.tell(self.script, piece.begin.saturating_add(found.place), &what)
    }

    // Tells what the types have found, unless that is a name which a definition that was refused would have defined;
    // and the other names that nothing defines.
    fn tell_mistakes(
        &self,
        report: &mut Report<'_>,
        piece: &DefinitionSpan<'a>,
        unknown: &[Token<'a>],
        found: &Diagnostic,
    ) -> Result<(), AllocError> {
        let at = unknown.iter().find(|name| name.start == found.place);
        if !at.is_some_and(|name| self.names.is_lost(name.text)) {
            self.tell_type(report, piece, found)?;
        }
        for name in unknown {
            let is_told = at.is_some_and(|told| told.text == name.text);
            if !is_told && !self.names.is_lost(name.text) {
                let place = piece.begin.saturating_add(name.start);
                report.tell(
                    self.script,
                    place,
                    "ill typed: nothing before defines this name",
                )?;
            }
        }
        Ok(())
    }

    // Defines what the piece is, or tells why it is ill typed.
    fn define(
        &mut self,
        report: &mut Report<'_>,
        piece: &DefinitionSpan<'a>,
    ) -> Result<(), AllocError> {
        let tokens = tokens_of(report.alloc, piece.text)?;
        match define_or_diagnose(report.alloc, &mut self.catalogue, piece.text)? {
            None => self.names.accept(&tokens),
            Some(found) => self.refuse(report, piece, &tokens, &found),
        }
    }

    // Tells where the piece goes wrong as a text.
    fn tell_syntax(
        &mut self,
        report: &mut Report<'_>,
        piece: &DefinitionSpan<'a>,
    ) -> Result<(), AllocError> {
        let Some(place) = place_of_fault(report.alloc, Reading::Script, piece.text)? else {
            return Ok(());
        };
        report.count_refused();
        let what = if is_too_deep(report.alloc, Reading::Script, piece.text)? {
            "the expression nests deeper than 256 levels here"
        } else {
            syntax_fault(piece.text, place)
        };
        report.tell(self.script, piece.begin.saturating_add(place), what)?;
        let (front, _) = piece.text.split_at(tokens_end(piece.text));
        self.names.lose(&tokens_of(report.alloc, front)?)
    }

    // Counts the piece as a definition, and defines it or tells why it is refused.
    fn judge(
        &mut self,
        report: &mut Report<'_>,
        piece: &DefinitionSpan<'a>,
    ) -> Result<(), AllocError> {
        report.count_definition();
        match read_script(report.alloc, piece.text) {
            Ok(definitions) => match definitions.as_slice() {
                [_] => self.define(report, piece),
                _ => Ok(()),
            },
            Err(ReadError::Syntax) => self.tell_syntax(report, piece),
            Err(ReadError::OutOfMemory) => Err(AllocError),
        }
    }
}

/// Judges each definition of a script, from a byte on, after those before it that were accepted. It takes the time of
/// reading and typing the script, and for each definition a walk along the script.
pub(crate) fn check_definitions(
    report: &mut Report<'_>,
    script: &str,
    from: usize,
) -> Result<(), AllocError> {
    let mut checker = Checker {
        script,
        catalogue: Catalogue::new(report.alloc),
        names: Names::new(report.alloc),
    };
    for piece in &pieces(report.alloc, script, from)? {
        checker.judge(report, piece)?;
    }
    Ok(())
}
