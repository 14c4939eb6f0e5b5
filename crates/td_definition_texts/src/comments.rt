//! What comments say of names.

use crate::source::ScriptTokens;
use std::alloc::{AllocError, Global};

/// The most bytes of a label.
const MOST_LABEL: usize = 60;

/// A name, and the words for it that a comment has: `/* PNO: Patient number */`.
#[derive(Clone, Copy)]
pub struct Label<'a> {
    pub name: &'a str,
    pub words: &'a str,
}

// Whether a text is a name of the language.
fn is_name(text: &str) -> bool {
    let bytes = text.as_bytes();
    bytes.first().is_some_and(|byte| byte.is_ascii_alphabetic())
        && bytes.iter().all(|byte| byte.is_ascii_alphanumeric() || *byte == b'_' || *byte == b'#')
}

// The label that a comment is.
fn label_in(comment: &str) -> Option<Label<'_>> {
    let (name, words) = comment.split_once(':')?;
    let (name, words) = (name.trim_ascii(), words.trim_ascii());
    let is_short = !words.is_empty() && words.len() <= MOST_LABEL;
    if is_short && is_name(name) && !words.contains('\n') {
        Some(Label { name, words })
    } else {
        None
    }
}

// Appends the labels of a text between two tokens.
fn add_labels<'a>(between: &'a str, labels: &mut Vec<Label<'a>>) -> Result<(), AllocError> {
    let mut rest = between;
    for _ in 0..between.len() {
        let Some((_, begun)) = rest.split_once("/*") else {
            return Ok(());
        };
        let Some((comment, after)) = begun.split_once("*/") else {
            return Ok(());
        };
        if let Some(label) = label_in(comment) {
            labels.push(label)?;
        }
        rest = after;
    }
    Ok(())
}

/// The labels of a script, in order. Comments are between its tokens.
pub fn labels<'a>(alloc: Global, source: &ScriptTokens<'a>) -> Result<Vec<Label<'a>>, AllocError> {
    let mut labels = Vec::new(alloc);
    let mut end = 0;
    for token in &source.tokens {
        add_labels(
            source.script.get(end..token.start).unwrap_or(""),
            &mut labels,
        )?;
        end = token.end;
    }
    add_labels(source.script.get(end..).unwrap_or(""), &mut labels)?;
    Ok(labels)
}
