//! The file of tokens.

ghost use Rattle.std.specs.Prelude.{◌≡◌, ◌⊎◌, IfErr, IfOk, Ok, Err, map};
ghost use Rattle.td_client_tokens.specs.Tokens.{shown};
ghost use Rattle.td_token_files.specs.declared.error.TokenFileError.TheVariants as error;
ghost use Rattle.td_token_files.specs.Looks.{AnswersLook, FileLook, file_look, tokens_by};

use crate::error::TokenFileError;
use crate::look::{Look, is_same, look_at};
use crate::secret::new_secret;
use std::alloc::Global;
use std::fs::{OpenFile, OpenOptions};
use std::io;
use std::io::{ErrorKind, Write};
use std::os::unix::fs::OpenOptionsExt;
use std::random::RandomSource;
use std::rt::Files;
use td_client_tokens::{ClientToken, ReadTokensError, read_tokens};
use td_paths::{Unreadable, plain_file, sync_folder};

/// The rights of a file that its owner alone may read and write.
const OWN: u32 = 0o600;

/// A file of tokens, and what the last look at it found.
#[derive(Drop)]
pub struct TokenFile {
    name: String,
    last: Look,
}

/// Writes a file that is not there yet, and syncs it with its name.
pub(crate) fn make_file<H: Files>(host: &H, name: &str, text: &str) -> io::Result<()> {
    let mut file = OpenOptions::new()
        .write(true)
        .create_new(true)
        .mode(OWN)
        .open(host, name)?;
    file.write_all(text.as_bytes())?;
    file.sync_all()?;
    sync_folder(host, name)
}

// Makes a file with a new token, which has no name and all rights, where there is none.
fn make_missing<H: Files + RandomSource + AllocGlobal>(
    alloc: Global,
    host: &H,
    name: &str,
) -> Result<(), TokenFileError> {
    let Err(Unreadable::Missing) = plain_file(host, name) else {
        return Ok(());
    };
    let Some(secret) = new_secret(alloc, host)? else {
        return Err(TokenFileError::NotMade(ErrorKind::Other));
    };
    let line = format!(in alloc; "{}\n", secret.as_str())?;
    match make_file(host, name, line.as_str()) {
        Ok(()) => Ok(()),
        Err(error) => Err(TokenFileError::NotMade(error.kind())),
    }
}

// The tokens of a text.
fn tokens_in(alloc: Global, text: &str) -> Result<Vec<ClientToken>, TokenFileError>
    ensures tokens { IfOk result (λ v. tokens_by (FileLook.text text.now) ≡ Ok (map shown v.items)) }
    ensures fault { IfErr result (λ e. (e ≡ error.OutOfMemory) ⊎ (tokens_by (FileLook.text text.now) ≡ Err e)) }
{
    match read_tokens(alloc, text) {
        Ok(tokens) => Ok(tokens),
        Err(ReadTokensError::OutOfMemory) => Err(TokenFileError::OutOfMemory),
        Err(error) => Err(TokenFileError::Tokens(error)),
    }
}

/// The tokens by what a look found, or why there are none.
pub(crate) fn tokens_of_look(alloc: Global, look: &Look) -> Result<Vec<ClientToken>, TokenFileError>
    ensures tokens { IfOk result (λ v. tokens_by (file_look look.now) ≡ Ok (map shown v.items)) }
    ensures fault { IfErr result (λ e. (e ≡ error.OutOfMemory) ⊎ (tokens_by (file_look look.now) ≡ Err e)) }
{
    match look {
        Look::Text(text) => tokens_in(alloc, text.as_str()),
        Look::OpenToOthers => Err(TokenFileError::OpenToOthers),
        Look::NoText => Err(TokenFileError::NoText),
        Look::Unreadable(fault) => Err(TokenFileError::Unreadable(*fault)),
    }
}

// What a look answers that found this; it is kept, unless memory ran out.
fn answer(
    last: &mut Look,
    alloc: Global,
    found: Look,
) -> Result<Option<Vec<ClientToken>>, TokenFileError>
    ensures { AnswersLook (file_look last.old) (file_look found) result (file_look last.new) }
{
    if is_same(last, &found) {
        return Ok(None);
    }
    let tokens = tokens_of_look(alloc, &found);
    match tokens {
        Ok(tokens) => {
            *last = found;
            Ok(Some(tokens))
        }
        Err(TokenFileError::OutOfMemory) => Err(TokenFileError::OutOfMemory),
        Err(error) => {
            *last = found;
            Err(error)
        }
    }
}

impl TokenFile {
    /// Opens the file of this name, which is made with a new token where it is not there: that one has no name and all
    /// rights, and is on the disk before it is returned. Its tokens come with it.
    pub fn open<H: Files + RandomSource + AllocGlobal>(
        alloc: Global,
        host: &H,
        name: &str,
    ) -> Result<(TokenFile, Vec<ClientToken>), TokenFileError>
        ensures { IfOk result (λ it. tokens_by (file_look it.0.last) ≡ Ok (map shown it.1.items)) }
    {
        make_missing(alloc, host, name)?;
        let last = look_at(host, name)?;
        let tokens = tokens_of_look(alloc, &last)?;
        let name = String::from_str(alloc, name)?;
        Ok((TokenFile { name, last }, tokens))
    }

    /// The name of the file.
    pub fn name(&self) -> &str {
        self.name.as_str()
    }

    /// Looks at the file again: its tokens if it has changed since the last look, and none if it has not. A file that
    /// is wrong, gone, or open to others is an error once, and then none until it changes again. If memory runs
    /// out, the next look tries again.
    pub fn reread<H: Files + AllocGlobal>(
        &mut self,
        alloc: Global,
        host: &H,
    ) -> Result<Option<Vec<ClientToken>>, TokenFileError>
        ensures { (found : FileLook) × AnswersLook (file_look self.old.last) found result (file_look self.new.last) }
    {
        match look_at(host, self.name.as_str()) {
            Ok(found) => answer(&mut self.last, alloc, found),
            Err(_) => Err(TokenFileError::OutOfMemory),
        }
    }
}
