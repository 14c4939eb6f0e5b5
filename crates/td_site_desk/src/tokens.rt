//! The tokens of clients, as their file has them.

ghost use Rattle.std.specs.Prelude.{◌≡◌};

use crate::desk::SiteDesk;
use std::alloc::AllocError;
use std::rt::Runtime;
use td_changes::Changes;
use td_client_tokens::ClientToken;
use td_replica::Catalogued;
use td_token_files::TokenFileError;

/// How long, in milliseconds, the file of tokens is not looked at again.
const LOOK_PAUSE: u64 = 2_000;

impl<R: Changes + Catalogued + Drop, H: Runtime + AllocGlobal> SiteDesk<'_, R, H> {
    // The line about a file of tokens that is wrong: the tokens stay as they were.
    fn token_fault_line(&self, error: TokenFileError) -> Result<String, AllocError> {
        let name = self.tokens.name();
        format!(in self.alloc; "fault token {name}: {error}; the tokens stay as they were")
    }

    // Reports that the file of tokens is wrong.
    fn report_token_fault(&mut self, error: TokenFileError)
        ensures { R.seen self.new.site ≡ R.seen self.old.site }
    {
        match self.token_fault_line(error) {
            Ok(line) => self.report_fault(line.as_str()),
            Err(_) => self.report_fault("fault memory: the file of tokens is not read"),
        }
    }

    /// The tokens of clients, if their file has changed; it is looked at every two seconds. A file that is wrong is
    /// reported.
    pub(crate) fn reread_tokens(&mut self) -> Option<Vec<ClientToken>>
        ensures { R.seen self.new.site ≡ R.seen self.old.site }
    {
        if self.now < self.tokens_due {
            return None;
        }
        self.tokens_due = self.now.saturating_add(LOOK_PAUSE);
        match self.tokens.reread(self.alloc, self.host) {
            Ok(None) => None,
            Ok(Some(tokens)) => {
                self.report("the tokens of clients were read again, since their file changed");
                self.mark_change();
                Some(tokens)
            }
            Err(error) => {
                self.report_token_fault(error);
                None
            }
        }
    }
}
