//! What a client may do.

ghost use Rattle.std.specs.Prelude.{◌≡◌, MatchOption, nat_le};
ghost use Rattle.td_client_tokens.specs.Grants as spec;

/// What a client may do; each right includes the ones before it.
#[derive(Clone, Copy, Debug)]
pub enum Rights {
    /// Read what the site has.
    Read,
    /// Issue statements, too.
    Write,
    /// Administer the server, too.
    All,
}

impl Rights {
    // How many rights there are before these.
    fn rank(self) -> u8
        ensures { result ≡ spec.rights_rank self }
    {
        match self {
            Rights::Read => 0,
            Rights::Write => 1,
            Rights::All => 2,
        }
    }

    /// Whether who has these rights has that one, too.
    pub fn include(self, right: Rights) -> bool
        ensures { result ≡ nat_le (spec.rights_rank right) (spec.rights_rank self) }
    {
        right.rank() <= self.rank()
    }

    /// The word for these rights.
    pub fn name(self) -> &'static str
        ensures { result.now ≡ spec.word self }
    {
        match self {
            Rights::Read => "read",
            Rights::Write => "write",
            Rights::All => "all",
        }
    }

    /// The rights of a word; none if it is no such word.
    pub fn from_name(name: &str) -> Option<Rights>
        ensures { result ≡ spec.of_word name.now }
    {
        if name == "read" {
            Some(Rights::Read)
        } else if name == "write" {
            Some(Rights::Write)
        } else if name == "all" {
            Some(Rights::All)
        } else {
            None
        }
    }
}
