//! What files tell of journals beside the answers of calls.

use crate::found::{Damage, Found};
use std::cell::Cell;
use std::io::ErrorKind;
use td_paths::Unreadable;

/// Why the file of a journal is not opened, or not gone on with.
#[derive(Clone, Copy, Debug, PartialEq, Eq)]
pub enum Refusal {
    /// What stands under the name is no plain file, or is told nothing of.
    NoFile(Unreadable),
    /// The folder of the name is not there.
    NoFolder,
    /// This user may not read and write it, or not make it.
    Denied,
    /// There is no room for it.
    Full,
    /// Another program has it open.
    Locked,
    /// Another file took its place while it was opened.
    Replaced,
    /// What has its length beside it is no file, or one that this user may not read and write.
    Beside,
    /// What is behind its whole statements cannot be kept in a file beside it.
    Unkept,
    /// It is of the first version, or is salvaged, and cannot be made anew beside itself.
    Unmade,
    /// Bytes of it were changed since they were written.
    Damaged(Damage),
    /// The system says no more.
    Other,
}

impl Refusal {
    /// The refusal that an error of the file system comes to.
    pub(crate) fn of(kind: ErrorKind) -> Refusal {
        match kind {
            ErrorKind::NotFound | ErrorKind::NotADirectory => Refusal::NoFolder,
            ErrorKind::PermissionDenied | ErrorKind::ReadOnlyFilesystem => Refusal::Denied,
            ErrorKind::StorageFull | ErrorKind::QuotaExceeded => Refusal::Full,
            _ => Refusal::Other,
        }
    }
}

/// Why what was written to a journal is not on the disk.
#[derive(Clone, Copy, Debug, PartialEq, Eq)]
pub enum SyncFailure {
    /// The file stands no longer under its name.
    Moved,
    /// There is no room for it.
    Full,
    /// The system says no more.
    Other,
}

impl SyncFailure {
    /// The failure that an error of a write or a flush comes to.
    pub(crate) fn of(kind: ErrorKind) -> SyncFailure {
        match kind {
            ErrorKind::StorageFull | ErrorKind::QuotaExceeded | ErrorKind::FileTooLarge => {
                SyncFailure::Full
            }
            _ => SyncFailure::Other,
        }
    }
}

/// What files tell of the journals that were opened by them, and what is asked of them.
#[derive(Drop)]
pub struct Notes {
    found: Cell<Option<Found>>,
    refusal: Cell<Option<Refusal>>,
    failure: Cell<Option<SyncFailure>>,
    lets_go: Cell<bool>,
    salvages: Cell<bool>,
}

impl Notes {
    /// Nothing was told yet.
    pub fn new() -> Notes {
        Notes {
            found: Cell::new(None),
            refusal: Cell::new(None),
            failure: Cell::new(None),
            lets_go: Cell::new(false),
            salvages: Cell::new(false),
        }
    }

    /// What was found of the journal that was opened last.
    pub fn found(&self) -> Option<Found> {
        self.found.get()
    }

    /// Why the file of a journal was not opened or not gone on with, if that is so of one. Of one that is refused for
    /// its bytes nothing is told here.
    pub fn refusal(&self) -> Option<Refusal> {
        self.refusal.get()
    }

    /// Why a journal failed, if one did.
    pub fn failure(&self) -> Option<SyncFailure> {
        self.failure.get()
    }

    /// Has the journals go on from what they have: that one had more once is not told again, as soon as something is
    /// written to it.
    pub fn let_go(&self) {
        self.lets_go.set(true);
    }

    /// Whether the journals are to go on from what they have.
    pub(crate) fn is_let_go(&self) -> bool {
        self.lets_go.get()
    }

    /// Has a journal that was damaged made anew of what is sound.
    pub fn salvage(&self) {
        self.salvages.set(true);
    }

    /// Whether a journal that was damaged is to be made anew.
    pub(crate) fn is_salvaging(&self) -> bool {
        self.salvages.get()
    }

    /// Notes what was found of a journal.
    pub(crate) fn find(&self, found: Found) {
        self.found.set(Some(found));
    }

    /// Notes why the file of a journal is refused.
    pub(crate) fn refuse(&self, refusal: Refusal) {
        self.refusal.set(Some(refusal));
    }

    /// Notes why a journal failed.
    pub(crate) fn fail(&self, failure: SyncFailure) {
        self.failure.set(Some(failure));
    }
}

impl Default for Notes {
    fn default() -> Notes {
        Notes::new()
    }
}
