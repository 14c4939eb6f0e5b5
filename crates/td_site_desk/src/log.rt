//! The log: statements, each with what became of it.

use crate::filters::{ChangeFilter, EntryFilter, key_values};
use crate::inquiries::{STAMP_WORDS, SiteView, status_of_tell};
use crate::words::{fault, read_stamp};
use caseless::default_case_fold_str;
use std::alloc::AllocError;
use td_changes::Changes;
use td_http_api::{LogFilter, StatusCode, Writer};
use td_replica::Catalogued;
use td_semantics::Outcome;
use td_site_messages::SiteFault;
use td_stamps::{Entry, Stamp};

// A stamp of a filter, if there is one.
fn stamp_of(text: Option<&str>) -> Result<Option<Stamp>, Unfit> {
    match text {
        None => Ok(None),
        Some(text) => match read_stamp(text) {
            Some(stamp) => Ok(Some(stamp)),
            None => Err(Unfit::Stamp),
        },
    }
}

/// Why a filter is none.
#[derive(Clone, Copy)]
enum Unfit {
    Stamp,
    Relvar,
    Key,
    /// A key without the relvar that it is of.
    LoneKey,
    Memory,
}

impl From<AllocError> for Unfit {
    fn from(_: AllocError) -> Unfit {
        Unfit::Memory
    }
}

impl<R: Changes + Catalogued> SiteView<'_, R> {
    // The index of the base relvar of this name.
    fn base_relvar(&self, name: &str) -> Option<usize> {
        let schema = self.site.catalogue().schema();
        for index in 0..schema.relvar_count() {
            if let Some((relvar, _)) = schema.relvar_at(index)
                && relvar.as_str() == name
            {
                return Some(index);
            }
        }
        None
    }

    // The values that a changed tuple must have.
    fn key_of(&self, key: Option<&str>) -> Result<Vec<(String, String)>, Unfit> {
        match key {
            None => Ok(Vec::new(self.alloc)),
            Some(text) => match key_values(self.alloc, text)? {
                Some(values) => Ok(values),
                None => Err(Unfit::Key),
            },
        }
    }

    // Which changes are looked for, if any are.
    fn change_of(
        &self,
        relvar: Option<&str>,
        key: Option<&str>,
    ) -> Result<Option<ChangeFilter>, Unfit> {
        let Some(name) = relvar else {
            return if key.is_none() {
                Ok(None)
            } else {
                Err(Unfit::LoneKey)
            };
        };
        match self.base_relvar(name) {
            None => Err(Unfit::Relvar),
            Some(relvar) => Ok(Some(ChangeFilter {
                relvar,
                key: self.key_of(key)?,
            })),
        }
    }

    // A filter whose members were read.
    fn filter_of<'f>(&self, filter: &LogFilter<'f>) -> Result<EntryFilter<'f>, Unfit> {
        let after = stamp_of(filter.after)?;
        let before = stamp_of(filter.before)?;
        let contains = match filter.contains {
            None => None,
            Some(text) => Some(default_case_fold_str(self.alloc, text)?),
        };
        Ok(EntryFilter {
            after,
            before,
            author: filter.author,
            contains,
            change: self.change_of(filter.relvar, filter.key)?,
            last: filter.last.unwrap_or(u64::MAX),
        })
    }

    // Appends why a filter is none, and returns the status.
    fn refuse_filter(&self, unfit: Unfit, out: &mut Writer) -> Result<StatusCode, AllocError> {
        match unfit {
            Unfit::Stamp => fault(out, StatusCode::BAD_REQUEST, STAMP_WORDS),
            Unfit::Relvar => {
                let words = "relvar: there is no base relvar of this name";
                fault(out, StatusCode::UNPROCESSABLE_ENTITY, words)
            }
            Unfit::Key => {
                let words =
                    "key: this is no object of JSON whose members are texts, numbers and truth values";
                fault(out, StatusCode::BAD_REQUEST, words)
            }
            Unfit::LoneKey => {
                let words = "key: a key is that of a relvar: add relvar=NAME";
                fault(out, StatusCode::BAD_REQUEST, words)
            }
            Unfit::Memory => Err(AllocError),
        }
    }

    // Whether a statement changed what is looked for.
    fn has_change(&self, filter: &EntryFilter<'_>, stamp: Stamp) -> Result<bool, AllocError> {
        let Some(change) = &filter.change else {
            return Ok(true);
        };
        match self.site.changed_by(stamp) {
            Ok(changes) => change.has_change(self.alloc, changes),
            Err(_) => Ok(false),
        }
    }

    // The indexes of the last statements that fit, the last one first.
    fn fitting(
        &self,
        entries: &[Entry],
        filter: &EntryFilter<'_>,
    ) -> Result<Vec<usize>, AllocError> {
        let mut fitting = Vec::new(self.alloc);
        for (index, entry) in entries.iter().enumerate().rev() {
            if fitting.len() as u64 >= filter.last {
                break;
            }
            if filter.has_entry(self.alloc, entry)? && self.has_change(filter, entry.stamp())? {
                fitting.push(index)?;
            }
        }
        Ok(fitting)
    }

    // Appends these statements, the last index first.
    fn write_entries(
        &self,
        entries: &[Entry],
        outcomes: &[(Stamp, Outcome)],
        fitting: &[usize],
        out: &mut Writer,
    ) -> Result<StatusCode, AllocError> {
        out.key("log")?;
        out.begin_array()?;
        for index in fitting.iter().rev() {
            if let (Some(entry), Some((_, outcome))) = (entries.get(*index), outcomes.get(*index)) {
                self.tell_entry(entry, outcome, out)?;
            }
        }
        out.end_array()?;
        Ok(StatusCode::OK)
    }

    // Appends those of these statements that fit, each with what became of it.
    fn tell_log_of(
        &self,
        entries: &[Entry],
        outcomes: &[(Stamp, Outcome)],
        filter: &EntryFilter<'_>,
        out: &mut Writer,
    ) -> Result<StatusCode, AllocError> {
        let fitting = self.fitting(entries, filter)?;
        self.write_entries(entries, outcomes, &fitting, out)
    }

    /// Appends the statements that fit a filter, each with what became of it.
    pub(crate) fn tell_log(
        &self,
        filter: &LogFilter<'_>,
        out: &mut Writer,
    ) -> Result<StatusCode, AllocError> {
        let filter = match self.filter_of(filter) {
            Ok(filter) => filter,
            Err(unfit) => return self.refuse_filter(unfit, out),
        };
        match self.entries() {
            Ok((entries, outcomes)) => self.tell_log_of(entries, &outcomes, &filter, out),
            Err(error) => self.refuse(status_of_tell(error), SiteFault::from(error), out),
        }
    }
}
