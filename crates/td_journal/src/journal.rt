//! A journal that is written, in the second version of the formats.

ghost use Rattle.std.specs.Prelude.{◌≡◌, ◌≤◌, true, length, MatchResult, OnOk};
ghost use Rattle.std.specs.List.{AllByRecursion, list_all};
ghost use Rattle.td_io.specs.Views.{output_of};
ghost use Rattle.td_stamps.specs.Entries.{in_range};
ghost use Rattle.td_frames.specs.Spelling.{HasFrame, entry_frame, entry_frames};
ghost use Rattle.td_frames.specs.declared.version.Version.TheVariants.{Second};
ghost use Rattle.td_journal.specs.Spelling.{header};
ghost use Rattle.td_journal.specs.Written.{HandsOn, WritesAll, WritesPart};

use crate::error::WriteFault;
use crate::frames::{put_header, send_entries};
use std::marker::Model;
use td_frames::put_entry;
use td_io::{Failed, Sink};
use td_stamps::Entry;

/// The journal of a site, which contracts see as the writer that it is written to.
#[derive(Drop)]
pub struct Journal<W> {
    pub(crate) writer: W,
}

impl<W> Model for Journal<W> {
    ghost Value = { W };

    ghost view = { λ j. j.writer };
}

/// A journal that was not begun since its writer failed: the writer comes back, with a front of the header.
#[derive(Drop)]
pub struct NotBegun<W> {
    pub writer: W,
}

impl<W: Sink> Journal<W> {
    /// The journal of a site that has accepted nothing: writes its header. It takes no memory, and flushes nothing.
    pub fn begin(mut writer: W, site: u16, script: &str) -> Result<Journal<W>, NotBegun<W>>
        requires { length script.now ≤ 65536 }
        ensures { MatchResult result
            (λ j. WritesAll (output_of W.Sink writer) (output_of W.Sink j) (header Second site script.now))
            (λ e. WritesPart (output_of W.Sink writer) (output_of W.Sink e.writer) (header Second site script.now)) }
    {
        match put_header(&mut writer, site, script) {
            Ok(()) => Ok(Journal { writer }),
            Err(Failed) => Err(NotBegun { writer }),
        }
    }

    /// Writes the frame of an entry behind those before it. It takes no memory, and flushes nothing.
    pub fn append(&mut self, entry: &Entry) -> Result<(), WriteFault>
        requires { length entry.now.text ≤ 8192 }
        ensures has { HasFrame Second entry.now }
        ensures written { MatchResult result
            (λ _. WritesAll (output_of W.Sink self.old) (output_of W.Sink self.new) (entry_frame Second entry.now))
            (λ _. WritesPart (output_of W.Sink self.old) (output_of W.Sink self.new) (entry_frame Second entry.now)) }
    {
        match put_entry(&mut self.writer, entry) {
            Ok(()) => Ok(()),
            Err(Failed) => Err(WriteFault),
        }
    }

    /// Writes the frames of entries, and hands them on.
    pub(crate) fn accept(&mut self, entries: &[Entry]) -> Result<(), WriteFault>
        requires { list_all in_range entries.now ≡ true }
        ensures has { OnOk result (AllByRecursion (HasFrame Second) entries.now) }
        ensures written { MatchResult result
            (λ _. HandsOn (output_of W.Sink self.old) (output_of W.Sink self.new) (entry_frames Second entries.now))
            (λ _. WritesPart (output_of W.Sink self.old) (output_of W.Sink self.new) (entry_frames Second entries.now)) }
    {
        match send_entries(&mut self.writer, entries) {
            Ok(()) => Ok(()),
            Err(Failed) => Err(WriteFault),
        }
    }
}
