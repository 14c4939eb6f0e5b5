//! What came over a link.

use std::alloc::Global;
use td_comparison::{comparison_extent, differences_extent};
use td_frames::FrameError;
use td_io::Source;
use td_meeting::MeetingError;
use td_stream_bounds::{Extent, StreamScanner, greeting_extent};

/// The most bytes of one read.
const BUFFER: usize = 16_384;

/// Which message is awaited.
#[derive(Clone, Copy, PartialEq, Eq)]
pub(crate) enum Awaited {
    /// A comparison or a greeting.
    Opening,
    Comparison,
    Differences,
    Greeting,
}

/// What came over a link and is not read yet.
#[derive(Drop)]
pub(crate) struct Inbox {
    bytes: Vec<u8>,
    buffer: Vec<u8>,
    has_failed: bool,
}

impl Awaited {
    // How far the message reaches in these bytes.
    fn extent(self, bytes: &[u8]) -> Extent {
        match self {
            Awaited::Opening if bytes.first() == Some(&b'J') => comparison_extent(bytes),
            Awaited::Opening | Awaited::Greeting => greeting_extent(bytes),
            Awaited::Comparison => comparison_extent(bytes),
            Awaited::Differences => differences_extent(bytes),
        }
    }
}

impl Inbox {
    /// Nothing has come.
    pub(crate) fn new(alloc: Global) -> Result<Inbox, MeetingError> {
        match Vec::from_elem(alloc, 0u8, BUFFER) {
            Ok(buffer) => Ok(Inbox {
                bytes: Vec::new(alloc),
                buffer,
                has_failed: false,
            }),
            Err(_) => Err(MeetingError::OutOfMemory),
        }
    }

    /// All that has come.
    pub(crate) fn bytes(&self) -> &[u8] {
        &self.bytes
    }

    /// The first bytes of what has come; all, where fewer have.
    pub(crate) fn front(&self, count: usize) -> &[u8] {
        self.bytes.get(..count).unwrap_or(&self.bytes)
    }

    /// Drops the first bytes.
    pub(crate) fn drop_front(&mut self, count: usize) {
        let length = self.bytes.len();
        let count = count.min(length);
        self.bytes.rotate_left(count);
        self.bytes.truncate(length - count);
    }

    // Reads once, unless a read has failed. Returns whether something came.
    fn read_some<S: Source>(&mut self, source: &mut S) -> Result<bool, MeetingError> {
        if self.has_failed {
            return Ok(false);
        }
        match source.read_some(&mut self.buffer) {
            Ok(count) => match self.bytes.extend_from_slice(&self.buffer[..count]) {
                Ok(()) => Ok(count > 0),
                Err(_) => Err(MeetingError::OutOfMemory),
            },
            Err(_) => {
                self.has_failed = true;
                Ok(false)
            }
        }
    }

    /// Reads until a message has come whole, never will, or nothing more comes. Returns where it ends.
    pub(crate) fn read_message<S: Source>(
        &mut self,
        source: &mut S,
        awaited: Awaited,
    ) -> Result<usize, MeetingError> {
        for _ in 0..u64::MAX {
            match awaited.extent(&self.bytes) {
                Extent::Whole(end) => return Ok(end),
                Extent::Never => break,
                Extent::Open => {}
            }
            match self.read_some(source) {
                Ok(true) => {}
                Ok(false) => break,
                Err(error) => return Err(error),
            }
        }
        Ok(self.bytes.len())
    }

    /// Reads until a stream of entries that begins at this offset has come whole, never will, or nothing more comes.
    pub(crate) fn read_entries<S: Source>(
        &mut self,
        source: &mut S,
        offset: usize,
    ) -> Result<(), MeetingError> {
        let mut scanner = StreamScanner::new(offset);
        for _ in 0..u64::MAX {
            if scanner.advance(&self.bytes) != Extent::Open {
                return Ok(());
            }
            match self.read_some(source) {
                Ok(true) => {}
                Ok(false) => return Ok(()),
                Err(error) => return Err(error),
            }
        }
        Ok(())
    }

    /// Whether the link failed.
    pub(crate) fn has_failed(&self) -> bool {
        self.has_failed
    }

    /// Why a step stopped: the bytes ended too soon because the link failed, if it did.
    pub(crate) fn cause(&self, error: MeetingError) -> MeetingError {
        match error {
            MeetingError::Frame {
                error: FrameError::Cut,
                taken,
            } if self.has_failed => MeetingError::Frame {
                error: FrameError::ReadFault,
                taken,
            },
            error => error,
        }
    }
}
