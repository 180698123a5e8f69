//! Lines of a reader, of which no more is read at once than there is room for.

ghost use Rattle.std.specs.Prelude.{◌≡◌, ◌==◌, ◌≤◌, length, position};
ghost use Rattle.pr_trace.specs.declared.ahead.TheConstants.{MOST_HELD};

use crate::trace_error::TraceError;
use arrayvec::ArrayVec;
use memchr::memchr;
use std::io::Read;

/// How many bytes a line of a trace may have, without its end.
pub const MOST_LINE_BYTES: usize = 1_024;

// How many bytes are asked of the reader at a time.
const CHUNK: usize = 4_096;

/// How many bytes are held at most that were read and not looked at.
pub const MOST_HELD: usize = 8_192;

/// Bytes that were read and not looked at yet.
#[derive(Drop)]
pub(crate) struct Ahead {
    bytes: ArrayVec<u8, MOST_HELD>,
    // The bytes before this place were looked at.
    start: usize,
    ghost in_range: { start ≤ length bytes.items },
    ghost few: { length bytes.items ≤ MOST_HELD },
}

impl Ahead {
    ghost use Rattle.std.specs.Prelude.{◌≡◌, ◌+◌, ◌≤◌, ◌++◌, [], length, drop, OnOk, IfErr, IfOk};
    ghost use Rattle.pr_trace.specs.inside.LinesAhead.{FindsAhead, TakesAhead, TellsGrown, bytes_held, line_end, KeepsAhead};

    pub(crate) fn new() -> Ahead
        ensures { bytes_held result ≡ [] }
    {
        Ahead {
            bytes: ArrayVec::new(),
            start: 0,
        }
    }

    pub(crate) fn as_slice(&self) -> &[u8]
        ensures { result.now ≡ bytes_held self.now }
    {
        &self.bytes.as_slice()[self.start..]
    }

    /// How many bytes the line in front has without its end, or how many of them are at hand where they are more
    /// than a line may have; none where the reader has nothing left.
    pub(crate) fn next_line<R: Read>(&mut self, reader: &mut R) -> Result<Option<usize>, TraceError>
        ensures found { IfOk result (FindsAhead R.Read reader self) }
        ensures taken { TakesAhead R.Read reader self 0 }
        ensures fault { IfErr result (λ e. e ≡ TraceError.ReadFault) }
    {
        loop {
            if let Some(end) = self.line_end() {
                return Ok(Some(end));
            }
            if !self.read_more(reader)? {
                break;
            }
        }
        let rest = self.as_slice().len();
        Ok(if rest == 0 { None } else { Some(rest) })
    }

    /// Drops the line in front, which has so many bytes without its end.
    pub(crate) fn drop_line(&mut self, bytes: usize)
        requires { bytes ≤ length (bytes_held self.old) }
        ensures { bytes_held self.new ≡ drop (bytes + 1) (bytes_held self.old) }
    {
        let all = self.bytes.len();
        self.start = (self.start + bytes + 1).min(all);
    }

    // Where the line in front ends, if that is at hand, or if more of it is than a line may have.
    fn line_end(&self) -> Option<usize>
        ensures { result ≡ line_end (bytes_held self.now) }
    {
        let bytes = self.as_slice();
        if let Some(end) = line_feed_in(bytes) {
            return Some(end);
        }
        if bytes.len() > MOST_LINE_BYTES {
            Some(bytes.len())
        } else {
            None
        }
    }

    // Whether the reader had more.
    fn read_more<R: Read>(&mut self, reader: &mut R) -> Result<bool, TraceError>
        requires { length (bytes_held self.old) ≤ MOST_LINE_BYTES }
        ensures kept { OnOk result (KeepsAhead R.Read reader self) }
        ensures taken { TakesAhead R.Read reader self 0 }
        ensures fault { IfErr result (λ e. e ≡ TraceError.ReadFault) }
        ensures grown { IfOk result (TellsGrown R.Read reader self) }
    {
        let mut chunk = [0; CHUNK];
        let Ok(count) = reader.read(&mut chunk) else {
            return Err(TraceError::ReadFault);
        };
        self.append(&chunk[..count]);
        Ok(count > 0)
    }

    fn append(&mut self, more: &[u8])
        requires { length (bytes_held self.old) + length more.now ≤ MOST_HELD }
        ensures { bytes_held self.new ≡ bytes_held self.old ++ more.now }
    {
        let mut bytes = ArrayVec::new();
        let _ = bytes.try_extend_from_slice(self.as_slice());
        let _ = bytes.try_extend_from_slice(more);
        self.bytes = bytes;
        self.start = 0;
    }
}

fn line_feed_in(bytes: &[u8]) -> Option<usize>
    ensures { result ≡ position (λ b. b == 10) bytes.now }
{
    memchr(b'\n', bytes)
}
