//! How a flow was closed, and what of a segment counts by that.

ghost use Rattle.std.specs.Prelude.{◌≡◌, ◌≤◌, length};
ghost use Rattle.frame_headers.specs.Seen.{shown};
ghost use Rattle.flow_table.specs.{CountedPart.{not_closed, number_behind, closed_by, counted_len}, Kept.{close_shown}};

use crate::segment::{first_byte, has_fin, has_rst};
use frame_headers::Segment;

/// How a flow was closed, so far (RFC 9293, 3.6 and 3.5.3).
#[derive(Clone, Copy, Debug)]
pub struct Close {
    /// The sequence number behind the flow's last byte, once a FIN set it.
    pub fin: Option<u32>,
    /// Whether a segment had RST.
    pub reset: bool,
}

// The sequence number behind the payload.
fn number_behind(segment: &Segment<'_>) -> u32
    ensures { result ≡ number_behind (shown segment.now) }
{
    let len = segment.payload.len() % (1 << 32);
    first_byte(segment).wrapping_add(len as u32)
}

impl Close {
    pub(crate) fn none() -> Close
        ensures { close_shown result ≡ not_closed }
    {
        Close {
            fin: None,
            reset: false,
        }
    }

    pub(crate) fn see(&mut self, segment: &Segment<'_>)
        ensures { close_shown self.new ≡ closed_by (close_shown self.old) (shown segment.now) }
    {
        if self.reset || has_rst(segment) {
            self.reset = true;
        } else if has_fin(segment) && self.fin.is_none() {
            self.fin = Some(number_behind(segment));
        }
    }

    /// How many bytes count of a segment that the flow has seen. A number that is 2^31 or more ahead is one behind.
    pub(crate) fn counted(self, segment: &Segment<'_>) -> usize
        ensures counted { result ≡ counted_len (close_shown self) (shown segment.now) }
        ensures most { result ≤ length (shown segment.now).payload }
    {
        if self.reset {
            return 0;
        }
        let len = segment.payload.len();
        let Some(end) = self.fin else {
            return len;
        };
        let ahead = end.wrapping_sub(first_byte(segment));
        if ahead < 1 << 31 {
            len.min(ahead as usize)
        } else {
            0
        }
    }
}
