//! A flow as the table keeps it.

ghost use Rattle.std.specs.Prelude.{◌≡◌, ℕ};
ghost use Rattle.frame_headers.specs.Seen.{shown};
ghost use Rattle.flow_table.specs.{Flows.{key_of, same_key, begins_anew, new_flow, seen_by}, Placing.{steered_to}, Kept.{key_shown, entry_shown}};

use crate::close::Close;
use crate::segment::{first_byte, has_syn};
use frame_headers::{Addr, Segment};

/// What knows a flow: the IP version, both addresses and both ports.
#[derive(Clone, Copy, Debug, PartialEq, Eq, Hash)]
pub(crate) struct Key {
    pub src: Addr,
    pub dst: Addr,
    pub sport: u16,
    pub dport: u16,
}

impl Key {
    pub(crate) fn of(segment: &Segment<'_>) -> Key
        ensures { key_shown result ≡ key_of (shown segment.now) }
    {
        Key {
            src: segment.src,
            dst: segment.dst,
            sport: segment.sport,
            dport: segment.dport,
        }
    }
}

/// A flow. Its number is its place in the list.
#[derive(Clone, Copy, Debug)]
pub(crate) struct FlowEntry {
    pub key: Key,
    /// The place of its port.
    pub app: u32,
    /// The sequence number of its first byte.
    pub base: u32,
    pub close: Close,
}

impl FlowEntry {
    pub(crate) fn begin(app: u32, segment: &Segment<'_>) -> FlowEntry
        ensures { (record_number : ℕ) → entry_shown result
            ≡ new_flow (steered_to app (shown segment.now) record_number) }
    {
        let mut close = Close::none();
        close.see(segment);
        FlowEntry {
            key: Key::of(segment),
            app,
            base: first_byte(segment),
            close,
        }
    }

    /// Whether the segment has the flow's key. The ports come first: they differ most often.
    pub(crate) fn has_key_of(&self, segment: &Segment<'_>) -> bool
        ensures { result ≡ same_key (key_shown self.now.key) (key_of (shown segment.now)) }
    {
        self.key.sport == segment.sport
            && self.key.dport == segment.dport
            && self.key.src == segment.src
            && self.key.dst == segment.dst
    }

    /// Whether the segment, of this key, begins a flow after this one.
    pub(crate) fn ends_before(&self, segment: &Segment<'_>) -> bool
        ensures { result ≡ begins_anew (entry_shown self.now) (shown segment.now) }
    {
        has_syn(segment) && first_byte(segment) != self.base
    }

    pub(crate) fn see(&mut self, segment: &Segment<'_>)
        ensures { entry_shown self.new ≡ seen_by (entry_shown self.old) (shown segment.now) }
    {
        self.close.see(segment);
    }
}
