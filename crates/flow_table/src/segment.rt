//! What tells the application, the flow and the place of a segment.

ghost use Rattle.std.specs.Prelude.{◌≡◌, ◌<◌, length, IfSome};
ghost use Rattle.frame_headers.specs.Seen.{shown};
ghost use Rattle.flow_table.specs.Steered.{app_of, has_fin, has_syn, has_rst, first_byte};

use frame_headers::Segment;

// The flags (RFC 9293, 3.1).
const FIN: u8 = 1;

const SYN: u8 = 2;

const RST: u8 = 4;

pub(crate) fn has_fin(segment: &Segment<'_>) -> bool
    ensures { result ≡ has_fin (shown segment.now) }
{
    segment.flags & FIN != 0
}

#[tactic(auto, using(crate::proofs::Flags::syn_by_mask))]
pub(crate) fn has_syn(segment: &Segment<'_>) -> bool
    ensures { result ≡ has_syn (shown segment.now) }
{
    segment.flags & SYN != 0
}

#[tactic(auto, using(crate::proofs::Flags::rst_by_mask))]
pub(crate) fn has_rst(segment: &Segment<'_>) -> bool
    ensures { result ≡ has_rst (shown segment.now) }
{
    segment.flags & RST != 0
}

/// The sequence number of the first payload byte: SYN takes one (RFC 9293, 3.4).
pub(crate) fn first_byte(segment: &Segment<'_>) -> u32
    ensures { result ≡ first_byte (shown segment.now) }
{
    segment.seq.wrapping_add(u32::from(has_syn(segment)))
}

/// The application of a port: its place among the ports.
pub(crate) fn app_of(ports: &[u16], port: u16) -> Option<usize>
    ensures place { result ≡ app_of ports.now port }
    ensures within { IfSome result (λ app. app < length ports.now) }
{
    ports.iter().position(|one| *one == port)
}
