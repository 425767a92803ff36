ghost use Rattle.std.specs.Prelude.{◌≡◌, ◌<◌, ◌^◌};
ghost use Rattle.zr_kinds.specs.CopyingReceiver.{lead};

/// The distance of a sequence number from that of position `next`, signed (RFC 9293, 3.4), and 2^31 more.
#[tactic(auto, unfolding(zr_kinds::specs::CopyingReceiver::lead))]
pub fn lead(base: u32, next: u64, seq: u32) -> u64
    ensures exact { result ≡ lead base next seq }
    ensures small { result < 2 ^ 32 }
{
    let low = (next % (1 << 32)) as u32;
    let distance = seq.wrapping_sub(base.wrapping_add(low)).cast_signed();
    (i64::from(distance) + (1 << 31)) as u64
}
