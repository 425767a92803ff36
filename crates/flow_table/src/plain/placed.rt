ghost use Rattle.std.specs.Prelude.{◌≡◌, ◌+◌, ◌<◌, ◌≤◌, ◌^◌, length, IfOk, OnOk};
ghost use Rattle.zr_kinds.specs.CopyingReceiver.{lead, next_missing, filled_by_values, received, front_of, nothing_placed};

use std::alloc::{AllocError, Global};

/// No position is above this.
const END: u64 = 1 << 62;

/// No byte lies more than this far ahead of the first that is missing.
const WINDOW: u64 = 1 << 30;

/// Distances are signed. With this much more they aren't below 0.
const BIAS: u64 = 1 << 31;

/// A byte at a position of a stream.
#[derive(Clone, Copy)]
pub struct PlacedByte {
    pub position: u64,
    pub byte: u8,
}

/// Bytes at positions. Where several are at one position the first of the list counts.
#[derive(Drop)]
pub struct PlainPlaced {
    bytes: Vec<PlacedByte>,
    /// From here on none stands.
    top: u64,
    ghost low: { top ≤ 2 ^ 62 },
}

// The distance of the sequence number s from that of position n, signed, and 2^31 more.
#[tactic(auto, unfolding(zr_kinds::specs::CopyingReceiver::lead))]
fn lead(base: u32, n: u64, s: u32) -> u64
    ensures exact { result ≡ lead base n s }
    ensures small { result < 2 ^ 32 }
{
    let low = (n % (1 << 32)) as u32;
    let distance = s.wrapping_sub(base.wrapping_add(low)).cast_signed();
    (i64::from(distance) + (1 << 31)) as u64
}

impl PlainPlaced {
    ghost use Rattle.flow_table.specs.Plain.{byte_in, placed_shown};

    pub fn new(alloc: Global) -> Self
        ensures { placed_shown result ≡ nothing_placed }
    {
        PlainPlaced {
            bytes: Vec::new(alloc),
            top: 0,
        }
    }

    fn at(&self, position: u64) -> Option<u8>
        ensures { result ≡ byte_in self.now.bytes.items position }
    {
        for one in &self.bytes {
            if one.position == position {
                return Some(one.byte);
            }
        }
        None
    }

    // The least position where none stands.
    #[tactic(auto, unfolding(zr_kinds::specs::CopyingReceiver::next_missing))]
    fn next_missing(&self) -> u64
        ensures exact { result ≡ next_missing (placed_shown self.now) }
        ensures low { result ≤ 2 ^ 62 }
    {
        for position in 0..self.top {
            if self.at(position).is_none() {
                return position;
            }
        }
        self.top
    }

    // Places the values from the position `from` less 2^31 on, as far as that isn't below 0.
    fn fill(&mut self, from: u64, values: &[u8]) -> Result<(), AllocError>
        requires { from + length values.now ≤ 2 ^ 62 + 2 ^ 31 }
        ensures { OnOk result (placed_shown self.new
            ≡ filled_by_values (placed_shown self.old) from values.now) }
    {
        for (i, byte) in values.iter().enumerate() {
            let place = from + i as u64;
            if place >= BIAS {
                self.bytes.push(PlacedByte {
                    position: place - BIAS,
                    byte: *byte,
                })?;
            }
        }
        let end = (from + values.len() as u64).saturating_sub(BIAS);
        self.top = self.top.max(end);
        Ok(())
    }

    /// Takes what came from the sequence number s on.
    #[tactic(auto, unfolding(zr_kinds::specs::CopyingReceiver::received))]
    pub fn receive(&mut self, base: u32, s: u32, values: &[u8]) -> Result<(), AllocError>
        ensures { OnOk result (placed_shown self.new
            ≡ received base (placed_shown self.old) s values.now) }
    {
        let n = self.next_missing();
        let ahead = lead(base, n, s);
        let len = values.len() as u64;
        if ahead + len <= WINDOW + BIAS && n + ahead + len <= END + BIAS {
            self.fill(n + ahead, values)?;
        }
        Ok(())
    }

    /// The bytes up to the first that is missing.
    pub fn front(&self, alloc: Global) -> Result<Vec<u8>, AllocError>
        ensures { IfOk result (λ front. front.items ≡ front_of (placed_shown self.now)) }
    {
        let mut front = Vec::new(alloc);
        for position in 0..self.top {
            let Some(byte) = self.at(position) else {
                break;
            };
            front.push(byte)?;
        }
        Ok(front)
    }
}
