ghost use Rattle.std.specs.Prelude.{◌≡◌, ◌≢◌, ◌↔◌, Some, IsNone, IfSome, drop, replicate};
ghost use Rattle.area_layout.specs.Entries.{completion_bytes, completion_read, refill_bytes, refill_of};

use byteorder::{ByteOrder, LittleEndian};
use zr_kinds::{Completion, Rqe};

/// The 32 bytes of a completion: `user_data`, `res`, `flags`, `off`, and 8 bytes of 0, little-endian.
pub fn cqe_bytes(c: &Completion) -> [u8; 32]
    ensures bytes { result ≡ completion_bytes c.now }
    ensures read_back { completion_read result ≡ Some c.now }
{
    let Completion {
        user_data,
        res,
        flags,
        off,
    } = *c;
    let mut bytes = [0; 32];
    LittleEndian::write_u64(&mut bytes, user_data);
    LittleEndian::write_i32(&mut bytes[8..], res);
    LittleEndian::write_u32(&mut bytes[12..], flags);
    LittleEndian::write_u64(&mut bytes[16..], off);
    bytes
}

/// The completion of 32 bytes, of which the last 8 have to be 0.
pub fn cqe_read(b: &[u8; 32]) -> Option<Completion>
    ensures value { result ≡ completion_read b.now }
    ensures padded { IsNone result ↔ (drop 24 b.now ≢ replicate 8 0) }
    ensures bytes_back { IfSome result (λ c. completion_bytes c ≡ b.now) }
{
    if LittleEndian::read_u64(&b[24..]) != 0 {
        return None;
    }
    Some(Completion {
        user_data: LittleEndian::read_u64(b),
        res: LittleEndian::read_i32(&b[8..]),
        flags: LittleEndian::read_u32(&b[12..]),
        off: LittleEndian::read_u64(&b[16..]),
    })
}

/// The 16 bytes of a refill entry: `off`, `len`, `pad`, little-endian.
pub fn rqe_bytes(e: &Rqe) -> [u8; 16]
    ensures bytes { result ≡ refill_bytes e.now }
    ensures read_back { refill_of result ≡ e.now }
{
    let Rqe { off, len, pad } = *e;
    let mut bytes = [0; 16];
    LittleEndian::write_u64(&mut bytes, off);
    LittleEndian::write_u32(&mut bytes[8..], len);
    LittleEndian::write_u32(&mut bytes[12..], pad);
    bytes
}

/// The refill entry of 16 bytes.
pub fn rqe_read(b: &[u8; 16]) -> Rqe
    ensures value { result ≡ refill_of b.now }
    ensures bytes_back { refill_bytes result ≡ b.now }
{
    Rqe {
        off: LittleEndian::read_u64(b),
        len: LittleEndian::read_u32(&b[8..]),
        pad: LittleEndian::read_u32(&b[12..]),
    }
}
