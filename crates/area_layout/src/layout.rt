ghost use Rattle.std.specs.Prelude.{◌≡◌, ℕ, ◌+◌, ◌*◌, ◌^◌, ◌<◌, ◌≤◌, ◌↔◌, Some, IsTrue, IsSome, IsNone, IfSome, All, length, sum_by};
ghost use Rattle.area_layout.specs.Layout.{IsLayout, MakeLayout, IsArea, IsBufferSize, LiesIn, IsVoid, shape_of, shape_of_areas, listed_area, pool_buffers, all_buffers, least_size, size_of, begin_of, first_word, area_words, area_of_buffer, buffers_before, number_in_area, end_of_area, off_of, judged};

use std::marker::Model;
use zr_kinds::{Place, Rqe};

/// The most areas that there may be.
pub const MAX_AREAS: usize = 4;

/// The most pool buffers that all areas may have together.
pub const MAX_BUFFERS: u32 = 4096;

const MAX_RESERVES: u32 = 8;

/// The least size of a buffer, in bytes.
pub const MIN_SIZE: u32 = 1024;

/// The greatest size of a buffer, in bytes. Sizes are powers of two.
pub const MAX_SIZE: u32 = 65_536;

/// The most bytes that the pool buffers may have together: 64 MiB.
pub const MAX_BYTES: u64 = 67_108_864;

const WORD_BYTES: u64 = 8;

/// The low 48 bits of an offset are a place in an area, the upper 16 the number of the area
/// (`IORING_ZCRX_AREA_SHIFT` of io_uring.h).
const AREA_SPAN: u64 = 1 << 48;

/// Some pool buffers of one size. An area that isn't there has 0 buffers of 0 bytes.
#[derive(Clone, Copy, Debug, PartialEq, Eq)]
pub struct Area {
    /// How many there are.
    pub buffers: u32,
    /// The size of each, in bytes.
    pub size: u32,
}

/// How the areas are cut into buffers. Buffers are numbered from 0: first those of the pool, through all areas in order,
/// then the reserves, one for each application, which lie in area 0 behind its pool buffers.
#[derive(Clone, Copy, Debug)]
pub struct Layout {
    areas: [Area; 4],
    reserves: u32,
}

impl Model for Layout {
    ghost use Rattle.area_layout.specs.Layout.{Shape, IsLayout};

    ghost Value = { Shape };

    ghost view = { λ l. record { areas = l.areas; reserves = l.reserves } };

    ghost invariant = { λ l. IsLayout (record { areas = l.areas; reserves = l.reserves }) };

    ghost inverse = { λ s. record { areas = s.areas; reserves = s.reserves } };
}

impl Layout {
    /// The areas, each given by its number of pool buffers and their size in bytes, and so many reserves.
    pub fn of(areas: &[(u32, u32)], reserves: u32) -> Option<Layout>
        ensures fits { IsSome result ↔ MakeLayout areas.now reserves }
        ensures value { IfSome result (λ layout. layout ≡ shape_of_areas areas.now reserves) }
    {
        if areas.is_empty() || areas.len() > MAX_AREAS || reserves == 0 || reserves > MAX_RESERVES {
            return None;
        }
        if !are_areas(areas) {
            return None;
        }
        let (buffers, bytes) = sums(areas);
        if buffers > MAX_BUFFERS || bytes > MAX_BYTES {
            return None;
        }
        Some(Layout {
            areas: [
                listed_area(areas, 0),
                listed_area(areas, 1),
                listed_area(areas, 2),
                listed_area(areas, 3),
            ],
            reserves,
        })
    }

    /// One area of `buffers` pool buffers and `reserves` more, of `size` bytes each.
    pub fn new(buffers: u32, reserves: u32, size: u32) -> Option<Layout>
        ensures fits { IsSome result ↔ IsLayout (shape_of buffers reserves size) }
        ensures value { IfSome result (λ layout. layout ≡ shape_of buffers reserves size) }
    {
        Layout::of(&[(buffers, size)], reserves)
    }

    /// How many pool buffers there are.
    pub fn buffers(&self) -> u32
        ensures value { result ≡ pool_buffers self.now }
        ensures within { (1 ≤ result) × (result ≤ 4096) }
        ensures sound { IsLayout self.now }
    {
        self.buffers_before(MAX_AREAS)
    }

    /// How many buffers there are, reserves included.
    pub fn total(&self) -> u32
        ensures value { result ≡ all_buffers self.now }
        ensures within { (pool_buffers self.now < result) × (result ≤ pool_buffers self.now + 8) }
        ensures sound { IsLayout self.now }
    {
        self.buffers() + self.reserves
    }

    /// The least size of a buffer, in bytes.
    pub fn size(&self) -> u32
        ensures value { result ≡ least_size self.now }
        ensures least { (b : ℕ) → b < all_buffers self.now → result ≤ size_of self.now b }
        ensures within { IsBufferSize result }
    {
        let mut least = self.areas[0].size;
        for area in &self.areas {
            if area.buffers != 0 {
                least = least.min(area.size);
            }
        }
        least
    }

    /// The size of a buffer, in bytes.
    pub fn size_of(&self, buffer: u32) -> u32
        requires { buffer < all_buffers self.now }
        ensures value { result ≡ size_of self.now buffer }
        ensures within { IsBufferSize result }
    {
        self.areas[self.area_of(buffer) as usize].size
    }

    /// How many bytes all buffers have, reserves included.
    pub fn bytes(&self) -> u64
        ensures value { result ≡ begin_of self.now (all_buffers self.now) }
        ensures within { result ≤ 67633152 }
    {
        self.begin_of(self.total())
    }

    /// How many words of 8 bytes they have.
    pub fn words(&self) -> u64
        ensures value { result ≡ area_words self.now }
        ensures within { result ≤ 8454144 }
    {
        self.bytes() / WORD_BYTES
    }

    /// The number of words of 8 bytes that the buffers before this one have.
    pub fn first_word(&self, buffer: u32) -> u64
        requires { buffer < all_buffers self.now }
        ensures { result ≡ first_word self.now buffer }
    {
        self.begin_of(buffer) / WORD_BYTES
    }

    /// How many bytes lie before the place if all buffers stand one behind another, in the order of their numbers.
    pub fn byte_of(&self, p: &Place) -> u64
        requires { LiesIn self.now p.now }
        ensures value { result ≡ begin_of self.now p.now.buffer + p.now.offset }
        ensures within { result ≤ 67633152 }
    {
        self.begin_of(p.buffer) + u64::from(p.offset)
    }

    /// The number of the area in which the buffer lies.
    pub fn area_of(&self, buffer: u32) -> u32
        requires { buffer < all_buffers self.now }
        ensures value { result ≡ area_of_buffer self.now buffer }
        ensures within { result < 4 }
    {
        let mut left = buffer;
        for (number, area) in self.areas.iter().enumerate() {
            if left < area.buffers {
                return number as u32;
            }
            left -= area.buffers;
        }
        0
    }

    /// The offset by which completions and refill entries name the place.
    pub fn off_of(&self, p: &Place) -> u64
        requires { LiesIn self.now p.now }
        ensures value { result ≡ off_of self.now p.now }
        ensures fits { result < 2 ^ 50 }
    {
        let number = self.area_of(p.buffer);
        let begin = u64::from(self.number_in_area(p.buffer)) * u64::from(self.size_of(p.buffer));
        u64::from(number) * AREA_SPAN + begin + u64::from(p.offset)
    }

    /// The buffer that a refill entry names. Its length isn't looked at.
    pub fn judge(&self, e: &Rqe) -> Option<u32>
        ensures names { result ≡ judged self.now e.now }
        ensures void { IsNone result ↔ IsVoid self.now e.now }
        ensures within { IfSome result (λ buffer. buffer < all_buffers self.now) }
    {
        let number = (e.off / AREA_SPAN) as usize;
        let place = e.off % AREA_SPAN;
        if e.pad != 0 || place >= self.end_of_area(number) {
            return None;
        }
        let area = self.areas[number];
        let buffer = (place / u64::from(area.size)) as u32;
        Some(if buffer < area.buffers {
            self.buffers_before(number) + buffer
        } else {
            self.buffers() + (buffer - area.buffers)
        })
    }

    /// How many bytes the area has, reserves included.
    fn end_of_area(&self, number: usize) -> u64
        ensures { result ≡ end_of_area self.now number }
    {
        let Some(area) = self.areas.get(number) else {
            return 0;
        };
        let reserves = if number == 0 { self.reserves } else { 0 };
        u64::from(area.buffers + reserves) * u64::from(area.size)
    }

    /// How many pool buffers lie in the areas before this one.
    fn buffers_before(&self, number: usize) -> u32
        requires { number ≤ 4 }
        ensures value { result ≡ buffers_before self.now number }
        ensures sound { IsLayout self.now }
    {
        let mut before = 0;
        for area in &self.areas[..number] {
            before += area.buffers;
        }
        before
    }

    /// The buffer's number in its own area.
    fn number_in_area(&self, buffer: u32) -> u32
        requires { buffer < all_buffers self.now }
        ensures value { result ≡ number_in_area self.now buffer }
        ensures sound { IsLayout self.now }
    {
        let pool = self.buffers();
        if buffer < pool {
            buffer - self.buffers_before(self.area_of(buffer) as usize)
        } else {
            self.areas[0].buffers + (buffer - pool)
        }
    }

    /// The number of bytes that the buffers before this one have; for the number of all buffers, where the last ends.
    fn begin_of(&self, buffer: u32) -> u64
        requires { buffer ≤ all_buffers self.now }
        ensures value { result ≡ begin_of self.now buffer }
        ensures sound { IsLayout self.now }
    {
        let (mut left, mut bytes) = (buffer, 0);
        for area in &self.areas {
            if left <= area.buffers {
                return bytes + u64::from(left) * u64::from(area.size);
            }
            bytes += u64::from(area.buffers) * u64::from(area.size);
            left -= area.buffers;
        }
        bytes + u64::from(left) * u64::from(self.areas[0].size)
    }
}

/// Whether buffers may have this many bytes.
fn is_buffer_size(size: u32) -> bool
    ensures { IsTrue result ↔ IsBufferSize size }
{
    (MIN_SIZE..=MAX_SIZE).contains(&size) && size.is_power_of_two()
}

/// Whether each is some number of buffers that there may be, and a size that they may have.
fn are_areas(areas: &[(u32, u32)]) -> bool
    ensures { IsTrue result ↔ All (λ a. IsArea a.0 a.1) areas.now }
{
    for &(buffers, size) in areas {
        if buffers == 0 || buffers > MAX_BUFFERS || !is_buffer_size(size) {
            return false;
        }
    }
    true
}

/// How many buffers and bytes they have together.
fn sums(areas: &[(u32, u32)]) -> (u32, u64)
    requires few { length areas.now ≤ 4 }
    requires each { All (λ a. IsArea a.0 a.1) areas.now }
    ensures buffers { result.0 ≡ sum_by (λ a. a.0) areas.now }
    ensures bytes { result.1 ≡ sum_by (λ a. a.0 * a.1) areas.now }
{
    let (mut all, mut bytes) = (0, 0);
    for &(buffers, size) in areas {
        all += buffers;
        bytes += u64::from(buffers) * u64::from(size);
    }
    (all, bytes)
}

/// The area of this number; one behind the last isn't there.
fn listed_area(areas: &[(u32, u32)], number: usize) -> Area
    ensures { result ≡ listed_area areas.now number }
{
    match areas.get(number) {
        Some(&(buffers, size)) => Area { buffers, size },
        None => Area {
            buffers: 0,
            size: 0,
        },
    }
}
