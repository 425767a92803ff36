//! The setting that the first line of a record says.
ghost use Rattle.std.specs.Prelude.{◌≡◌, ◌≤◌, ◌↔◌, IfOk, IsTrue, All, length, map, option_map, ◌==◌, ◌+◌};
ghost use Rattle.zr_kinds.specs.{Setting.{AreAreas, IsRunArea, IsSetting, IsSize, buffers_of_areas, pool_bytes, size_of_buffer, total_buffers}, Holders.{is_app, is_buffer, is_pool_buffer, is_reserve_of, is_within}};
ghost use Rattle.run_check.specs.Reading.{IsSettingOfLine, all_run_areas, area_by, area_in_line, setting_by, setting_from};

use crate::words::{is_word, number_of, parts_of};
use std::alloc::{AllocError, Global};
use std::marker::Model;

const MOST_AREAS: usize = 4;

const MOST_BUFFERS: u32 = 4096;

const LEAST_SIZE: u32 = 1024;

const MOST_SIZE: u32 = 65_536;

/// How many bytes the pool buffers may have together: 64 MiB.
const MOST_BYTES: u64 = 67_108_864;

const MOST_APPS: u32 = 8;

/// The buffers of a run, and how many applications it has.
#[derive(Debug, Drop)]
pub(crate) struct RunSetting {
    /// Each area with its number of pool buffers and their size in bytes.
    areas: Vec<(u32, u32)>,
    apps: u32,
}

impl Model for RunSetting {
    ghost use Rattle.zr_kinds.specs.Setting.{Setting, IsSetting};

    ghost Value = { Setting };

    ghost view = { λ s. record { areas = s.areas.items; apps = s.apps } };

    ghost invariant = { λ s. IsSetting (record { areas = s.areas.items; apps = s.apps }) };
}

impl RunSetting {
    /// The setting of a line, if it says one.
    pub(crate) fn of(alloc: Global, line: &[u8]) -> Result<Option<RunSetting>, AllocError>
        ensures { IfOk result (IsSettingOfLine line.now) }
    {
        let words = parts_of(alloc, b' ', line)?;
        let Some((areas, apps)) = numbers_of(alloc, &words)? else {
            return Ok(None);
        };
        if is_setting(&areas, apps) {
            Ok(Some(RunSetting { areas, apps }))
        } else {
            Ok(None)
        }
    }

    fn pool_buffers(&self) -> u32
        ensures value { result ≡ buffers_of_areas self.now.areas }
        ensures sound { IsSetting self.now }
    {
        pool_buffers(&self.areas)
    }

    /// How many buffers there are, reserves included.
    pub(crate) fn total_buffers(&self) -> u32
        ensures value { result ≡ total_buffers self.now }
        ensures sound { IsSetting self.now }
    {
        self.pool_buffers() + self.apps
    }

    pub(crate) fn is_app(&self, app: u32) -> bool
        ensures value { result ≡ is_app self.now app }
        ensures sound { IsSetting self.now }
    {
        app < self.apps
    }

    pub(crate) fn is_buffer(&self, buffer: u32) -> bool
        ensures value { result ≡ is_buffer self.now buffer }
        ensures sound { IsSetting self.now }
    {
        buffer < self.total_buffers()
    }

    pub(crate) fn is_pool_buffer(&self, buffer: u32) -> bool
        ensures { result ≡ is_pool_buffer self.now buffer }
    {
        buffer < self.pool_buffers()
    }

    pub(crate) fn is_reserve_of(&self, app: u32, buffer: u32) -> bool
        ensures { result ≡ is_reserve_of self.now app buffer }
    {
        u64::from(buffer) == u64::from(self.pool_buffers()) + u64::from(app)
    }

    /// Whether the buffer is there and has these bytes.
    pub(crate) fn is_within(&self, buffer: u32, offset: u32, len: u32) -> bool
        ensures value { result ≡ is_within self.now buffer offset len }
        ensures sound { IsSetting self.now }
    {
        let size = size_of_buffer(&self.areas, buffer);
        self.is_buffer(buffer) && u64::from(offset) + u64::from(len) <= u64::from(size)
    }
}

/// What the words of a first line say of areas and applications.
fn numbers_of(alloc: Global, words: &[&[u8]]) -> Result<Option<(Vec<(u32, u32)>, u32)>, AllocError>
    ensures { IfOk result (λ r. option_map (λ n. record { areas = n.0.items; apps = n.1 }) r
        ≡ setting_by (map (λ w. w.now) words.now)) }
{
    match words {
        [name, areas, apps] if is_word(name, "run") => numbers_from(alloc, areas, apps),
        _ => Ok(None),
    }
}

fn numbers_from(
    alloc: Global,
    areas: &[u8],
    apps: &[u8],
) -> Result<Option<(Vec<(u32, u32)>, u32)>, AllocError>
    ensures { IfOk result (λ r. option_map (λ n. record { areas = n.0.items; apps = n.1 }) r
        ≡ setting_from areas.now apps.now) }
{
    let Some(apps) = number_of(apps) else {
        return Ok(None);
    };
    let parts = parts_of(alloc, b',', areas)?;
    match all_areas(alloc, &parts)? {
        Some(areas) => Ok(Some((areas, apps))),
        None => Ok(None),
    }
}

/// The area of numbers that stand like `16:1024`.
fn area_by(numbers: &[&[u8]]) -> Option<(u32, u32)>
    ensures { result ≡ area_by (map (λ w. w.now) numbers.now) }
{
    match numbers {
        [buffers, size] => Some((number_of(buffers)?, number_of(size)?)),
        _ => None,
    }
}

fn area_of(alloc: Global, part: &[u8]) -> Result<Option<(u32, u32)>, AllocError>
    ensures { IfOk result (λ a. a ≡ area_in_line part.now) }
{
    let numbers = parts_of(alloc, b':', part)?;
    Ok(area_by(&numbers))
}

/// The numbers of all parts, where each is an area.
fn all_areas(alloc: Global, parts: &[&[u8]]) -> Result<Option<Vec<(u32, u32)>>, AllocError>
    ensures { IfOk result (λ r. option_map (λ areas. areas.items) r
        ≡ all_run_areas (map (λ w. w.now) parts.now)) }
{
    let mut areas = Vec::new(alloc);
    for part in parts {
        match area_of(alloc, part)? {
            Some(area) => areas.push(area)?,
            None => return Ok(None),
        }
    }
    Ok(Some(areas))
}

fn is_setting(areas: &[(u32, u32)], apps: u32) -> bool
    ensures { IsTrue result ↔ IsSetting (record { areas = areas.now; apps = apps }) }
{
    1 <= apps && apps <= MOST_APPS && are_areas(areas)
}

fn is_size(size: u32) -> bool
    ensures { IsTrue result ↔ IsSize size }
{
    (LEAST_SIZE..=MOST_SIZE).contains(&size) && size.is_power_of_two()
}

fn is_area(area: (u32, u32)) -> bool
    ensures { IsTrue result ↔ IsRunArea area }
{
    let (buffers, size) = area;
    1 <= buffers && buffers <= MOST_BUFFERS && is_size(size)
}

fn are_each(areas: &[(u32, u32)]) -> bool
    ensures { IsTrue result ↔ All IsRunArea areas.now }
{
    areas.iter().all(|area| is_area(*area))
}

fn are_areas(areas: &[(u32, u32)]) -> bool
    ensures { IsTrue result ↔ AreAreas areas.now }
{
    if areas.is_empty() || areas.len() > MOST_AREAS || !are_each(areas) {
        return false;
    }
    pool_buffers(areas) <= MOST_BUFFERS && pool_bytes(areas) <= MOST_BYTES
}

fn pool_buffers(areas: &[(u32, u32)]) -> u32
    requires few { length areas.now ≤ 4 }
    requires each { All IsRunArea areas.now }
    ensures { result ≡ buffers_of_areas areas.now }
{
    let mut total = 0;
    for area in areas {
        total += area.0;
    }
    total
}

fn pool_bytes(areas: &[(u32, u32)]) -> u64
    requires few { length areas.now ≤ 4 }
    requires each { All IsRunArea areas.now }
    ensures { result ≡ pool_bytes areas.now }
{
    let mut total = 0;
    for area in areas {
        total += u64::from(area.0) * u64::from(area.1);
    }
    total
}

/// The size of a buffer: that of its area, and of the first area behind the last.
fn size_of_buffer(areas: &[(u32, u32)], buffer: u32) -> u32
    ensures { result ≡ size_of_buffer areas.now buffer }
{
    let mut rest = buffer;
    for area in areas {
        if rest < area.0 {
            return area.1;
        }
        rest -= area.0;
    }
    match areas {
        [first, ..] => first.1,
        [] => 0,
    }
}
