//! The holders of a run's buffers.
ghost use Rattle.std.specs.Prelude.{◌≡◌, ◌<◌, ◌+◌, ◌^◌, ℕ, [], IfOk, length, IsTrue, ◌↔◌};
ghost use Rattle.zr_kinds.specs.{Setting.{IsSetting, total_buffers}, Holders.{buffer_of_event, changed, has_counts, is_in_range}};
ghost use Rattle.run_check.specs.{Holding.{Changes, HasChanged, HasSmallApp, holdings_of}, Unfit.{user_count_told}};
ghost use Rattle.run_check.specs.declared.unfit.Lack.TheVariants as lack;

use crate::buffer::Buffer;
use crate::places::Hand;
use crate::setting::RunSetting;
use crate::unfit::Lack;
use std::alloc::{AllocError, Global};
use zr_kinds::Event;

/// The holders of each buffer.
#[derive(Drop)]
pub(crate) struct Holders {
    buffers: Vec<Buffer>,
}

impl Holders {
    /// So many buffers without a holder.
    pub(crate) fn new(alloc: Global, total: u32) -> Result<Holders, AllocError>
        ensures none { IfOk result (λ h. (buffer : ℕ) → holdings_of h.buffers.items buffer ≡ []) }
        ensures count { IfOk result (λ h. length h.buffers.items ≡ total) }
    {
        let mut buffers = Vec::with_capacity(alloc, total as usize)?;
        for _ in 0..total {
            buffers.push(Buffer::new(alloc))?;
        }
        Ok(Holders { buffers })
    }

    /// Whether no buffer has a holder.
    pub(crate) fn are_none(&self) -> bool
        ensures { IsTrue result ↔ ((buffer : ℕ) → holdings_of self.now.buffers.items buffer ≡ []) }
    {
        self.buffers.iter().all(|buffer| buffer.is_empty())
    }

    /// Changes the holders as the event does. `Some`: this it lacks, and the holders are any.
    pub(crate) fn change(
        &mut self,
        setting: &RunSetting,
        event: Event,
    ) -> Result<Option<Lack>, AllocError>
        requires total { length self.old.buffers.items ≡ total_buffers setting.now }
        requires few { (buffer : ℕ) →
            length (holdings_of self.old.buffers.items buffer) + 1 < 2 ^ 32 }
        ensures changes { IfOk result
            (HasChanged setting.now (holdings_of self.old.buffers.items) event
            (holdings_of self.new.buffers.items)) }
        ensures count { IfOk result
            (λ _. length self.new.buffers.items ≡ total_buffers setting.now) }
    {
        if !is_in_range(setting, event) {
            return Ok(Some(Lack::Range));
        }
        let Some(buffer) = buffer_of(event) else {
            return Ok(None);
        };
        let held = &mut self.buffers[buffer as usize];
        if !change(setting, held, event)? {
            return Ok(Some(Lack::Holders));
        }
        if has_counts(held, event) {
            Ok(None)
        } else {
            Ok(Some(counts_of(held, event)))
        }
    }
}

/// The buffer whose holders the event changes.
fn buffer_of(event: Event) -> Option<u32>
    ensures { result ≡ buffer_of_event event }
{
    match event {
        Event::Take { buffer, .. }
        | Event::Place { buffer, .. }
        | Event::Sent { buffer, .. }
        | Event::Held { buffer, .. }
        | Event::Cut { buffer, .. }
        | Event::Lend { buffer, .. }
        | Event::Back { buffer, .. }
        | Event::Honour { buffer, .. }
        | Event::Free { buffer, .. }
        | Event::Spare { buffer, .. }
        | Event::Own { buffer, .. }
        | Event::Shut { buffer, .. }
        | Event::Scrub { buffer, .. } => Some(buffer),
        Event::Stray { .. } => None,
    }
}

fn is_in_range(setting: &RunSetting, event: Event) -> bool
    ensures value { result ≡ is_in_range setting.now event }
    ensures sound { IsSetting setting.now }
{
    let (offset, len) = event.bytes();
    match event {
        Event::Take { buffer, .. } | Event::Shut { buffer, .. } => setting.is_buffer(buffer),
        Event::Place { buffer, .. } => setting.is_within(buffer, offset, len),
        Event::Sent { app, buffer, .. }
        | Event::Held { app, buffer, .. }
        | Event::Cut { app, buffer, .. }
        | Event::Lend { app, buffer, .. }
        | Event::Back { app, buffer, .. }
        | Event::Free { app, buffer, .. }
        | Event::Own { app, buffer, .. } => {
            setting.is_app(app) && setting.is_within(buffer, offset, len)
        }
        Event::Honour { app, buffer, .. }
        | Event::Spare { app, buffer, .. }
        | Event::Scrub { app, buffer, .. } => setting.is_app(app) && setting.is_buffer(buffer),
        Event::Stray { app } => setting.is_app(app),
    }
}

/// Changes the holders of the event's buffer. `false`: they aren't what it needs, and are as before.
fn change(setting: &RunSetting, held: &mut Buffer, event: Event) -> Result<bool, AllocError>
    requires sound { IsSetting setting.now }
    requires ranged { IsTrue (is_in_range setting.now event) }
    requires few { length held.old + 1 < 2 ^ 32 }
    ensures { IfOk result (Changes (changed setting.now held.old event) held.new) }
{
    let (offset, len) = event.bytes();
    match event {
        Event::Take { buffer, .. } => Ok(held.take(setting.is_pool_buffer(buffer))),
        Event::Place { .. } => held.place(offset, len),
        Event::Sent { app, .. } => held.pass(offset, len, Hand::Card, Hand::Sent(app)),
        Event::Held { app, .. } => held.pass(offset, len, Hand::Sent(app), Hand::App(app)),
        Event::Cut { app, at, .. } => held.cut(app, offset, len, at),
        Event::Lend { app, .. } => held.lend(app, offset, len),
        Event::Back { app, .. } => Ok(held.back(app, offset, len)),
        Event::Honour { app, .. } => Ok(held.honour(app)),
        Event::Stray { .. } => Ok(true),
        Event::Free { app, .. } => Ok(held.free(app, offset, len)),
        Event::Spare { app, buffer, .. } => {
            let may = setting.is_pool_buffer(buffer) || setting.is_reserve_of(app, buffer);
            Ok(held.spare(may, app))
        }
        Event::Own { app, len, .. } => held.own(app, len),
        Event::Shut { .. } => Ok(held.shut()),
        Event::Scrub { app, .. } => Ok(held.scrub(app)),
    }
}

/// Whether the counts that the event says are those of its buffer's holders.
fn has_counts(held: &Buffer, event: Event) -> bool
    requires { HasSmallApp event }
    ensures { result ≡ has_counts held.now event }
{
    match event {
        Event::Take { pool, .. }
        | Event::Place { pool, .. }
        | Event::Cut { pool, .. }
        | Event::Free { pool, .. }
        | Event::Spare { pool, .. }
        | Event::Shut { pool, .. } => held.is_pool_count(pool),
        Event::Lend {
            app,
            pool,
            user,
            ..
        }
        | Event::Honour {
            app,
            pool,
            user,
            ..
        }
        | Event::Own {
            app,
            pool,
            user,
            ..
        }
        | Event::Scrub {
            app,
            pool,
            user,
            ..
        } => held.are_counts(app, pool, user),
        Event::Back { app, user, .. } => held.is_user_count(app, user),
        Event::Sent { .. } | Event::Held { .. } | Event::Stray { .. } => true,
    }
}

/// The user count of the event's application, where the event says one.
fn user_count(held: &Buffer, event: Event) -> u32
    requires { HasSmallApp event }
    ensures { result ≡ user_count_told held.now event }
{
    match event {
        Event::Lend { app, .. }
        | Event::Back { app, .. }
        | Event::Honour { app, .. }
        | Event::Own { app, .. }
        | Event::Scrub { app, .. } => held.user_count(app),
        Event::Take { .. }
        | Event::Place { .. }
        | Event::Sent { .. }
        | Event::Held { .. }
        | Event::Cut { .. }
        | Event::Stray { .. }
        | Event::Free { .. }
        | Event::Spare { .. }
        | Event::Shut { .. } => 0,
    }
}

/// The counts that the event should have said.
fn counts_of(held: &Buffer, event: Event) -> Lack
    requires { HasSmallApp event }
    ensures { result ≡ lack.Counts (length held.now) (user_count_told held.now event) }
{
    Lack::Counts {
        pool: held.pool_count(),
        user: user_count(held, event),
    }
}
