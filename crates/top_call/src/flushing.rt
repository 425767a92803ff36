//! The flush of the shelves, once all roles have left.

ghost use Rattle.std.specs.{Prelude.{◌≡◌, ℕ, ◌≤◌, length}, Io.KnownBytes.{Keeps}};
ghost use Rattle.run_account.specs.Views.{shelf_seen};
ghost use Rattle.top_call.specs.Flushing.{Flushes, HasFlushed};

use zr_io::{Failed, Shelf};
use zr_kinds::{AppLine, Stopped};

/// Flushes the shelf of an application. Where that fails its line says so, unless something stopped the application before. `true`
/// says that it failed.
fn flush_shelf<T: Shelf>(shelf: &mut T, line: &mut AppLine) -> bool
    ensures keeps { (flow : ℕ) → Keeps (T.kept shelf.old flow) (T.kept shelf.new flow) }
    ensures later { (T.counts shelf.old).faults ≤ (T.counts shelf.new).faults }
    ensures flushed { HasFlushed (T.counts shelf.old).faults (T.counts shelf.new).faults line.old
        line.new result }
    ensures appended { (T.counts shelf.new).appended ≡ (T.counts shelf.old).appended }
{
    match shelf.flush() {
        Ok(()) => false,
        Err(Failed) => {
            if matches!(line.stopped, Stopped::No) {
                line.stopped = Stopped::Write;
            }
            true
        }
    }
}

/// Flushes the shelf of each application once, also behind one at which that fails, and amends their lines. `true` says that it
/// failed at one.
pub(crate) fn flush_shelves<T: Shelf>(shelves: &mut [T], lines: &mut [AppLine]) -> bool
    requires { length lines.old ≤ length shelves.old }
    ensures { Flushes (shelf_seen T.kept T.counts) (length lines.old) shelves.old shelves.new
        lines.old lines.new result }
{
    let mut lost = false;
    for app in 0..lines.len() {
        lost |= flush_shelf(&mut shelves[app], &mut lines[app]);
    }
    lost
}
