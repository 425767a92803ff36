//! What is told of a run that is over.

ghost use Rattle.std.specs.Prelude.{◌≡◌, ◌≤◌, length, map, true, IfOk};
ghost use Rattle.run_account.specs.Ran.{app_lines_of, AreCounts, TellsOfEnds};

use crate::Leaves;
use card_feed::{Feed, Outcome};
use std::alloc::{AllocError, Global};
use zr_kinds::AppLine;

/// The lines of the applications, in the order of the ports.
fn app_lines<E: Leaves>(
    alloc: Global,
    ports: &[u16],
    ends: &[E],
) -> Result<Vec<AppLine>, AllocError>
    requires { length ends.now ≡ length ports.now }
    ensures { IfOk result (λ lines. lines.items ≡ app_lines_of ports.now (map E.end ends.now)) }
{
    let mut lines = Vec::with_capacity(alloc, ends.len())?;
    for (app, port) in ports.iter().enumerate() {
        lines.push(ends[app].line(*port))?;
    }
    Ok(lines)
}

/// How many bytes of each flow were written.
fn bytes_of_flows<E: Leaves>(alloc: Global, feed: &Feed, ends: &[E]) -> Result<Vec<u64>, AllocError>
    requires { length feed.now.ports ≤ length ends.now }
    ensures { IfOk result (λ counts. AreCounts feed.now.flows (map E.end ends.now) counts.items) }
{
    let mut bytes = Vec::with_capacity(alloc, feed.flows() as usize)?;
    for flow in 0..feed.flows() {
        let app = feed.flow_app(flow);
        bytes.push(ends[app as usize].flow_bytes(flow))?;
    }
    Ok(bytes)
}

/// Puts the outcome of a run together, by what the card keeps once it was closed, and what the applications have left with, in the
/// order of the ports.
pub fn tell<E: Leaves>(
    alloc: Global,
    feed: Feed,
    ends: &[E],
    ports: &[u16],
) -> Result<Outcome, AllocError>
    requires closed { feed.closed ≡ true }
    requires ports { feed.ports ≡ ports.now }
    requires many { length ends.now ≡ length ports.now }
    ensures { IfOk result (TellsOfEnds feed (map E.end ends.now) ports.now) }
{
    let apps = app_lines(alloc, ports, ends)?;
    let bytes = bytes_of_flows(alloc, &feed, ends)?;
    feed.outcome(alloc, apps, bytes)
}
