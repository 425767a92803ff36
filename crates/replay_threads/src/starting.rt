//! What the applications of a plan begin with.
ghost use Rattle.std.specs.Prelude.{◌<◌, length, IfOk};
ghost use Rattle.card_feed.specs.Plan.{IsPlan};
ghost use Rattle.replay_threads.specs.Seated.{AreStarts, IsStart};

use crate::seated::Start;
use card_feed::Plan;
use run_account::new_worker;
use std::alloc::{AllocError, Global};

/// What the application with this number begins with.
fn new_start(alloc: Global, plan: &Plan, app: u32) -> Result<Start, AllocError>
    requires plan { IsPlan plan.now }
    requires app { app < length plan.now.ports.items }
    ensures { IfOk result (IsStart plan.now app) }
{
    if plan.options.polled {
        return Ok(Start::Pouring);
    }
    if let Some(delay) = plan.options.forward {
        return Ok(Start::Forwarding(delay));
    }
    Ok(Start::Turning(new_worker(alloc, plan, app)?))
}

/// What each application begins with, in the order of the ports.
pub fn new_starts(alloc: Global, plan: &Plan) -> Result<Vec<Start>, AllocError>
    requires { IsPlan plan.now }
    ensures { IfOk result (λ starts. AreStarts plan.now starts.items) }
{
    let apps = plan.ports.len() as u32;
    let mut starts = Vec::with_capacity(alloc, plan.ports.len())?;
    for app in 0..apps {
        let start = new_start(alloc, plan, app)?;
        starts.push(start)?;
    }
    Ok(starts)
}
