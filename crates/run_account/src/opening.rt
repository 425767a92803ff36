//! How a run begins.

ghost use Rattle.std.specs.Prelude.{◌<◌, length, IfOk};
ghost use Rattle.card_feed.specs.Plan.{IsPlan};
ghost use Rattle.run_account.specs.Running.{AreNew, IsNewWorker};

use crate::Worker;
use app_worker::AppState;
use card_feed::Plan;
use std::alloc::{AllocError, Global};

/// The application of a plan with this number, which has taken no turn.
pub fn new_worker(alloc: Global, plan: &Plan, app: u32) -> Result<Worker, AllocError>
    requires plan { IsPlan plan.now }
    requires app { app < length plan.now.ports.items }
    ensures { IfOk result (IsNewWorker plan.now app) }
{
    let state = AppState::new(alloc, app, plan.options.ring, plan.options.how)?;
    Ok(Worker { state, left: false })
}

/// The applications of a plan, which have taken no turn, in the order of the ports.
pub fn new_workers(alloc: Global, plan: &Plan) -> Result<Vec<Worker>, AllocError>
    requires { IsPlan plan.now }
    ensures { IfOk result (λ workers. AreNew plan.now workers.items) }
{
    let apps = plan.ports.len() as u32;
    let mut workers = Vec::with_capacity(alloc, plan.ports.len())?;
    for app in 0..apps {
        let worker = new_worker(alloc, plan, app)?;
        workers.push(worker)?;
    }
    Ok(workers)
}
