//! What an application leaves, by whatever it took its turns.

ghost use Rattle.std.specs.Prelude.{◌≡◌};
ghost use Rattle.flow_queues.specs.Ends.{AppEnd, bytes_written_of};
ghost use Rattle.app_worker.specs.StateOf.{end_of};
ghost use Rattle.zc_poll.specs.PourTurns.{pour_end};
ghost use Rattle.run_account.specs.Ran.{app_line_of};

use crate::Worker;
use zc_poll::Poured;
use zr_kinds::AppLine;

/// What is told of an application that has left.
pub trait Leaves {
    /// It, as plain data.
    ghost end: { Self → AppEnd };

    /// The line of the application, which has this port.
    fn line(&self, port: u16) -> AppLine
        ensures { result ≡ app_line_of port (end self.now) };

    /// How many bytes of the flow with this number were written.
    fn flow_bytes(&self, flow: u32) -> u64
        ensures { result ≡ bytes_written_of flow (end self.now).flows };
}

impl Leaves for Worker {
    ghost end = { λ worker. end_of worker.state };

    fn line(&self, port: u16) -> AppLine {
        AppLine {
            port,
            written: self.state.written(),
            loans: self.state.loans(),
            copied: self.state.copied(),
            stopped: self.state.stopped(),
        }
    }

    fn flow_bytes(&self, flow: u32) -> u64 {
        self.state.flow_bytes(flow)
    }
}

impl Leaves for Poured {
    ghost end = { pour_end };

    fn line(&self, port: u16) -> AppLine {
        AppLine {
            port,
            written: self.written,
            loans: self.loans,
            copied: self.copied,
            stopped: self.stopped,
        }
    }

    fn flow_bytes(&self, flow: u32) -> u64 {
        for (number, bytes) in &self.flows {
            if *number == flow {
                return *bytes;
            }
        }
        0
    }
}
