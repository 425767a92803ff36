//! What a report says, its text, and its way to a sink.
ghost use Rattle.std.specs.Prelude.{◌≡◌, ◌≤◌, Some, Err, OnOk};
ghost use Rattle.top_call.specs.Report.{report_of, Reports, answer_of};

use crate::lines::{AppLines, CaptureLine, FlowLines, PoolLine, RefusedLines};
use std::alloc::Global;
use std::fmt;
use zr_io::{Failed, Sink};
use zr_kinds::{AppLine, Fault, FlowLine, PoolStats, Tally};

/// What a replay did. Shown by `Display` it is the report's text: the capture line, a line for each application and for
/// each flow, both numbered from 0, a line for each refused frame, the pool's line, and the status.
#[derive(Clone, Copy, Debug)]
pub struct Report<'a> {
    pub tally: &'a Tally,
    pub apps: &'a [AppLine],
    pub flows: &'a [FlowLine],
    /// The numbers of the frames that were refused, from 1, ascending.
    pub refused: &'a [u32],
    pub pool: &'a PoolStats,
    /// What the command answers if its report goes out.
    pub status: u8,
}

impl fmt::Display for Report<'_> {
    ghost output = { λ r. Some (report_of r.tally.now r.apps.now r.flows.now r.refused.now r.pool.now r.status) };

    fn fmt<W: fmt::Write>(&self, f: &mut fmt::Formatter<W>) -> fmt::Result {
        let capture = CaptureLine(self.tally);
        let apps = AppLines(self.apps);
        let flows = FlowLines(self.flows);
        let refused = RefusedLines(self.refused);
        let pool = PoolLine(self.pool);
        let status = self.status;
        write!(f, "{capture}{apps}{flows}{refused}{pool}")?;
        writeln!(f, "status {status}")
    }
}

/// Why a report didn't go out whole.
#[derive(Clone, Copy, Debug, PartialEq, Eq)]
pub enum Unreported {
    /// There was no memory for its text, and nothing went out.
    Memory,
    /// The sink failed, and a front of it may have gone out.
    Write,
}

/// Writes the report to `out` in one piece. Its whole text is made before, so that nothing goes out for want of memory.
pub fn write_report<O: Sink>(
    alloc: Global,
    report: &Report<'_>,
    out: &mut O,
) -> Result<(), Unreported>
    ensures gained { let r = report.now in
        let text = report_of r.tally.now r.apps.now r.flows.now r.refused.now r.pool.now r.status in
        Reports (O.sent out.old) (O.sent out.new) (O.faults out.old)
        (O.faults out.new) text result }
    ensures later { O.faults out.old ≤ O.faults out.new }
    ensures still { OnOk result (O.faults out.new ≡ O.faults out.old) }
    ensures untouched { result ≡ Err Unreported.Memory → out.new ≡ out.old }
{
    let Ok(text) = format!(in alloc; "{report}") else {
        return Err(Unreported::Memory);
    };
    match out.write_all(text.as_bytes()) {
        Ok(()) => Ok(()),
        Err(Failed) => Err(Unreported::Write),
    }
}

/// The answer of a command whose report went out, or didn't. Want of memory comes before all else.
pub fn answer(status: u8, reported: Result<(), Unreported>) -> u8
    ensures { result ≡ answer_of status reported }
{
    match reported {
        Ok(()) => status,
        Err(_) if status == Fault::Memory.number() => status,
        Err(Unreported::Memory) => Fault::Memory.number(),
        Err(Unreported::Write) => Fault::Write.number(),
    }
}
