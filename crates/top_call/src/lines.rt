//! The lines of a report.
ghost use Rattle.std.specs.{Prelude.{◌≡◌, Some}, List.{flat_map}};
ghost use Rattle.top_call.specs.Report.{app_line, capture_line, end_word, flow_line, numbered_lines, pool_line, refused_line, stopped_word};

use std::fmt;
use zr_kinds::{AppLine, FlowEnd, FlowLine, PoolStats, Stopped, Tally};

/// How many records there were, in all and of each class.
#[derive(Clone, Copy)]
pub(crate) struct CaptureLine<'a>(pub(crate) &'a Tally);

impl fmt::Display for CaptureLine<'_> {
    ghost output = { λ line. Some (capture_line line.0.now) };

    fn fmt<W: fmt::Write>(&self, f: &mut fmt::Formatter<W>) -> fmt::Result {
        let Tally {
            records,
            tcp,
            steered,
            other,
            fragment,
            cut,
            bad,
        } = *self.0;
        write!(f, "capture records {records} tcp {tcp} steered {steered}")?;
        writeln!(f, " other {other} fragment {fragment} cut {cut} bad {bad}")
    }
}

/// What the application with this number did.
#[derive(Clone, Copy)]
pub(crate) struct NumberedApp<'a> {
    pub(crate) number: usize,
    pub(crate) app: &'a AppLine,
}

impl fmt::Display for NumberedApp<'_> {
    ghost output = { λ line. Some (app_line line.number line.app.now) };

    fn fmt<W: fmt::Write>(&self, f: &mut fmt::Formatter<W>) -> fmt::Result {
        let number = self.number;
        let AppLine {
            port,
            written,
            loans,
            copied,
            stopped,
        } = *self.app;
        let stopped = stopped_name(stopped);
        write!(f, "app {number} port {port} written {written}")?;
        writeln!(f, " loans {loans} copied {copied} stopped {stopped}")
    }
}

/// What was done for the flow with this number.
#[derive(Clone, Copy)]
pub(crate) struct NumberedFlow<'a> {
    pub(crate) number: usize,
    pub(crate) flow: &'a FlowLine,
}

impl fmt::Display for NumberedFlow<'_> {
    ghost output = { λ line. Some (flow_line line.number line.flow.now) };

    fn fmt<W: fmt::Write>(&self, f: &mut fmt::Formatter<W>) -> fmt::Result {
        let number = self.number;
        let FlowLine {
            port,
            base,
            bytes,
            fin,
            end,
        } = *self.flow;
        let fin = if fin { "yes" } else { "no" };
        let end = end_name(end);
        write!(f, "flow {number} port {port} base {base} bytes {bytes}")?;
        writeln!(f, " fin {fin} end {end}")
    }
}

/// A line for each application.
#[derive(Clone, Copy)]
pub(crate) struct AppLines<'a>(pub(crate) &'a [AppLine]);

impl fmt::Display for AppLines<'_> {
    ghost output = { λ lines. Some (numbered_lines app_line lines.0.now) };

    fn fmt<W: fmt::Write>(&self, f: &mut fmt::Formatter<W>) -> fmt::Result {
        for (number, app) in self.0.iter().enumerate() {
            let line = NumberedApp { number, app };
            write!(f, "{line}")?;
        }
        Ok(())
    }
}

/// A line for each flow.
#[derive(Clone, Copy)]
pub(crate) struct FlowLines<'a>(pub(crate) &'a [FlowLine]);

impl fmt::Display for FlowLines<'_> {
    ghost output = { λ lines. Some (numbered_lines flow_line lines.0.now) };

    fn fmt<W: fmt::Write>(&self, f: &mut fmt::Formatter<W>) -> fmt::Result {
        for (number, flow) in self.0.iter().enumerate() {
            let line = NumberedFlow { number, flow };
            write!(f, "{line}")?;
        }
        Ok(())
    }
}

/// That the frame with this number was refused.
#[derive(Clone, Copy)]
pub(crate) struct RefusedLine(pub(crate) u32);

impl fmt::Display for RefusedLine {
    ghost output = { λ line. Some (refused_line line.0) };

    fn fmt<W: fmt::Write>(&self, f: &mut fmt::Formatter<W>) -> fmt::Result {
        let frame = self.0;
        writeln!(f, "refused {frame}")
    }
}

/// A line for each frame that was refused.
#[derive(Clone, Copy)]
pub(crate) struct RefusedLines<'a>(pub(crate) &'a [u32]);

impl fmt::Display for RefusedLines<'_> {
    ghost output = { λ lines. Some (flat_map refused_line lines.0.now) };

    fn fmt<W: fmt::Write>(&self, f: &mut fmt::Formatter<W>) -> fmt::Result {
        for frame in self.0 {
            let line = RefusedLine(*frame);
            write!(f, "{line}")?;
        }
        Ok(())
    }
}

/// How the pool's searches for fresh buffers ended, and how many refill entries gave nothing back.
#[derive(Clone, Copy)]
pub(crate) struct PoolLine<'a>(pub(crate) &'a PoolStats);

impl fmt::Display for PoolLine<'_> {
    ghost output = { λ line. Some (pool_line line.0.now) };

    fn fmt<W: fmt::Write>(&self, f: &mut fmt::Formatter<W>) -> fmt::Result {
        let PoolStats {
            fast,
            refill,
            slow,
            empty,
            strays,
        } = *self.0;
        write!(f, "pool fast {fast} refill {refill} slow {slow}")?;
        writeln!(f, " empty {empty} strays {strays}")
    }
}

/// How a report calls what stopped an application.
fn stopped_name(stopped: Stopped) -> &'static str
    ensures { result.now ≡ stopped_word stopped }
{
    match stopped {
        Stopped::No => "no",
        Stopped::Quit => "quit",
        Stopped::Write => "write",
        Stopped::Memory => "memory",
    }
}

/// How a report calls the end of a flow.
fn end_name(end: FlowEnd) -> &'static str
    ensures { result.now ≡ end_word end }
{
    match end {
        FlowEnd::Going => "open",
        FlowEnd::Whole => "whole",
        FlowEnd::Short => "short",
        FlowEnd::Reset => "reset",
    }
}
