//! What is told of the rows.
use std::alloc::Global;
use std::test::Fail;

/// The lines that tell what differs, and how many rows there were.
#[derive(Drop)]
pub struct Told {
    alloc: Global,
    pub lines: Vec<String>,
    /// How many lines there were before the row at hand.
    before: usize,
    pub rows: u32,
    pub differ: u32,
}

impl Told {
    pub fn new(alloc: Global) -> Told {
        Told {
            alloc,
            lines: Vec::new(alloc),
            before: 0,
            rows: 0,
            differ: 0,
        }
    }

    /// Something differs in this row.
    pub fn add(&mut self, name: &str, what: &str, wanted: &str, came: &str) -> Result<(), Fail> {
        let line = format!(in self.alloc; "{name}: {what}: wanted {wanted}, came {came}")?;
        self.lines.push(line)?;
        Ok(())
    }

    /// Two numbers of this row have to be the same.
    pub fn number(&mut self, name: &str, what: &str, wanted: u64, came: u64) -> Result<(), Fail> {
        if wanted == came {
            return Ok(());
        }
        let wanted = format!(in self.alloc; "{wanted}")?;
        let came = format!(in self.alloc; "{came}")?;
        self.add(name, what, &wanted, &came)
    }

    /// A row begins.
    pub fn begin(&mut self) {
        self.before = self.lines.len();
    }

    /// It ends.
    pub fn end(&mut self) {
        self.rows = self.rows.saturating_add(1);
        if self.lines.len() > self.before {
            self.differ = self.differ.saturating_add(1);
        }
    }
}
