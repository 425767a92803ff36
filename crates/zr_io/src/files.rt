//! The files of the flows, of which so many stay open.

use crate::shelf::Lost;
use lru::LruCache;
use std::alloc::AllocError;
use std::fs::OpenOptions;
use std::io::{self, BufWriter, ErrorKind, Write};
use std::num::NonZeroUsize;
use std::rt::Files;
use zr_kinds::MOST_FLOWS;

/// The flows that have a file of this run, and the files that are open.
#[derive(Drop)]
pub(crate) struct FlowFiles<F: Write + Drop> {
    /// A bit for each flow that there may be.
    made: Vec<u8>,
    open: LruCache<u32, BufWriter<F>>,
    /// No more files than this are open at a time.
    most: usize,
    /// How many bytes of an open file are gathered before they are written.
    gathered: usize,
}

impl<F: Write + Drop> FlowFiles<F> {
    /// No flow has a file. At most `most` files are open at a time, or one, and each gathers so many bytes.
    pub(crate) fn new<R: Files<File = F> + AllocGlobal>(
        rt: &R,
        most: usize,
        gathered: usize,
    ) -> Result<FlowFiles<F>, AllocError> {
        let most = NonZeroUsize::new(most).unwrap_or(NonZeroUsize::MIN);
        Ok(FlowFiles {
            made: vec![in rt.alloc(); 0u8; MOST_FLOWS as usize / 8 + 1]?,
            open: LruCache::new(rt.alloc(), most)?,
            most: most.get(),
            gathered,
        })
    }

    /// Adds a piece to a flow's file, which is among the open ones from then on. Where the flow has none that is open and as many
    /// are open as may be, the one that was used longest ago is closed before. `true` says that the file was made.
    pub(crate) fn add<R: Files<File = F> + AllocGlobal>(
        &mut self,
        rt: &R,
        flow: u32,
        piece: &[u8],
    ) -> Result<bool, Lost> {
        if let Some(file) = self.open.get_mut(&flow) {
            return match file.write_all(piece) {
                Ok(()) => Ok(false),
                Err(error) => Err(Lost { flow, error }),
            };
        }
        if self.open.len() >= self.most {
            self.close_oldest()?;
        }
        self.begin(rt, flow, piece)
            .map_err(|error| Lost { flow, error })
    }

    /// Writes what is gathered of all open files, and closes them. Of those at which that fails the first is told.
    pub(crate) fn close_all(&mut self) -> Result<(), Lost> {
        let mut all = Ok(());
        for _ in 0..self.open.len() {
            all = all.and(self.close_oldest());
        }
        all
    }

    /// Closes the file that was used longest ago, if one is open. What is gathered of it is written before.
    fn close_oldest(&mut self) -> Result<(), Lost> {
        match self.open.pop_lru() {
            Some((flow, mut file)) => file.flush().map_err(|error| Lost { flow, error }),
            None => Ok(()),
        }
    }

    /// Opens a flow's file, and adds a piece to it. `true` says that it was made.
    fn begin<R: Files<File = F> + AllocGlobal>(
        &mut self,
        rt: &R,
        flow: u32,
        piece: &[u8],
    ) -> io::Result<bool> {
        let (file, made) = self.open_flow(rt, flow)?;
        let mut file = BufWriter::with_capacity(rt.alloc(), self.gathered, file)?;
        file.write_all(piece)?;
        match self.open.put(flow, file) {
            Ok(_) => Ok(made),
            Err(_) => Err(ErrorKind::OutOfMemory.into()),
        }
    }

    /// Opens a flow's file at its end, or makes it anew where the flow has none yet. `true` says that it was made.
    fn open_flow<R: Files<File = F> + AllocGlobal>(
        &mut self,
        rt: &R,
        flow: u32,
    ) -> io::Result<(F, bool)> {
        let byte = match self.made.get_mut(flow as usize / 8) {
            Some(byte) if flow < MOST_FLOWS => byte,
            _ => return Err(ErrorKind::InvalidInput.into()),
        };
        let bit = 1u8 << (flow % 8);
        let made = *byte & bit == 0;
        let mut options = OpenOptions::new();
        if made {
            options.write(true).create(true).truncate(true);
        } else {
            options.append(true);
        }
        let name = format!(in rt.alloc(); "flow-{flow}.bin")?;
        let file = options.open(rt, name.as_str())?;
        *byte |= bit;
        Ok((file, made))
    }
}
