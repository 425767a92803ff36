//! The descriptors of the standard streams.

use std::fs::File;
use std::io;
use std::os::fd::AsRawFd;
use std::rt::Files;

/// How many standard streams there are. Input has descriptor 0, output 1, errors 2.
const STANDARD: usize = 3;

/// No more files than this are open at a time, however many may be.
const MOST_FILES: usize = 512;

/// Opens what stands in for a closed stream: opened for reading alone it can't be written to, and a folder can't be
/// read. Where the root may not be opened the current folder does as well.
fn open_stand_in<R: Files<File = File>>(rt: &R) -> io::Result<File> {
    match File::open(rt, "/") {
        Ok(root) => Ok(root),
        Err(_) => File::open(rt, "."),
    }
}

/// Takes the descriptors of the standard streams that were closed when the program began, so that no file which is
/// opened later gets one of them: what goes to the stream would go into that file. To read or write such a stream fails.
///
/// The system gives the lowest descriptor that is free (POSIX, open). They are free again when the result is dropped.
pub fn hold_closed_streams<R: Files<File = File> + AllocGlobal>(rt: &R) -> io::Result<Vec<File>> {
    let mut held = Vec::with_capacity(rt.alloc(), STANDARD)?;
    for _ in 0..STANDARD {
        let stand_in = open_stand_in(rt)?;
        if stand_in.as_raw_fd() >= STANDARD as i32 {
            break;
        }
        held.push(stand_in)?;
    }
    Ok(held)
}

/// How many files may be opened, up to 512: so many are, and closed again. What the system lets other programs open meanwhile
/// plays a part only where its own table of files is full.
pub fn spare_files<R: Files<File = File> + AllocGlobal>(rt: &R) -> usize {
    let mut open = Vec::new(rt.alloc());
    for _ in 0..MOST_FILES {
        let Ok(file) = open_stand_in(rt) else {
            break;
        };
        if open.push(file).is_err() {
            break;
        }
    }
    open.len()
}
