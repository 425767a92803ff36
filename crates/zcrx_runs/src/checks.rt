//! What a call has to leave. What differs is told by an error, with the name of the case.
use run_driver::{FLOWS, Left};
use std::alloc::Global;
use std::test::Fail;
use zr_io::MemShelf;

/// So many bytes of a stream, from a position on: byte `i` of the stream is `i` modulo 251.
pub fn bytes_from(alloc: Global, position: usize, count: usize) -> Result<Vec<u8>, Fail> {
    let mut bytes = Vec::with_capacity(alloc, count)?;
    for place in 0..count {
        bytes.push(u8::try_from(position.saturating_add(place) % 251)?)?;
    }
    Ok(bytes)
}

/// The stream of a flow, on the shelf of its application.
#[derive(Clone, Copy)]
pub struct Stream<'a> {
    pub app: usize,
    pub flow: u32,
    pub bytes: &'a [u8],
}

/// Flow 0 goes to application 0, flow 1 to application 1 and so on, and these are their streams.
pub fn one_for_each(alloc: Global, all: &[Vec<u8>]) -> Result<Vec<Stream<'_>>, Fail> {
    let mut streams = Vec::new(alloc);
    for (app, bytes) in all.iter().enumerate() {
        let flow = u32::try_from(app)?;
        streams.push(Stream { app, flow, bytes })?;
    }
    Ok(streams)
}

/// What a flow has to be on a shelf.
fn wanted<'a>(streams: &[Stream<'a>], app: usize, flow: u32) -> &'a [u8] {
    for stream in streams {
        if stream.app == app && stream.flow == flow {
            return stream.bytes;
        }
    }
    &[]
}

/// Every shelf has the streams of its application, and nothing else.
fn check_shelves(name: &str, streams: &[Stream<'_>], shelves: &[MemShelf]) -> Result<(), Fail> {
    for (app, shelf) in shelves.iter().enumerate() {
        for flow in 0..FLOWS {
            if shelf.flow(flow) != wanted(streams, app, flow) {
                return Err(Fail::new(format_args!("{name}: flow {flow} of shelf {app}")));
            }
        }
    }
    Ok(())
}

/// Each of the pool's buffers is free once.
pub fn check_free(
    alloc: Global,
    name: &str,
    free: Option<Vec<u32>>,
    buffers: u32,
) -> Result<(), Fail> {
    let mut free = free.ok_or("no board")?;
    free.sort()?;
    let all: Vec<u32> = (0..buffers).collect(alloc)?;
    if free.as_slice() != all.as_slice() {
        return Err(Fail::new(format_args!("{name}: not each buffer is free once")));
    }
    Ok(())
}

/// Two numbers have to be the same.
pub fn check_number(name: &str, wanted: u64, came: u64) -> Result<(), Fail> {
    if came != wanted {
        return Err(Fail::new(format_args!("{name}: {came} in place of {wanted}")));
    }
    Ok(())
}

/// What went out has to be this text.
pub fn check_text(name: &str, wanted: &str, came: &str) -> Result<(), Fail> {
    if came != wanted {
        return Err(Fail::new(format_args!("{name}: {came}")));
    }
    Ok(())
}

/// A run ends by this status with these streams, and with each of so many buffers free once.
pub fn check_left(
    alloc: Global,
    name: &str,
    streams: &[Stream<'_>],
    buffers: u32,
    left: Left,
) -> Result<(), Fail> {
    check_number(name, 0, u64::from(left.status))?;
    check_shelves(name, streams, &left.shelves)?;
    check_free(alloc, name, left.free, buffers)
}

/// The words of a line.
pub fn words_of(alloc: Global, line: &str) -> Result<Vec<&str>, Fail> {
    Ok(line.split(' ').collect(alloc)?)
}
