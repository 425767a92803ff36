use crate::calls::{expect_appends, expect_bytes};
use std::process::Abort;
use std::rt::Files;
use std::sync::atomic::{AtomicU64, Ordering};
use std::test::*;
use std::{fs, io};
use zr_io::{Failed, FileShelf, Shelf};

/// Writes to flow 7, then to so many others that its file is closed, and to flow 7 again.
fn write_hello<S: Shelf>(shelf: &mut S) -> Result<(), Failed> {
    shelf.append(7, b"he")?;
    shelf.append(7, b"ll")?;
    for flow in 100..164 {
        shelf.append(flow, b"x")?;
    }
    shelf.append(7, b"o")
}

/// The file of the flow has these bytes.
fn expect_file(
    rt: &(impl Abort + AllocGlobal + Files),
    flow: u32,
    wanted: &[u8],
) -> Result<(), Fail> {
    let name = format!(in rt.alloc(); "flow-{flow}.bin")?;
    let bytes = fs::read(rt, name.as_str())?;
    expect_bytes(rt, &bytes, wanted);
    Ok(())
}

fn remove_flow(rt: &(impl AllocGlobal + Files), flow: u32) -> io::Result<()> {
    let name = format!(in rt.alloc(); "flow-{flow}.bin")?;
    fs::remove_file(rt, name.as_str())
}

fn remove_others(rt: &(impl AllocGlobal + Files)) -> io::Result<()> {
    for flow in 100..164 {
        remove_flow(rt, flow)?;
    }
    Ok(())
}

#[test]
fn a_shelf_keeps_flows_in_files(rt: HostRuntime) -> Result<(), Fail> {
    fs::write(&rt, "flow-7.bin", "an earlier run")?;
    let flows = AtomicU64::new(0);
    let mut shelf = FileShelf::new(&rt, 64, 0, &flows)?;
    assert!(rt; write_hello(&mut shelf).is_ok());
    expect_appends(&rt, &mut shelf, &[(65_535, b"x", Err(Failed))]);
    expect_file(&rt, 7, b"hello")?;
    assert!(rt; flows.load(Ordering::SeqCst) == 65);
    remove_others(&rt)?;
    remove_flow(&rt, 7)?;
    Ok(())
}

/// One file is open at a time, so that the first of flow 9 closes that of flow 8.
#[test]
fn a_shelf_writes_what_it_gathered(rt: HostRuntime) -> Result<(), Fail> {
    let flows = AtomicU64::new(0);
    let mut shelf = FileShelf::new(&rt, 1, 4096, &flows)?;
    expect_appends(&rt, &mut shelf, &[(8, b"he", Ok(())), (8, b"ll", Ok(()))]);
    expect_file(&rt, 8, b"")?;
    expect_appends(&rt, &mut shelf, &[(9, b"x", Ok(()))]);
    expect_file(&rt, 8, b"hell")?;
    expect_appends(&rt, &mut shelf, &[(8, b"o", Ok(()))]);
    expect_file(&rt, 8, b"hell")?;
    assert!(rt; shelf.flush().is_ok());
    expect_file(&rt, 8, b"hello")?;
    expect_file(&rt, 9, b"x")?;
    remove_flow(&rt, 8)?;
    remove_flow(&rt, 9)?;
    Ok(())
}
