//! The shelf's carrier by itself.
ghost use Rattle.std.specs.Prelude.{◌≡◌, IsOk};

use crate::step::same_bytes;
use futures::Future;
use futures::future::FutureExt;
use futures::task::{Context, Poll};
use std::alloc::{AllocError, Global};
use std::process::Abort;
use std::test::*;
use zc_forward::{Carrier, ShelfCarrier};
use zr_io::{Failed, MemShelf};

/// A shelf with ample memory, of which one call fails after some bytes if it is listed.
fn shelf(alloc: Global, fails: &[(u64, usize)]) -> Result<MemShelf, AllocError> {
    MemShelf::new(alloc, 4, 100, Vec::from_slice(alloc, fails)?)
}

/// The call of this number went well.
fn goes(rt: &impl Abort, call: u32, outcome: Result<(), Failed>)
    ensures { IsOk outcome }
{
    assert!(rt; outcome.is_ok(), "call {call}");
}

/// It told this tag, or none.
fn tells(rt: &impl Abort, call: u32, told: Option<u32>, wanted: Option<u32>)
    ensures { told ≡ wanted }
{
    assert!(rt; told == wanted, "call {call}: {told:?}");
}

#[test]
fn flows_get_what_is_carried(rt: HostRuntime) -> Result<(), Fail> {
    let mut carrier = ShelfCarrier::new(shelf(rt.alloc(), &[])?, 1);
    goes(&rt, 1, carrier.begin(7, 2));
    goes(&rt, 2, carrier.begin(3, 0));
    goes(&rt, 3, carrier.carry(3, b"other"));
    goes(&rt, 4, carrier.carry(7, b"he"));
    goes(&rt, 5, carrier.carry(7, b"llo"));
    let shelf = carrier.shelf();
    same_bytes(&rt, "what is carried", 2, shelf.flow(2), b"hello");
    same_bytes(&rt, "what is carried", 0, shelf.flow(0), b"other");
    same_bytes(&rt, "what is carried", 1, shelf.flow(1), b"");
    Ok(())
}

#[test]
fn notices_come_in_order_behind_the_delay(rt: HostRuntime) -> Result<(), Fail> {
    let mut carrier = ShelfCarrier::new(shelf(rt.alloc(), &[])?, 2);
    tells(&rt, 1, carrier.notice(true), None);
    goes(&rt, 2, carrier.begin(5, 0));
    goes(&rt, 3, carrier.begin(4, 0));
    tells(&rt, 4, carrier.notice(false), None);
    goes(&rt, 5, carrier.begin(9, 0));
    tells(&rt, 6, carrier.notice(false), Some(5));
    tells(&rt, 7, carrier.notice(false), None);
    // A tag that was told may go out again.
    goes(&rt, 8, carrier.begin(5, 1));
    tells(&rt, 9, carrier.notice(true), Some(4));
    tells(&rt, 10, carrier.notice(true), Some(9));
    tells(&rt, 11, carrier.notice(true), Some(5));
    tells(&rt, 12, carrier.notice(true), None);
    Ok(())
}

#[test]
fn a_fault_of_the_shelf_is_one_of_the_carrier(rt: HostRuntime) -> Result<(), Fail> {
    let mut carrier = ShelfCarrier::new(shelf(rt.alloc(), &[(2, 2)])?, 0);
    goes(&rt, 1, carrier.begin(1, 3));
    goes(&rt, 2, carrier.carry(1, b"he"));
    assert!(&rt; carrier.carry(1, b"llo").is_err());
    goes(&rt, 4, carrier.begin(2, 3));
    carrier.cancel();
    tells(&rt, 6, carrier.notice(true), None);
    goes(&rt, 7, carrier.begin(1, 3));
    goes(&rt, 8, carrier.carry(1, b"!"));
    same_bytes(&rt, "a fault", 3, carrier.shelf().flow(3), b"hell!");
    Ok(())
}

/// One poll for a notice.
#[derive(Drop)]
struct Told<'a, C> {
    carrier: &'a mut C,
    urge: bool,
}

impl<'a, C: Carrier> Future for Told<'a, C> {
    type Output = u32;

    ghost needs = { λ told. C.needs told.carrier.now };

    fn poll(&mut self, cx: &mut Context<'_>) -> Poll<u32> {
        self.carrier.poll_notice(cx, self.urge)
    }
}

#[test]
fn a_poll_tells_as_a_notice_does(rt: HostRuntime) -> Result<(), Fail> {
    let mut carrier = ShelfCarrier::new(shelf(rt.alloc(), &[])?, 1);
    goes(&rt, 1, carrier.begin(6, 0));
    goes(&rt, 2, carrier.begin(2, 0));
    let mut told = |urge| {
        Told {
            carrier: &mut carrier,
            urge,
        }
        .now_or_never(&rt)
    };
    tells(&rt, 3, told(false)?, Some(6));
    tells(&rt, 4, told(false)?, None);
    tells(&rt, 5, told(true)?, Some(2));
    Ok(())
}
