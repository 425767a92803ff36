ghost use Rattle.std.specs.Prelude.{◌≤◌};
ghost use Rattle.zr_kinds.specs.Setting.{most_events};

use plain_board::EventLog;
use std::process::Abort;
use zr_kinds::Event;

const TAKE: Event = Event::Take { buffer: 3, pool: 1 };

const SHUT: Event = Event::Shut { buffer: 3, pool: 0 };

/// A log with room for so many events is whole until the first event that it has no room for, and keeps those before.
fn expect_log(rt: &(impl Abort + AllocGlobal), room: u32, pushes: &[(Event, bool)], kept: &[Event])
    requires { room ≤ most_events }
{
    let mut log = EventLog::open(rt.alloc(), room).expect(rt, "memory");
    assert!(rt; log.log().whole);
    for (at, (event, whole)) in pushes.iter().enumerate() {
        log.push(*event);
        assert!(rt; log.log().whole == *whole, "event {at}");
    }
    assert!(rt; log.log().events.as_slice() == kept);
}

#[test]
fn a_log_without_room_closes_at_its_first_event(rt: HostRuntime) {
    expect_log(&rt, 0, &[(Event::Stray { app: 0 }, false)], &[]);
}

#[test]
fn a_log_keeps_its_first_events(rt: HostRuntime) {
    let pushes = [
        (TAKE, true),
        (SHUT, true),
        (Event::Stray { app: 1 }, false),
        (TAKE, false),
    ];
    expect_log(&rt, 2, &pushes, &[TAKE, SHUT]);
}
