use std::process::Abort;
use zr_kinds::Fault;

// Each fault has the number that stands beside it, and comes back by it.
fn expect_numbers(rt: &impl Abort, rows: &[(Fault, u8)]) {
    for (fault, number) in rows {
        assert!(rt; fault.number() == *number, "{fault:?}");
        assert!(rt; Fault::numbered(*number) == Some(*fault), "{fault:?}");
    }
}

/// The statuses that users see: 1 to 11, 13 and 14, each once.
#[test]
fn faults_have_their_numbers(rt: HostRuntime) {
    expect_numbers(
        &rt,
        &[
            (Fault::Memory, 1),
            (Fault::Usage, 2),
            (Fault::NotPcap, 3),
            (Fault::Version, 4),
            (Fault::LinkType, 5),
            (Fault::Cut, 6),
            (Fault::LongRecord, 7),
            (Fault::Read, 8),
            (Fault::Write, 9),
            (Fault::TooManyFlows, 10),
            (Fault::TooManyFrames, 11),
            (Fault::BadBlock, 13),
            (Fault::BadRun, 14),
        ],
    );
    for number in [0, 12, 15, u8::MAX] {
        assert!(rt; Fault::numbered(number).is_none(), "{number}");
    }
}
