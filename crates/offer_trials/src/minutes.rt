use gates::cut::CutGate;
use gates::gate::Gate;
use gates::hour::is_hour;
use gates::real_time::RealTime;

#[test]
fn hours(rt: HostRuntime) {
    let table = [
        (0, false),
        (1, true),
        (24, true),
        (25, false),
        (i64::MIN, false),
        (i64::MAX, false),
    ];
    for (hour, expected) in table {
        assert_eq!(rt; is_hour(hour), expected, "hour {hour}");
    }
}

#[test]
fn real_time(rt: HostRuntime) {
    let table = [
        (719, 12, true),
        (720, 12, false),
        (-10_081, 1, true),
        (59, 1, true),
        (60, 1, false),
        (1_439, 24, true),
        (1_440, 24, false),
        (i64::MAX, 24, false),
        (i64::MAX, i64::MAX, true),
        (i64::MIN, i64::MIN, false),
    ];
    for (minute, hour, expected) in table {
        assert_eq!(rt;
            RealTime.admits(minute, hour),
            expected,
            "minute {minute}, hour {hour}"
        );
    }
}

// What a cut gate at a minute, if there is one, says of another for an hour.
fn cut(at: i64, minute: i64, hour: i64) -> Option<bool> {
    CutGate::at(at).ok().map(|gate| gate.admits(minute, hour))
}

// The number with which a cut gate is refused, if it is.
fn refused(at: i64) -> Option<u32> {
    CutGate::at(at).err().map(u32::from)
}

#[test]
fn refused_cuts(rt: HostRuntime) {
    let table = [
        (-10_081, Some(12)),
        (-10_080, None),
        (1_440, None),
        (1_441, Some(12)),
    ];
    for (at, expected) in table {
        assert_eq!(rt; refused(at), expected, "at {at}");
    }
}

#[test]
fn hours_of_a_cut(rt: HostRuntime) {
    let table = [
        (-841, 24, true),
        (-840, 24, false),
        (-841, i64::MIN, true),
        (-840, i64::MAX, false),
    ];
    for (minute, hour, expected) in table {
        assert_eq!(rt;
            cut(-840, minute, hour),
            Some(expected),
            "minute {minute}, hour {hour}"
        );
    }
}

#[test]
fn cuts(rt: HostRuntime) {
    let table = [
        (-10_081, 0, None),
        (-10_080, -10_081, Some(true)),
        (-10_080, -10_080, Some(false)),
        (1_440, 1_439, Some(true)),
        (1_440, 1_440, Some(false)),
        (1_441, 0, None),
        (i64::MIN, 0, None),
        (i64::MAX, 0, None),
    ];
    for (at, minute, expected) in table {
        assert_eq!(rt; cut(at, minute, 1), expected, "at {at}, minute {minute}");
    }
}
