//! Entries of tables.

use l3_base::{ca, cs, edge, k64, k72, quarter, w};

// Entries beyond the printed ones, worked out by hand from the printed table and its three rules.
#[test]
fn the_window_goes_on(rt: HostRuntime) {
    let entries = [w(0), w(64), w(256), w(257), w(320), w(448), w(511)];
    assert!(rt; entries == [0, 213, 75038, 74992, 6574, 213, 1]);
}

// The same of the cosines of 64 steps.
#[test]
fn cosines_of_64_steps_go_on(rt: HostRuntime) {
    let entries = [
        k64(0),
        k64(-1),
        k64(33),
        k64(64),
        k64(96),
        k64(127),
        k64(259),
    ];
    assert!(rt; entries == [32768, 32729, -1608, -32768, 0, 32729, 32413]);
}

// The same of the cosines of 72 steps.
#[test]
fn cosines_of_72_steps_go_on(rt: HostRuntime) {
    let entries = [
        k72(0),
        k72(-1),
        k72(37),
        k72(72),
        k72(108),
        k72(143),
        k72(291),
    ];
    assert!(rt; entries == [32768, 32737, -1429, -32768, 0, 32737, 32488]);
}

#[test]
fn short_tables(rt: HostRuntime) {
    assert!(rt; [cs(0), cs(7), ca(0), ca(7)] == [28098, 32768, -16859, -121]);
    assert!(rt; [quarter(0), quarter(3)] == [1073741824, 1805811301]);
    assert!(rt; [edge(0, 21), edge(1, 10), edge(2, 22)] == [418, 50, 576]);
}
