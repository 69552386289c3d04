use kd_answers::exit_status;

// The faults whose exit status no case covers: those of the store, of memory, of the streams, of a
// server inside a replay, and of what is sent.
#[test]
fn each_fault_has_its_exit_status(rt: HostRuntime) {
    for (number, status) in [
        (80, 4),
        (81, 4),
        (89, 3),
        (91, 1),
        (92, 4),
        (93, 4),
        (95, 1),
        (96, 3),
        (99, 3),
    ] {
        assert!(rt; exit_status(number) == status, "{number}");
    }
}
