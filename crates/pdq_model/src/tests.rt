use crate::Config;

// Configurations with a query's priority and fragments, and then: frames in a quantum, effective priority, quanta, scan threads.
#[test]
fn shares_are_sized(rt: HostRuntime) {
    for (numbers, query, want) in [
        ([100, 4000, 10, 10, 128], [50, 4], [100, 50, 5, 4]),
        ([100, 10000, 7, 10, 128], [50, 1], [357, 50, 3, 1]),
        ([100, 65536, 16, 1_048_576, 128], [25, 8], [1024, 25, 4, 8]),
        ([100, 65536, 16, 1_048_576, 128], [3, 2], [1024, 3, 1, 2]),
        ([50, 4000, 10, 10, 128], [99, 1], [100, 49, 4, 1]),
        ([100, 4000, 10, 100, 128], [19, 16], [100, 19, 1, 16]),
        ([100, 4000, 10, 10, 128], [0, 4], [100, 0, 1, 1]),
        ([50, 4000, 10, 10, 401], [1, 4], [100, 0, 2, 1]),
        ([100, 4000, 10, 10, 1000], [0, 1], [100, 0, 2, 1]),
        ([100, 1_048_576, 256, 10, 8193], [0, 1], [1024, 0, 3, 1]),
        ([100, 384, 3, 10, 262_144], [0, 1], [32, 0, 1, 1]),
    ] {
        let config = Config::check(
            numbers[0], numbers[1], numbers[2], numbers[3], numbers[4],
        ).expect(&rt, "valid");
        let priority = config.effective_priority(query[0]);
        assert_eq!(rt; config.frames_per_quantum(), want[0]);
        assert_eq!(rt; priority, want[1]);
        assert_eq!(rt; config.quanta_for(priority), want[2]);
        assert_eq!(rt; config.scans_for(priority, query[1]), want[3]);
        assert_eq!(rt;
            [
                config.max_priority(),
                config.total_kb(),
                config.max_queries(),
                config.max_scans(),
                config.nonpdq_kb()
            ],
            numbers
        );
    }
}

#[test]
fn bad_configurations_are_refused(rt: HostRuntime) {
    for numbers in [
        [101, 4000, 10, 10, 128],
        [100, 4000, 0, 10, 128],
        [100, 65536, 257, 10, 128],
        [100, 1279, 10, 10, 128],
        [100, 1_048_577, 10, 10, 128],
        [100, 4000, 10, 0, 128],
        [100, 4000, 10, 1_048_577, 128],
        [100, 4000, 10, 10, 127],
        [100, 4000, 10, 10, 262_145],
    ] {
        let config = Config::check(numbers[0], numbers[1], numbers[2], numbers[3], numbers[4]);
        assert!(rt; config.is_none());
    }
}
