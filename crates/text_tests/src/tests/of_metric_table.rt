//! The rows of both tables, as the documents print them.
use metric_table::{Limit, decimals, default_penalty, larger_is_better};

// Metrics, their decimals, whether larger is better, and their penalties.
const METRICS: [(&[u8], u8, bool, i128); 11] = [
    (b"ns/op", 4, false, 2500000000),
    (b"MB/s", 4, true, 2500000000),
    (b"B/op", 0, false, 25),
    (b"allocs/op", 0, false, 25),
    (b"execution_time", 9, false, 10000000000000000),
    (b"compile_time", 9, false, 10000000000000000),
    (b"code_size", 0, false, 25),
    (b"", 4, false, 2500000000),
    (b"mb/s", 4, false, 2500000000),
    (b"B/op2", 4, false, 2500000000),
    (b"code_siz", 4, false, 2500000000),
];

// Limits, their numbers and their words.
const LIMITS: [(Limit, u64, &str); 11] = [
    (Limit::Machines, 16, "machines"),
    (Limit::Commits, 65536, "commits"),
    (Limit::Runs, 65536, "runs"),
    (Limit::RunSamples, 65536, "run_samples"),
    (Limit::Samples, 524288, "samples"),
    (Limit::Series, 16384, "series"),
    (Limit::SeriesSamples, 65536, "series_samples"),
    (Limit::Positions, 16384, "positions"),
    (Limit::Steps, 1048576, "steps"),
    (Limit::Cuts, 16777216, "cuts"),
    (Limit::Jobs, 256, "jobs"),
];

#[test]
fn each_metric_and_limit_has_its_row(rt: HostRuntime) {
    for (metric, places, larger, penalty) in &METRICS {
        assert!(rt;
            decimals(metric) == *places
                && larger_is_better(metric) == *larger
                && default_penalty(metric) == *penalty,
            "{metric:?}"
        );
    }
    for (limit, number, word) in &LIMITS {
        assert!(rt; limit.most() == *number && limit.word() == *word, "{word}");
    }
}
