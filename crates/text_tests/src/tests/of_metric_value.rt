//! Values by metrics of 0, 4 and 9 decimals, read and written.
use metric_value::*;
use std::alloc::Global;

// Metrics, texts, and what they are read as.
const READ: [(&str, &str, Result<i64, ValueFault>); 12] = [
    ("B/op", "2.5", Ok(3)),
    ("B/op", "-2.5", Ok(-3)),
    ("ns/op", "0.25", Ok(2500)),
    ("probes/op", "17.25", Ok(172_500)),
    ("compile_time", "1e-05", Ok(10_000)),
    ("ns/op", "1000000000000", Ok(10_000_000_000_000_000)),
    ("ns/op", "1000000000000.0001", Err(ValueFault::OutOfRange)),
    ("ns/op", "-1e99", Err(ValueFault::OutOfRange)),
    ("execution_time", "1e8", Err(ValueFault::OutOfRange)),
    ("code_size", "1e8", Ok(100_000_000)),
    ("ns/op", "Inf", Err(ValueFault::NoNumeral)),
    ("ns/op", "", Err(ValueFault::NoNumeral)),
];

// Metrics, values, and their texts.
const WRITTEN: [(&str, i64, &str); 5] = [
    ("B/op", 7, "7"),
    ("ns/op", 3_254_000, "325.4000"),
    ("MB/s", -5000, "-0.5000"),
    ("execution_time", 105_600_000, "0.105600000"),
    ("code_size", -2, "-2"),
];

// Whether the value has this text.
fn has_text(alloc: Global, metric: &[u8], value: i64, text: &str) -> bool {
    let mut out = Vec::new(alloc);
    put_value(alloc, &mut out, metric, value).is_ok() && out.as_slice() == text.as_bytes()
}

#[test]
fn values_have_the_decimals_of_their_metric(rt: HostRuntime) {
    for (metric, text, wanted) in &READ {
        assert!(rt;
            value_of(metric.as_bytes(), text.as_bytes()) == *wanted,
            "{metric} {text}"
        );
    }
    for (metric, value, text) in &WRITTEN {
        assert!(rt;
            has_text(rt.alloc(), metric.as_bytes(), *value, text),
            "{metric} {value}"
        );
    }
}
