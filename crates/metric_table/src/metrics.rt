//! The table of metrics, and what it says of each.
ghost use Rattle.std.specs.Prelude.{◌≡◌, ◌≤◌, ◌↔◌, IsTrue, codes};
ghost use Rattle.metric_table.specs.Table.{row_of};

/// What the table says of a metric.
#[derive(Clone, Copy)]
struct Columns {
    decimals: u8,
    larger_is_better: bool,
    default_penalty: i128,
}

/// Most metrics: times and rates of a few digits behind the point.
const COMMON: Columns = Columns {
    decimals: 4,
    larger_is_better: false,
    default_penalty: 2_500_000_000,
};

/// Counts of bytes and allocations.
const COUNT: Columns = Columns {
    decimals: 0,
    larger_is_better: false,
    default_penalty: 25,
};

/// Seconds, to the nanosecond.
const SECONDS: Columns = Columns {
    decimals: 9,
    larger_is_better: false,
    default_penalty: 10_000_000_000_000_000,
};

/// A rate, of which more is better.
const RATE: Columns = Columns {
    larger_is_better: true,
    ..COMMON
};

// Whether the metric is the time of an operation, as most are.
fn is_time(metric: &[u8]) -> bool
    ensures { IsTrue result ↔ (metric.now ≡ codes "ns/op") }
{
    match metric {
        b"ns/op" => true,
        _ => false,
    }
}

fn is_same(metric: &[u8], name: &[u8]) -> bool
    ensures { IsTrue result ↔ (metric.now ≡ name.now) }
{
    metric == name
}

// The metric's row.
fn columns_of(metric: &[u8]) -> Columns
    ensures decimals { result.decimals ≡ (row_of metric.now).decimals }
    ensures direction { result.larger_is_better ≡ (row_of metric.now).larger_is_better }
    ensures penalty { result.default_penalty ≡ (row_of metric.now).default_penalty }
    ensures few { result.decimals ≤ 9 }
{
    if is_time(metric) {
        COMMON
    } else if is_same(metric, b"MB/s") {
        RATE
    } else if is_same(metric, b"B/op") || is_same(metric, b"allocs/op") {
        COUNT
    } else if is_same(metric, b"execution_time") || is_same(metric, b"compile_time") {
        SECONDS
    } else if is_same(metric, b"code_size") {
        COUNT
    } else {
        COMMON
    }
}

/// How many decimals the values of a metric are scaled by, from 0 to 9: a value is kept as a whole number of 10^-d units.
/// The rule is the table of metrics in docs/FORMATS.md. O(length of the name); takes no memory.
pub fn decimals(metric: &[u8]) -> u8
    ensures row { result ≡ (row_of metric.now).decimals }
    ensures few { result ≤ 9 }
{
    columns_of(metric).decimals
}

/// Whether a larger value of the metric is a better one, as for a throughput.
/// The rule is the table of metrics in docs/FORMATS.md. O(length of the name); takes no memory.
pub fn larger_is_better(metric: &[u8]) -> bool
    ensures { result ≡ (row_of metric.now).larger_is_better }
{
    columns_of(metric).larger_is_better
}

/// The penalty of a cut where none was set for the metric, in squared scaled units.
/// The rule is the table of metrics in docs/FORMATS.md. O(length of the name); takes no memory.
pub fn default_penalty(metric: &[u8]) -> i128
    ensures { result ≡ (row_of metric.now).default_penalty }
{
    columns_of(metric).default_penalty
}
