//! The numbers that a state gives, one after another.
ghost use Rattle.std.specs.Prelude.{◌≡◌, ◌<◌};
ghost use Rattle.series_gen.specs.Script.{next, drawn};

// The state after one draw.
pub fn next_state(state: u64) -> u64
    ensures { result ≡ next state }
{
    let product = u128::from(state) * 6_364_136_223_846_793_005 + 1_442_695_040_888_963_407;
    (product % 18_446_744_073_709_551_616) as u64
}

// The number below k that a state gives.
pub fn number_of(k: u64, state: u64) -> u64
    requires { 0 < k }
    ensures is { result ≡ drawn k state }
    ensures below { result < k }
{
    state / 8_589_934_592 % k
}
