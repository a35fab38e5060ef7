//! Whole numbers with a sign.
ghost use Rattle.std.specs.Prelude.{◌≡◌, ◌<◌, ◌≤◌, ◌^◌, pos, ◌-ℤ◌, unsigned_abs};
ghost use Rattle.fixed_value.specs.Scaled.{signed};

// The number of this magnitude, below 0 where `negative`.
pub(crate) fn with_sign(negative: bool, magnitude: u64) -> i64
    requires { magnitude ≤ 10 ^ 16 }
    ensures { result ≡ signed negative magnitude }
{
    power_with_sign(negative, u128::from(magnitude)) as i64
}

// The power of this magnitude, below 0 where `negative`.
pub(crate) fn power_with_sign(negative: bool, magnitude: u128) -> i128
    requires { magnitude < 10 ^ 38 }
    ensures { result ≡ signed negative magnitude }
{
    if negative {
        -(magnitude as i128)
    } else {
        magnitude as i128
    }
}

// The power with a number of places less.
pub(crate) fn less_places(power: i128, places: usize) -> i128
    requires power { unsigned_abs power < 10 ^ 38 }
    requires few { places ≤ 40 }
    ensures { result ≡ power -ℤ pos places }
{
    power - places as i128
}
