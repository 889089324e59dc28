//! Values of two words.
ghost use Rattle.std.specs.Prelude.{◌≡◌};
ghost use Rattle.ordered_map.specs.Holding.{wide_value};

/// The value that has these halves.
pub fn wide_value(low: u64, high: u64) -> u128
    ensures { result ≡ wide_value low high }
{
    u128::from(low) + 18446744073709551616 * u128::from(high)
}

/// The halves of a value: the low one, and the high one.
pub fn halves(value: u128) -> (u64, u64)
    ensures { wide_value result.0 result.1 ≡ value }
{
    (
        (value % 18446744073709551616) as u64,
        (value / 18446744073709551616) as u64,
    )
}
