ghost use Rattle.std.specs.Prelude.{◌≡◌, ◌*◌, ◌-◌, ◌^◌, ◌<◌, ◌≤◌, nat_le};
ghost use Rattle.std.specs.Int.{int_shr};
ghost use Rattle.mc_fields.specs.Pattern.{significand_of, with_sign};

/// The significand of a pattern with so many bits of fraction: where the exponent is not 0, a bit
/// stands before the fraction.
pub fn significand(exponent: u64, fraction: u64, bits: u64) -> u64
    requires few { bits ≤ 52 }
    requires below { fraction < 2 ^ bits }
    ensures { result ≡ significand_of bits exponent fraction }
{
    if exponent == 0 {
        fraction
    } else {
        (1 << bits) + fraction
    }
}

/// A size with its sign.
pub fn with_sign(negative: bool, size: u64) -> i64
    requires { size < 2 ^ 63 }
    ensures { result ≡ with_sign negative size }
{
    if negative {
        -(size as i64)
    } else {
        size as i64
    }
}

/// A number over a power of two, rounded down.
pub fn shifted(value: i64, right: u64) -> i64
    ensures { result ≡ int_shr value right }
{
    value >> right.min(63)
}

/// A size with its highest bit moved to a place above it, where that bit is the one numbered `top`.
pub fn raised(size: u64, top: u32, place: u32) -> u64
    requires least { 2 ^ top ≤ size }
    requires most { size < 2 * 2 ^ top }
    requires room { top ≤ place }
    requires few { place ≤ 52 }
    ensures value { result ≡ size * 2 ^ (place - top) }
    ensures low { 2 ^ place ≤ result }
    ensures high { result < 2 * 2 ^ place }
{
    size << (place - top)
}
