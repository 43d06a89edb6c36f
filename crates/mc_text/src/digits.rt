ghost use Rattle.std.specs.Prelude.{◌≡◌, ◌≤◌, ◌^◌, ◌-◌, length};
ghost use Rattle.mc_text.specs.Digits.{digits_after, digits_number, within};

/// The number that decimal digits write.
fn digits_value(digits: &[u8]) -> Option<u128>
    requires { length digits.now ≤ 20 }
    ensures { result ≡ digits_after 0 digits.now }
{
    let mut value = 0u128;
    for byte in digits {
        if !byte.is_ascii_digit() {
            return None;
        }
        value = 10 * value + u128::from(*byte - b'0');
    }
    Some(value)
}

/// The number that 1 to `wide` decimal digits write.
#[tactic(auto, unfolding(crate::specs::Digits::digits_number))]
fn digits_number(digits: &[u8], wide: usize) -> Option<u128>
    requires { wide ≤ 20 }
    ensures { result ≡ digits_number wide digits.now }
{
    if digits.is_empty() || digits.len() > wide {
        return None;
    }
    digits_value(digits)
}

/// A number of 1 to 10 digits in a range.
pub fn ranged_u32(digits: &[u8], low: u32, high: u32) -> Option<u32>
    ensures { result ≡ within low high (digits_number 10 digits.now) }
{
    let number = u32::try_from(digits_number(digits, 10)?).ok()?;
    if low <= number && number <= high {
        Some(number)
    } else {
        None
    }
}

/// A number of 64 bits, of 1 to 20 digits.
pub fn long_number(digits: &[u8]) -> Option<u64>
    ensures { result ≡ within 0 (2 ^ 64 - 1) (digits_number 20 digits.now) }
{
    u64::try_from(digits_number(digits, 20)?).ok()
}
