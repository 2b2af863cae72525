ghost use Rattle.std.specs.Prelude.{◌≡◌, ◌<◌, ◌≤◌, IfSome};
ghost use Rattle.mir_lex.specs.Bytes.{digit_value, number_within};

/// What a decimal or hexadecimal digit counts.
fn digit_value(byte: u8) -> u8
    ensures { result ≡ digit_value byte }
{
    if byte <= b'9' {
        byte.saturating_sub(48)
    } else if byte <= b'F' {
        byte.saturating_sub(55)
    } else {
        byte.saturating_sub(87)
    }
}

/// The number that digits write in this base, where it is at most `most`.
pub fn number_within(base: u128, most: u128, digits: &[u8]) -> Option<u128>
    requires { 0 < base }
    ensures value { result ≡ number_within base most digits.now }
    ensures small { IfSome result (λ n. n ≤ most) }
{
    let mut value: u128 = 0;
    let mut left = digits;
    while let [digit, rest @ ..] = left {
        value = value
            .checked_mul(base)?
            .checked_add(u128::from(digit_value(*digit)))?;
        left = rest;
    }
    if value <= most { Some(value) } else { None }
}
