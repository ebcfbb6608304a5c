// Reads a number of decimal digits. `fields` reads numbers too, but of at most 18 digits and with none of them a leading 0.
ghost use Rattle.std.specs.Prelude.{◌≡◌};
ghost use Rattle.planner.specs.Numbers.{number_of, with_digit};

// The value with one digit more, if the byte is a digit and 64 bits hold what they make.
fn with_digit(value: u64, byte: u8) -> Option<u64>
    ensures { result ≡ with_digit value byte }
{
    match byte {
        b'0'..=b'9' => value.checked_mul(10)?.checked_add(u64::from(byte - b'0')),
        _ => None,
    }
}

// The number that a line tells: decimal digits, at least one, and of at most 64 bits. Reading stops at the first byte that is no digit or goes past 64 bits.
pub fn number(line: &[u8]) -> Option<u64>
    ensures { result ≡ number_of line.now }
{
    match line {
        [] => None,
        _ => line
            .iter()
            .try_fold(0, |value, byte| with_digit(value, *byte)),
    }
}
