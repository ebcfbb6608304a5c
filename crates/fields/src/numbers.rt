// Reads a number: `0`, or 1 to 18 digits of which the first is not 0.
ghost use Rattle.std.specs.Prelude.{◌≡◌, ◌≤◌, length};
ghost use Rattle.fields.specs.Number.{number_in, read_on};

const MOST_DIGITS: usize = 18;

// The number that the digits write, or none where one is no digit. So few digits fit 64 bits.
fn decimal(digits: &[u8]) -> Option<u64>
    requires { length digits.now ≤ 18 }
    ensures { result ≡ read_on 0 digits.now }
{
    let mut value = 0;
    for byte in digits {
        if !byte.is_ascii_digit() {
            return None;
        }
        value = value * 10 + u64::from(*byte - b'0');
    }
    Some(value)
}

// The number that the bytes write, if they write one.
pub fn number(bytes: &[u8]) -> Option<u64>
    ensures { result ≡ number_in bytes.now }
{
    match bytes {
        [] => None,
        [b'0'] => Some(0),
        [b'0', ..] => None,
        _ if bytes.len() > MOST_DIGITS => None,
        _ => decimal(bytes),
    }
}
