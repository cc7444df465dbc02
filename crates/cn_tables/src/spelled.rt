ghost use Rattle.std.specs.Prelude.{◌≡◌, ◌<◌, ◌≤◌, ◌^◌, ◌-ℤ◌, length, pos, true, IfSome};
ghost use Rattle.cn_tables.specs.Number as spec;

fn is_digit(byte: u8) -> bool
    ensures value { result ≡ spec.is_digit byte }
    ensures least { result ≡ true → 48 ≤ byte }
    ensures most { result ≡ true → byte ≤ 57 }
{
    b'0' <= byte && byte <= b'9'
}

// The value of one to ten decimal digits.
fn magnitude(digits: &[u8]) -> Option<u64>
    ensures value { result ≡ spec.magnitude digits.now }
    ensures small { IfSome result (λ n. n < 10 ^ 10) }
{
    if digits.is_empty() || digits.len() > 10 {
        return None;
    }
    decimal(digits)
}

// The value of at most ten decimal digits.
fn decimal(digits: &[u8]) -> Option<u64>
    requires { length digits.now ≤ 10 }
    ensures value { result ≡ spec.decimal 0 digits.now }
    ensures small { IfSome result (λ n. n < 10 ^ 10) }
{
    let mut value: u64 = 0;
    for digit in digits {
        if !is_digit(*digit) {
            return None;
        }
        value = value * 10 + u64::from(*digit - b'0');
    }
    Some(value)
}

fn plain(value: u64) -> i64
    requires { value < 10 ^ 10 }
    ensures { result ≡ pos value }
{
    value as i64
}

fn negated(value: u64) -> i64
    requires { value < 10 ^ 10 }
    ensures { result ≡ pos 0 -ℤ pos value }
{
    0 - value as i64
}

/// The number that a field spells: one to ten decimal digits, with one leading minus allowed.
pub fn number(field: &[u8]) -> Option<i64>
    ensures { result ≡ spec.number_of field.now }
{
    match field {
        [] => None,
        [first, digits @ ..] => {
            if *first == b'-' {
                match magnitude(digits) {
                    Some(value) => Some(negated(value)),
                    None => None,
                }
            } else {
                match magnitude(field) {
                    Some(value) => Some(plain(value)),
                    None => None,
                }
            }
        }
    }
}
