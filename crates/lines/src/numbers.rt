// The numbers of a line: decimal, with one space before each.
ghost use Rattle.std.specs.Prelude.{◌≡◌, ◌^◌, ◌<◌, ◌≤◌, length, MatchOption};
ghost use Rattle.std.specs.Option.{option_map};
ghost use Rattle.std.specs.List.{take_while};
ghost use Rattle.lines.specs.Numbers.{is_digit, Digits, worth, taken, number_of, one_number, two_numbers};

/// A number has at most this many digits.
pub const MOST_DIGITS: usize = 10;

// How many digits stand in front.
fn digit_count(bytes: &[u8]) -> usize
    ensures { result ≡ length (take_while is_digit bytes.now) }
{
    bytes
        .iter()
        .take_while(|byte| byte.is_ascii_digit())
        .count()
}

// What the digits of a number are worth. By hand: for `parse` they would be made a text first, with two failures that cannot happen.
fn digits_worth(digits: &[u8]) -> u64
    requires few { length digits.now ≤ MOST_DIGITS }
    requires all { Digits digits.now }
    ensures { result ≡ worth digits.now }
{
    let mut value: u64 = 0;
    for digit in digits {
        value = value * 10 + u64::from(*digit - b'0');
    }
    value
}

// A number of 32 bits; none where it has more.
fn narrow(value: u64) -> Option<u32>
    ensures { MatchOption result (2 ^ 32 ≤ value) (λ n. (n ≡ value) × (value < 2 ^ 32)) }
{
    u32::try_from(value).ok()
}

// The number in front, and what follows it.
fn read_number(bytes: &[u8]) -> Option<(u32, &[u8])>
    ensures { option_map taken result ≡ number_of bytes.now }
{
    let [b' ', rest @ ..] = bytes else {
        return None;
    };
    let count = digit_count(rest);
    if count == 0 || count > MOST_DIGITS {
        return None;
    }
    let (digits, after) = rest.split_at(count);
    let value = narrow(digits_worth(digits))?;
    Some((value, after))
}

// The number that ends a line.
pub(crate) fn last_number(bytes: &[u8]) -> Option<u32>
    ensures { result ≡ one_number bytes.now }
{
    let (number, rest) = read_number(bytes)?;
    match rest {
        [b'\n'] => Some(number),
        _ => None,
    }
}

// The two numbers that end a line.
pub(crate) fn last_two_numbers(bytes: &[u8]) -> Option<(u32, u32)>
    ensures { result ≡ two_numbers bytes.now }
{
    let (first, rest) = read_number(bytes)?;
    let second = last_number(rest)?;
    Some((first, second))
}
