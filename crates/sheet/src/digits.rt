// Decimal digits, written into a buffer.
ghost use Rattle.std.specs.Prelude.{◌≡◌, ◌≤◌, length};
ghost use Rattle.lines.specs.declared.numbers.TheConstants.{MOST_DIGITS};
ghost use Rattle.run.specs.Writes.{Fits};
ghost use Rattle.sheet.specs.Digits.{digits};

// Writes the digits of a number into the front of a buffer, and answers how many there are.
pub(crate) fn put_number(out: &mut [u8], n: u32) -> usize
    requires { length (digits n) ≤ length out.old }
    ensures { Fits (digits n) result out.old out.new }
{
    let end = digit_count(n);
    itoa::write_digits(n.into(), out, end);
    end
}

// How many digits a number has.
pub(crate) fn digit_count(n: u32) -> usize
    ensures count { result ≡ length (digits n) }
    ensures few { result ≤ MOST_DIGITS }
{
    n.checked_ilog10().unwrap_or(0) as usize + 1
}
