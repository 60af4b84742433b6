// A number of one byte by its decimal digits.
ghost use Rattle.std.specs.Prelude.{◌≡◌, ◌-◌, cond, Some, None};
ghost use Rattle.sheet_output.specs.Argument.{is_digit, of_digits, argument_of};

const ZERO: u8 = b'0';

// One to three digits.
pub fn argument_of(text: &[u8]) -> Option<u8>
    ensures { result ≡ argument_of text.now }
{
    match text {
        [ones] => of_digits(ZERO, ZERO, *ones),
        [tens, ones] => of_digits(ZERO, *tens, *ones),
        [hundreds, tens, ones] => of_digits(*hundreds, *tens, *ones),
        _ => None,
    }
}

fn of_digits(hundreds: u8, tens: u8, ones: u8) -> Option<u8>
    ensures { result ≡ of_digits hundreds tens ones }
{
    let value = 100 * digit(hundreds)? + 10 * digit(tens)? + digit(ones)?;
    u8::try_from(value).ok()
}

// The number that a digit stands for.
fn digit(byte: u8) -> Option<u16>
    ensures { result ≡ cond (is_digit byte) (Some (byte - 48)) None }
{
    if !byte.is_ascii_digit() {
        return None;
    }
    Some(u16::from(byte - ZERO))
}
