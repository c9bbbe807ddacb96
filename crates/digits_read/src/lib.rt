// Digits of a line: which bytes are digits, and the number that a field of them stands for.
#![tactic(auto)]

ghost use Rattle.std.specs.Prelude.{◌≡◌, true};
ghost use Rattle.std.specs.Float.{binary64};
ghost use Rattle.std.specs.Float.Ieee.{of_bits};
ghost use Rattle.model.specs.Lists.{every};
ghost use Rattle.model.specs.Num.{finite};
ghost use Rattle.model.specs.Read.{is_digit, digit_value, field};
ghost use Rattle.digits_read.specs.Digits.{FieldOfDigits};

// Whether a byte is a digit, '0' to '9' or 'A' to 'F'. There is no branch, and none in a digit's value: no processor foresees digits.
pub fn is_digit(b: u8) -> bool
    ensures { result ≡ is_digit b }
{
    (b'0' <= b) & (b <= b'9') | (b'A' <= b) & (b <= b'F')
}

// The low four bits of '0' to '9' are the value, those of 'A' to 'F' are 9 less.
pub fn digit_value(b: u8) -> usize
    requires { is_digit b ≡ true }
    ensures { result ≡ digit_value b }
{
    usize::from(b % 16 + b / 64 * 9)
}

// Every byte is a digit. All are looked at, so that there is no branch, as `all` has.
pub fn all_digits(bytes: &[u8]) -> bool
    ensures { result ≡ every is_digit bytes.now }
{
    bytes.iter().fold(true, |good, b| good & is_digit(*b))
}

// The number that the n digits from place p on stand for: at most 16 of them. Beside it numbers_read has one for 16 digits, which looks them up for speed.
pub fn field_at(line: &[u8], p: usize, n: usize) -> usize
    requires { FieldOfDigits line.now p n }
    ensures { result ≡ field p n line.now }
{
    let mut v = 0;
    for k in 0..n {
        v = v * 16 + digit_value(line[p + k]);
    }
    v
}

// Whether the number whose bits are the 16 digits from place p on is finite: not where all bits of its exponent, which end in the third
// digit, are ones. The first digit nearly always tells: it has three of these bits, all ones in '7' and 'F' alone.
pub fn finite_at(line: &[u8], p: usize) -> bool
    requires { FieldOfDigits line.now p 16 }
    ensures { result ≡ finite (of_bits binary64 (field p 16 line.now)) }
{
    let first = line[p];
    if (first != b'7') & (first != b'F') {
        return true;
    }
    field_at(line, p, 3) % 2048 != 2047
}
