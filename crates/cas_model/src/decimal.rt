// Numbers in decimal digits.
ghost use Rattle.std.specs.Prelude.{◌≡◌, ℕ, IfSome, IfNone};
ghost use Rattle.cas_model.specs.Decimal.{IsNumberWithin, leads};

/// The number that a text is, in decimal digits without a sign or a leading zero, if it lies between these two, which
/// count as well. The rule is this project's own: a number has one text.
pub fn number_within(text: &[u8], least: u64, most: u64) -> Option<u64>
    ensures found { IfSome result (IsNumberWithin least most text.now) }
    ensures none { IfNone result ((number : ℕ) → ¬ IsNumberWithin least most text.now number) }
{
    if !leads(text) {
        return None;
    }
    let Ok(digits) = str::from_utf8(text) else {
        return None;
    };
    let Ok(number) = digits.parse::<u64>() else {
        return None;
    };
    if number < least || most < number {
        return None;
    }
    Some(number)
}

// Whether a number's digits may begin as these bytes do: with another digit than 0, or they are one digit.
fn leads(text: &[u8]) -> bool
    ensures { result ≡ leads text.now }
{
    match text {
        [] => false,
        [digit] => digit.is_ascii_digit(),
        [first, ..] => b'1' <= *first && *first <= b'9',
    }
}
