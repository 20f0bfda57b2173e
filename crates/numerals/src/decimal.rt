ghost use Rattle.std.specs.Prelude.{◌≡◌};
ghost use Rattle.numerals.specs.Decimals.{number_of};

// The number that a field of one to seven decimal digits spells.
pub fn read_number(field: &[u8]) -> Option<u32>
    ensures { result ≡ number_of field.now }
{
    if field.is_empty() || field.len() > 7 {
        return None;
    }
    let mut value = 0;
    for b in field {
        value = value * 10 + char::from(*b).to_digit(10)?;
    }
    Some(value)
}
