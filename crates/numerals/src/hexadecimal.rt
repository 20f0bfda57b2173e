ghost use Rattle.std.specs.Prelude.{◌≡◌, ◌<◌, IfSome};
ghost use Rattle.numerals.specs.Hexes.{hex_of, bits_of};

fn hex_value(b: u8) -> Option<u32>
    ensures value { result ≡ hex_of b }
    ensures small { IfSome result (λ d. d < 16) }
{
    char::from(b).to_digit(16)
}

// The sixteen bits that four hexadecimal digits of either case spell.
pub fn read_bits(field: &[u8]) -> Option<u16>
    ensures { result ≡ bits_of field.now }
{
    let [a, b, c, d] = field else {
        return None;
    };
    let a = hex_value(*a)?;
    let b = hex_value(*b)?;
    let c = hex_value(*c)?;
    let d = hex_value(*d)?;
    // Four digits are sixteen bits, so that `as` loses none.
    Some((a * 4096 + b * 256 + c * 16 + d) as u16)
}
