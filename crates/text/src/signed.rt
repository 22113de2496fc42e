// A decimal number with a sign from the bytes of a field.
ghost use Rattle.std.specs.Prelude.{◌≡◌};
ghost use Rattle.text.specs.Signs.{signed_of};

use crate::fault::Fault;
use crate::number::parse;

// The number from -2^31 to 2^31 - 1 that `s` stands for: digits, with `-` before them where it is
// below 0.
#[tactic(auto, unfolding(crate::specs::Signs::signed_of))]
pub fn parse_signed(s: &[u8]) -> Result<i32, Fault>
    ensures { result ≡ signed_of s.now }
{
    if let [b'-', digits @ ..] = s {
        let below = parse(digits, 2147483648)?;
        return Ok(-(below as i64) as i32);
    }
    let above = parse(s, 2147483647)?;
    Ok(above as i32)
}
