// Buffers in hex: two digits a byte, and `-` for an empty buffer. No public function has a
// `requires`.
#![tactic(auto)]

ghost use Rattle.std.specs.Prelude.{◌≡◌, ◌≤◌, length, IfOk};
ghost use Rattle.text.specs.Scans.{place_after};

use hex::FromHexError;
use text::{Fault, Scan};
use text_lines::Output;

// How many bytes are written at once.
const PART: usize = 64;

// Reads a buffer to the front of `into`, and answers how many bytes it has. One that does not fit
// there is too large.
pub fn read(scan: &mut Scan<'_>, into: &mut [u8]) -> Result<usize, Fault>
    ensures len { IfOk result (λ n. n ≤ length into.old) }
    ensures line { scan.new.line ≡ scan.old.line }
    ensures at { scan.new.at ≡ place_after scan.old.line.now scan.old.at result }
{
    if scan.accept(b"-") {
        return Ok(0);
    }
    let field = scan.field()?;
    let n = read_field(&scan.line[field.start..field.end], into)?;
    scan.at = field.next;
    Ok(n)
}

fn read_field(s: &[u8], into: &mut [u8]) -> Result<usize, Fault>
    ensures { IfOk result (λ n. n ≤ length into.old) }
{
    let n = s.len() / 2;
    if s.len() % 2 != 0 {
        return Err(Fault::NotHex);
    }
    if n == 0 {
        return Err(Fault::Empty);
    }
    if into.len() < n {
        return Err(Fault::TooLarge);
    }
    match hex::decode_to_slice(s, &mut into[..n]) {
        Ok(()) => Ok(n),
        Err(_) => Err(Fault::NotHex),
    }
}

// Writes a buffer in small letters.
pub fn write(out: &mut Output<'_, '_, impl Print>, s: &[u8]) {
    if s.is_empty() {
        out.bytes(b"-");
    }
    for part in s.chunks(PART) {
        write_part(out, part);
    }
}

fn write_part(out: &mut Output<'_, '_, impl Print>, part: &[u8]) {
    let mut digits = [0u8; 2 * PART];
    if let Some(digits) = digits.get_mut(..2 * part.len()) {
        let _ = hex::encode_to_slice(part, digits);
        out.bytes(digits);
    }
}
