ghost use Rattle.std.specs.Prelude.{◌≡◌};
ghost use Rattle.text.specs.Faults.{fault_no, fault_told};

use std::fmt;

// What is wrong with a field: it is missing, is empty, has a byte that is no decimal digit, is
// above the most that is allowed, is one too many, is none of the words that can stand there, is no
// buffer in hex, or names what another field has named.
#[derive(Clone, Copy, PartialEq, Eq)]
pub enum Fault {
    Missing,
    Empty,
    NotDigit,
    TooLarge,
    Extra,
    NotWord,
    NotHex,
    Twice,
}

impl Fault {
    // The fault that a number stands for: 0 for none, and a number past the list for a word that is not known.
    pub fn of(number: u8) -> Option<Fault>
        ensures { fault_no result ≡ fault_told number }
    {
        Some(match number {
            0 => return None,
            1 => Fault::Missing,
            2 => Fault::Empty,
            3 => Fault::NotDigit,
            4 => Fault::TooLarge,
            5 => Fault::Extra,
            7 => Fault::NotHex,
            8 => Fault::Twice,
            _ => Fault::NotWord,
        })
    }
}

// The end of a sentence about the field.
impl fmt::Display for Fault {
    fn fmt<W: fmt::Write>(&self, f: &mut fmt::Formatter<W>) -> fmt::Result {
        f.write_str(match self {
            Fault::Missing => "is missing",
            Fault::Empty | Fault::NotDigit => "is not a number",
            Fault::TooLarge => "is too large",
            Fault::Extra => "is one too many",
            Fault::NotWord | Fault::NotHex | Fault::Twice => "is not a known word",
        })
    }
}
