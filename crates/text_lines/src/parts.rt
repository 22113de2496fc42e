// Parts of a sentence on standard error.
use std::fmt;
use text::Scan;

// How many bytes of a word are shown.
const MOST_SHOWN: usize = 40;

// A word in double quotes, with `...` where it is longer than is shown.
#[derive(Clone, Copy)]
pub struct Quoted<'a>(pub &'a [u8]);

impl fmt::Display for Quoted<'_> {
    fn fmt<W: fmt::Write>(&self, f: &mut fmt::Formatter<W>) -> fmt::Result {
        let shown = self.0.get(..MOST_SHOWN).unwrap_or(self.0);
        f.write_str("\"")?;
        for b in shown {
            show(f, *b)?;
        }
        f.write_str(if shown.len() < self.0.len() {
            "...\""
        } else {
            "\""
        })
    }
}

// A byte as it is, or as `\x1b` where it is a quote, a backslash or not a visible ASCII character:
// a terminal acts on some of these.
fn show<W: fmt::Write>(f: &mut fmt::Formatter<W>, b: u8) -> fmt::Result {
    if b.is_ascii_graphic() && b != b'"' && b != b'\\' {
        f.write_char(char::from(b))
    } else {
        write!(f, "\\x{b:02x}")
    }
}

// A word of ASCII.
#[derive(Clone, Copy)]
pub struct Ascii<'a>(pub &'a [u8]);

impl fmt::Display for Ascii<'_> {
    fn fmt<W: fmt::Write>(&self, f: &mut fmt::Formatter<W>) -> fmt::Result {
        for b in self.0 {
            f.write_char(char::from(*b))?;
        }
        Ok(())
    }
}

// Words as `a, b or c`.
#[derive(Clone, Copy)]
pub struct Choice<'a>(pub &'a [&'a [u8]]);

impl fmt::Display for Choice<'_> {
    fn fmt<W: fmt::Write>(&self, f: &mut fmt::Formatter<W>) -> fmt::Result {
        for (i, word) in self.0.iter().enumerate() {
            if 0 < i {
                f.write_str(if i + 1 == self.0.len() { " or " } else { ", " })?;
            }
            Ascii(word).fmt(f)?;
        }
        Ok(())
    }
}

// The field at which a scan stands: `field 3`, and its word where the field is there, `, "abc",`.
#[derive(Clone, Copy)]
pub struct Named<'a>(pub &'a Scan<'a>);

impl fmt::Display for Named<'_> {
    fn fmt<W: fmt::Write>(&self, f: &mut fmt::Formatter<W>) -> fmt::Result {
        let number = text::ordinal(self.0.line, self.0.at);
        write!(f, "field {number}")?;
        if self.0.field().is_ok() {
            let word = Quoted(self.0.bytes());
            write!(f, ", {word},")?;
        }
        Ok(())
    }
}
