// Where the fields of a line begin and end. The functions take a line and a place in it; `Scan`, which holds both,
// stands on them.
ghost use Rattle.std.specs.Prelude.{◌≡◌, ◌+◌, ◌≤◌, length, drop, IfSome};
ghost use Rattle.text.specs.Bytes.{index_of};
ghost use Rattle.text.specs.Fields.{Within, field_at, ordinal_of};

// A field lies from `start` to `end`; `next` is where the field after it starts.
#[derive(Clone, Copy)]
pub struct Field {
    pub start: usize,
    pub end: usize,
    pub next: usize,
}

// The index of the first byte `b` of `s` from index `at` on, or the end of `s`. Past the end it is
// `at`.
pub fn find(s: &[u8], at: usize, b: u8) -> usize
    ensures value { result ≡ at + index_of b (drop at s.now) }
    ensures bound { at ≤ length s.now → result ≤ length s.now }
{
    if s.len() < at {
        return at;
    }
    at + first(&s[at..], b)
}

// The index of the first byte `b` of `s`, or the end of `s`.
fn first(s: &[u8], b: u8) -> usize
    ensures value { result ≡ index_of b s.now }
    ensures bound { result ≤ length s.now }
{
    s.iter().position(|x| *x == b).unwrap_or(s.len())
}

// The field that starts at `at`. There is none past the end of the line.
#[tactic(auto, unfolding(crate::specs::Fields::field_at))]
pub fn next_field(line: &[u8], at: usize) -> Option<Field>
    ensures value { result ≡ field_at line.now at }
    ensures within { IfSome result (Within line.now at) }
{
    if line.len() < at {
        return None;
    }
    let end = find(line, at, b' ');
    Some(Field {
        start: at,
        end,
        next: end + 1,
    })
}

// The number, from 1, of the field that starts at `at`, or would start there behind the end. It is no
// method of a scan, since a sentence also names the field before the one at which a scan stands.
pub fn ordinal(line: &[u8], at: usize) -> usize
    ensures { result ≡ ordinal_of line.now at }
{
    let before = &line[..at.min(line.len())];
    let spaces = before.iter().filter(|b| **b == b' ').count();
    1 + spaces + usize::from(line.len() < at)
}
