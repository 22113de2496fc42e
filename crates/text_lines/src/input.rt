// Lines of a reader, through a lent buffer. A line is a part of the buffer, so a line that
// is longer than the buffer is refused; std's readers would keep any line, in memory of their own.
ghost use Rattle.std.specs.Prelude.{◌≡◌, ◌+◌, ◌-◌, ◌≤◌, length, true, Ok};
ghost use Rattle.text.specs.Bytes.{index_of, slice};
ghost use Rattle.text_lines.specs.Inputs.{Filled, Found, waiting, line_end};
ghost use Rattle.io.specs.Counts.{IsPrefixLen};

use std::fmt;
use std::io::Read;

// Why there is no next line, where the input has not ended.
#[derive(Clone, Copy, PartialEq, Eq)]
pub enum Unread {
    Failed,
    TooLong,
}

impl fmt::Display for Unread {
    fn fmt<W: fmt::Write>(&self, f: &mut fmt::Formatter<W>) -> fmt::Result {
        f.write_str(match self {
            Unread::Failed => "the input cannot be read.",
            Unread::TooLong => "the line is too long.",
        })
    }
}

// What a reader still has: more may come, or it has ended, or it cannot be read.
#[derive(Clone, Copy, PartialEq, Eq)]
pub enum Rest {
    More,
    Ended,
    Failed,
}

// A reader and a buffer. The line that was found last lies from `start` to `end`, and the bytes
// that are not read yet from `next` to `filled`.
#[derive(Drop)]
pub struct Input<'a, F> {
    from: &'a mut F,
    buffer: &'a mut [u8],
    start: usize,
    end: usize,
    pub next: usize,
    pub filled: usize,
    pub rest: Rest,
}

impl<'a, F: Read> Input<'a, F> {
    pub fn new(from: &'a mut F, buffer: &'a mut [u8]) -> Input<'a, F>
        ensures from { result.from.ghost_name ≡ from.entry.ghost_name }
        ensures buffer { result.buffer.ghost_name ≡ buffer.entry.ghost_name }
    {
        Input {
            from,
            buffer,
            start: 0,
            end: 0,
            next: 0,
            filled: 0,
            rest: Rest::More,
        }
    }

    // A buffer that holds bytes already, of which those from `next` to `filled` are not read yet, and what the reader
    // still has. Places past the buffer stand for its end.
    pub fn of(
        from: &'a mut F,
        buffer: &'a mut [u8],
        next: usize,
        filled: usize,
        rest: Rest,
    ) -> Input<'a, F>
        ensures from { result.from.ghost_name ≡ from.entry.ghost_name }
        ensures buffer { (result.buffer.ghost_name ≡ buffer.entry.ghost_name) × (result.buffer.now ≡ buffer.old) }
        ensures unread { (result.next ≡ next) × (result.filled ≡ filled) }
        ensures rest { result.rest ≡ rest }
    {
        Input {
            from,
            buffer,
            start: 0,
            end: 0,
            next,
            filled,
            rest,
        }
    }

    // The line that `advance` found, without its newline; none before that.
    pub fn line(&self) -> &[u8]
        ensures { self.now.start ≤ self.now.end → self.now.end ≤ length self.now.buffer.now → result.now ≡ slice self.now.start self.now.end self.now.buffer.now }
    {
        if self.start <= self.end && self.end <= self.buffer.len() {
            &self.buffer[self.start..self.end]
        } else {
            &[]
        }
    }

    // Goes to the next line, and answers whether there is one: there is none at the end.
    pub fn advance(&mut self) -> Result<bool, Unread>
        ensures from { self.new.from.ghost_name ≡ self.old.from.ghost_name }
        ensures buffer { self.new.buffer.ghost_name ≡ self.old.buffer.ghost_name }
        ensures within { (self.new.start ≤ self.new.end) × (self.new.end ≤ length self.new.buffer.now) }
        ensures found { result ≡ Ok true → (Found self.new.buffer.now self.new.start self.new.end self.new.next self.new.filled) }
    {
        self.start = 0;
        self.end = 0;
        self.filled = self.filled.min(self.buffer.len());
        self.next = self.next.min(self.filled);
        loop {
            let next = self.next;
            let filled = self.filled;
            let buffer = &mut *self.buffer;
            let stop = newline(buffer, next, filled);
            if stop < filled {
                self.take(stop, stop + 1);
                return Ok(true);
            }
            match self.rest {
                Rest::Failed => return Err(Unread::Failed),
                Rest::Ended if next == stop => return Ok(false),
                Rest::Ended => {
                    self.take(stop, stop);
                    return Ok(true);
                }
                Rest::More if filled - next == self.buffer.len() => {
                    return Err(Unread::TooLong);
                }
                Rest::More => {
                    let (filled, rest) = fill(self.from, self.buffer, next, filled);
                    self.next = 0;
                    self.filled = filled;
                    self.rest = rest;
                }
            }
        }
    }

    // Whether the next line is not whole in the buffer, so that `advance` reads. A program writes out
    // what it holds before such a read, since the one who types lines waits for the answers.
    #[tactic(auto, unfolding(crate::specs::Inputs::waiting))]
    pub fn waits(&self) -> bool
        ensures { result ≡ waiting self.now.buffer.now self.now.next self.now.filled self.now.rest }
    {
        let filled = self.filled.min(self.buffer.len());
        let next = self.next.min(filled);
        self.rest == Rest::More && newline(self.buffer, next, filled) == filled
    }
}

impl<F> Input<'_, F> {
    // The line lies from `next` to `stop`, and the one after it begins at `behind`.
    fn take(&mut self, stop: usize, behind: usize)
        ensures from { self.new.from.ghost_name ≡ self.old.from.ghost_name }
        ensures same_reference { self.new.buffer.ghost_name ≡ self.old.buffer.ghost_name }
        ensures buffer { self.new.buffer.now ≡ self.old.buffer.now }
        ensures line { (self.new.start ≡ self.old.next) × (self.new.end ≡ stop) }
        ensures rest { (self.new.next ≡ behind) × (self.new.filled ≡ self.old.filled) × (self.new.rest ≡ self.old.rest) }
    {
        self.start = self.next;
        self.end = stop;
        self.next = behind;
    }
}

// How long a line is without the carriage return that a line of some systems ends with.
#[tactic(auto, unfolding(crate::specs::Inputs::line_end))]
pub fn line_end(line: &[u8]) -> usize
    ensures prefix_len { IsPrefixLen result line.now }
    ensures value { result ≡ line_end line.now }
{
    match line {
        [front @ .., b'\r'] => front.len(),
        _ => line.len(),
    }
}

// Where the first newline stands among the bytes from `next` to `filled`, or else `filled`.
fn newline(buffer: &[u8], next: usize, filled: usize) -> usize
    requires { (next ≤ filled) × (filled ≤ length buffer.now) }
    ensures value { result ≡ next + index_of 10 (slice next filled buffer.now) }
    ensures bound { result ≤ filled }
{
    text::find(&buffer[..filled], next, b'\n')
}

// Moves the bytes from `start` to `end` to the front of `buffer`, and reads once behind them.
// Answers how many bytes are held then, and what the reader still has.
fn fill<F: Read>(from: &mut F, buffer: &mut [u8], start: usize, end: usize) -> (usize, Rest)
    requires { (start ≤ end) × (end ≤ length buffer.old) }
    ensures { Filled buffer.old buffer.new start end result.0 result.1 }
{
    let kept = end - start;
    buffer.copy_within(start..end, 0);
    match from.read(&mut buffer[kept..]) {
        Ok(0) => (kept, Rest::Ended),
        Ok(n) => (kept + n, Rest::More),
        Err(_) => (kept, Rest::Failed),
    }
}
