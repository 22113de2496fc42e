// The arguments of a call: a row of numbers, in which a flag is 0 or 1, an index and a number that may
// be absent take two places, and a number with a sign stands 2^31 above itself. No function has a
// `requires`: past the end of the row a number is 0, and a number that a narrower type does not hold
// becomes its largest. `byte` and `word` differ in that type, and `index` and `when` in the record that
// they make; a function for a pair would take the conversion and the largest number, or what makes the
// record, to save a body of one line or two. The row stays, since
// promises of text_calls and of what stands above it say which argument stands at which place.
#![tactic(auto)]

ghost use Rattle.std.specs.Prelude.{◌≡◌, ◌+◌};
ghost use Rattle.text_args.specs.Args.{number_at, flag_at, byte_at, word_at, signed_at, index_at, when_at, extra_at, largest_word};
ghost use Rattle.time.specs.Time.{least};

use epoch::Index;
use time::When;

// How many numbers a row has.
pub const ARGS: usize = 16;

// What 0 is in a place that holds a number with a sign.
const ZERO: u64 = 2147483648;

// The number at `i`.
pub fn number(a: &[u64; ARGS], i: usize) -> u64
    ensures { result ≡ number_at a.now i }
{
    at(a, i)
}

// The number at `i` as a length or a place of a buffer.
pub fn size(a: &[u64; ARGS], i: usize) -> usize
    ensures { result ≡ number_at a.now i }
{
    number(a, i) as usize
}

#[tactic(auto, unfolding(crate::specs::Args::flag_at))]
pub fn flag(a: &[u64; ARGS], i: usize) -> bool
    ensures { result ≡ flag_at a.now i }
{
    number(a, i) == 1
}

#[tactic(auto, using(time::proofs::Std::std_words, time::specs::Pick::picks), unfolding(crate::specs::Args::byte_at, time::specs::Time::least))]
pub fn byte(a: &[u64; ARGS], i: usize) -> u8
    ensures { result ≡ byte_at a.now i }
{
    u8::try_from(number(a, i)).unwrap_or(255)
}

#[tactic(auto, unfolding(crate::specs::Args::word_at))]
pub fn word(a: &[u64; ARGS], i: usize) -> u32
    ensures { result ≡ word_at a.now i }
{
    narrow(number(a, i))
}

#[tactic(auto, unfolding(crate::specs::Args::signed_at))]
pub fn signed(a: &[u64; ARGS], i: usize) -> i32
    ensures { result ≡ signed_at a.now i }
{
    (i64::from(word(a, i)) - ZERO as i64) as i32
}

// The index whose flag is at `i` and whose number is behind it.
#[tactic(auto, unfolding(crate::specs::Args::index_at, crate::specs::Args::word_at))]
pub fn index(a: &[u64; ARGS], i: usize) -> Index
    ensures { result ≡ index_at a.now i }
{
    Index {
        some: flag(a, i),
        index: narrow(behind(a, i)),
    }
}

// The number that may be absent, whose flag is at `i` and whose value is behind it.
#[tactic(auto, unfolding(crate::specs::Args::when_at))]
pub fn when(a: &[u64; ARGS], i: usize) -> When
    ensures { result ≡ when_at a.now i }
{
    let some = flag(a, i);
    let at = behind(a, i);
    When { some, at }
}

// The extra of a poll. One below 0 becomes the largest: both are outside of every setting.
#[tactic(auto, using(time::specs::Pick::picks), unfolding(crate::specs::Args::extra_at))]
pub fn extra(a: &[u64; ARGS], i: usize) -> u32
    ensures { result ≡ extra_at a.now i }
{
    number(a, i).checked_sub(ZERO).map_or(u32::MAX, narrow)
}

#[tactic(auto, using(std::proofs::lemmas::Grind::common_steps), unfolding(crate::specs::Args::number_at))]
fn at(a: &[u64], i: usize) -> u64
    ensures { result ≡ number_at a.now i }
{
    a.get(i).copied().unwrap_or(0)
}

// The number one place behind `i`.
#[tactic(auto, using(std::proofs::lemmas::Grind::common_steps), unfolding(crate::specs::Args::number_at))]
fn behind(a: &[u64], i: usize) -> u64
    ensures { result ≡ number_at a.now (i + 1) }
{
    i.checked_add(1).map_or(0, |next| at(a, next))
}

#[tactic(auto, using(time::specs::Pick::picks), unfolding(time::specs::Time::least))]
fn narrow(n: u64) -> u32
    ensures { result ≡ least n largest_word }
{
    u32::try_from(n).unwrap_or(u32::MAX)
}
