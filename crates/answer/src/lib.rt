// What a call answers, and the two ways out of one: sent back by a number, or finished. Every call
// that hands a state back ends here.
#![tactic(auto)]

ghost use Rattle.std.specs.Prelude.{◌≡◌};
ghost use Rattle.answer.specs.Answers.{back_with, taken_with};

use refusal::Back;
use state::State;

// The refusal's number, 0 where there is none, with the check's place in 1; the state; how many
// events the log has; and how many items the passes of a poll listed. It crosses to C, where a number
// stands for the refusal.
#[repr(C)]
#[derive(Clone, Copy)]
pub struct Answer {
    pub number: u8,
    pub place: u8,
    pub state: State,
    pub len: usize,
    pub count: usize,
}

// A call that is sent back: the number alone, with the state that it was given.
pub fn sent_back<B: Back>(back: B, s: State) -> Answer
    ensures { result ≡ back_with (B.back_of back) s }
{
    let (number, place) = back.to_numbers();
    Answer {
        number,
        place,
        state: s,
        len: 0,
        count: 0,
    }
}

// An accepted call: the state that it leaves, its events and its items.
pub fn finish(s: State, len: usize, count: usize) -> Answer
    ensures { result ≡ taken_with s len count }
{
    Answer {
        number: 0,
        place: 0,
        state: s,
        len,
        count,
    }
}
