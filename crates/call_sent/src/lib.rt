// The current epoch's sent count is told.
#![tactic(auto)]

ghost use Rattle.std.specs.Prelude.{◌≡◌, []};
ghost use Rattle.refusal.specs.Refused.{refused_of};
ghost use Rattle.refusal.specs.Refusal.{numbered};
ghost use Rattle.answer.specs.Answers.{Answers};
ghost use Rattle.call_sent.specs.Told.{below_held, told_number, told_state, told_of};
ghost use Rattle.call_sent.specs.Exact.{ToldExact};

use answer::Answer;
use refusal::Refusal;
use state::State;

// 11: a count below the held one.
#[tactic(auto, unfolding(crate::specs::Told::below_held))]
fn below(s: &State, count: u64) -> bool
    ensures { result ≡ below_held s.now.cur.some s.now.cur.ep.sent count }
{
    s.cur.some && count < s.cur.ep.sent
}

// 3 to 6, then 11.
fn told_back(s: &State, count: u64) -> Result<(), Refusal>
    ensures { refused_of result ≡ numbered (told_number s.now count) }
{
    refusal::before_told(s)?;
    if below(s, count) {
        return Err(Refusal::Sent);
    }
    Ok(())
}

#[tactic(auto, unfolding(crate::specs::Told::told_state))]
fn put_sent(mut s: State, count: u64) -> State
    ensures { result ≡ told_state s count }
{
    if s.cur.some {
        s.cur.ep.sent = count;
    }
    s
}

// The current epoch's sent count is told at `time`. Every call has an instant, with which it is
// logged; this one's answer does not depend on it. A refused call hands back the state that it was
// given.
pub fn told(s: State, time: u64, count: u64) -> Answer
    ensures told { Answers (told_of s count) result [] [] }
    ensures exact { ToldExact s count (told_of s count) }
{
    match told_back(&s, count) {
        Err(back) => answer::sent_back(back, s),
        Ok(()) => answer::finish(put_sent(s, count), 0, 0),
    }
}
