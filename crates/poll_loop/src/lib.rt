// The passes of a poll (machine.rs, the loop of `poll`).
#![tactic(auto)]

ghost use Rattle.poll_loop.specs.Passes.{three_passes, Leaves};

use events::Log;
use items::{Items, Listed};
use state::{Given, State};

// What the passes tell beside the state that they leave: whether the link ended, and how many items they listed.
#[derive(Clone, Copy)]
pub struct Passed {
    pub ended: bool,
    pub count: usize,
}

// At most three passes, left from inside where the link has ended or no item is left to list. The label is part of the
// form that document 01 names.
pub fn passes(s: &mut State, g: Given, spread: i32, log: &mut Log) -> Passed
    ensures { Leaves (three_passes s.old g spread) log.old s.new result.ended result.count log.new }
{
    let mut listed = Listed::new();
    let mut ended = false;
    'passes: for _pass in 0..3u8 {
        if ended {
            break 'passes;
        }
        let items = poll_listing::collect(s, g.now, &listed);
        if items.is_empty() {
            break 'passes;
        }
        listed.extend(&items);
        ended = poll_pass::run(s, g, spread, &items, ended, log);
    }
    Passed {
        ended,
        count: listed.len(),
    }
}
