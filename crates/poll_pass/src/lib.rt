// One pass of a poll (machine.rs, `expire_pass`).
#![tactic(auto)]

ghost use Rattle.std.specs.Prelude.{[]};
ghost use Rattle.poll_pass.specs.Pass.{work_of, pass_of, Runs};

use events::Log;
use items::Items;
use state::{Given, State};

// Every item of a pass in order, also after one that ends the link; whether it has ended.
pub fn run(
    s: &mut State,
    g: Given,
    spread: i32,
    items: &Items,
    mut ended: bool,
    log: &mut Log,
) -> bool
    ensures { Runs (pass_of g spread items.now (work_of s.old [] ended)) log.old s.new result log.new }
{
    for item in items.as_slice() {
        ended |= poll_item::step(s, g, spread, item.due, log);
    }
    ended
}
