// What is given beside a state, in the order of the replay format.
ghost use Rattle.std.specs.Prelude.{◌≡◌};

use crate::Record;
use settings::Config;
use state::Profile;
use text::Fault;
use text_form::{Fields, Slot};

impl Record for Config {
    fn fields<F: Fields>(&mut self, f: &mut F) -> Result<(), Fault> {
        f.field(b"after", Slot::Number(&mut self.after))?;
        f.field(b"jitter", Slot::Half(&mut self.jitter))?;
        f.field(b"messages", Slot::Number(&mut self.messages))?;
        f.field(b"handshake", Slot::Number(&mut self.handshake))?;
        f.field(b"check", Slot::Number(&mut self.check))?;
        f.field(b"drain", Slot::Number(&mut self.drain))?;
        f.field(b"retention", Slot::Number(&mut self.retention))?;
        f.field(b"hold", Slot::Number(&mut self.hold))?;
        f.field(b"revert", Slot::Number(&mut self.revert))?;
        f.field(b"dampening", Slot::Number(&mut self.dampening))?;
        f.field(b"ttl", Slot::Number(&mut self.ttl))?;
        age_fields(self, f)
    }
}

fn age_fields<F: Fields>(cfg: &mut Config, f: &mut F) -> Result<(), Fault>
    ensures { F.line f.new ≡ F.line f.old }
{
    f.field(b"young", Slot::Number(&mut cfg.young))?;
    f.field(b"link_age", Slot::Number(&mut cfg.link_age))?;
    f.field(b"session_age", Slot::Number(&mut cfg.session_age))?;
    f.field(b"floor_link", Slot::Number(&mut cfg.floor_link))?;
    f.field(b"floor_session", Slot::Number(&mut cfg.floor_session))?;
    f.field(b"floor_cutover", Slot::Number(&mut cfg.floor_cutover))?;
    f.field(b"silence", Slot::Number(&mut cfg.silence))?;
    f.field(b"resends", Slot::Byte(&mut cfg.resends, u8::MAX))?;
    f.field(b"soft", Slot::Number(&mut cfg.soft))?;
    f.field(b"hard", Slot::Number(&mut cfg.hard))?;
    f.field(b"delay", Slot::Number(&mut cfg.delay))?;
    f.field(b"arrival", Slot::Flag(&mut cfg.arrival))
}

impl Record for Profile {
    fn fields<F: Fields>(&mut self, f: &mut F) -> Result<(), Fault> {
        f.field(b"messages", Slot::Number(&mut self.messages))?;
        f.field(b"at_proof", Slot::Flag(&mut self.at_proof))?;
        f.field(b"silence", Slot::Flag(&mut self.silence))?;
        f.field(b"smaller", Slot::Flag(&mut self.smaller))?;
        f.field(b"floor", Slot::Number(&mut self.floor))
    }
}
