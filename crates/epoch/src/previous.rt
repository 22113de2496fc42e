// The epoch that is kept after a cutover, by its tag. The methods are those of `MayEpoch`, of another record, which C lays
// out.
ghost use Rattle.std.specs.Prelude.{◌≡◌};
ghost use Rattle.std.specs.Bool.{then_some};
ghost use Rattle.epoch.specs.Held.{is_tag};

use crate::Drain;

impl Drain {
    // The epoch's tag, where there is one.
    pub fn tag(&self) -> Option<u64>
        ensures { result ≡ then_some self.now.some self.now.ep.tag }
    {
        self.some.then_some(self.ep.tag)
    }

    // Whether an epoch is held under `tag`.
    #[tactic(auto, unfolding(crate::specs::Held::is_tag))]
    pub fn is_tag(&self, tag: u64) -> bool
        ensures { result ≡ is_tag self.now.some self.now.ep.tag tag }
    {
        self.some && self.ep.tag == tag
    }
}
