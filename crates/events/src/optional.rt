// What an event's flag and number may be made of: a number that may be absent, as it stands, or an option.
ghost use Rattle.std.specs.Prelude.{◌≡◌};
ghost use Rattle.time.specs.declared.When.{When as MayBe};
ghost use Rattle.time.specs.Options.{when_of};

use time::When;

// What stands for a number that may be absent.
pub trait Optional {
    // The number with its flag. Where the flag says that it is absent the number stands there all the same.
    ghost told_of: { Self → MayBe };

    // The number with its flag.
    fn to_told(self) -> When
        ensures { result ≡ told_of self };
}

impl Optional for When {
    ghost told_of = { λ w. w };

    fn to_told(self) -> When {
        self
    }
}

impl Optional for Option<u64> {
    ghost told_of = { when_of };

    fn to_told(self) -> When {
        When::from(self)
    }
}
