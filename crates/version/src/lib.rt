// The limits that differ between versions of the sheet's layout. All who read a sheet take them as one record.
#![tactic(auto)]

ghost use Rattle.std.specs.Prelude.{◌≡◌};
ghost use Rattle.version.specs.Limits.{name_fits};

use std::marker::Model;

// Any values of what differs.
#[derive(Clone, Copy)]
pub struct Numbers {
    // the most digits of a number
    pub digits: usize,
    // the greatest name
    pub greatest: u64,
    // whether a step may be marked as cloth
    pub cloth: bool,
    // whether a start line follows each head
    pub starts: bool,
}

// Numbers that keep to the limits. Clauses see the numbers alone.
#[derive(Clone, Copy)]
pub struct Version {
    pub numbers: Numbers,
}

impl Model for Version {
    ghost use Rattle.version.specs.declared.Numbers.{Numbers};

    ghost Value = { Numbers };

    ghost use Rattle.version.specs.Limits.{Limits};

    ghost view = { λ v. v.numbers };

    ghost inverse = { λ n. record { numbers = n } };

    ghost invariant = { λ v. Limits v.numbers };
}

impl Version {
    // 01's: five digits, names to 65,535, no marks, no start lines.
    pub const SCOPE: Version = Version {
        numbers: Numbers {
            digits: 5,
            greatest: 65535,
            cloth: false,
            starts: false,
        },
    };
    // The present one: ten digits, names to 4,294,967,295, steps that may be marked, and start lines.
    pub const PRESENT: Version = Version {
        numbers: Numbers {
            digits: 10,
            greatest: 4294967295,
            cloth: true,
            starts: true,
        },
    };
}

impl Numbers {
    #[tactic(auto, unfolding(crate::specs::Limits::name_fits))]
    pub fn name_fits(self, n: u64) -> bool
        ensures { result ≡ name_fits self n }
    {
        (1..=self.greatest).contains(&n)
    }
}
