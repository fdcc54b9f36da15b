// Sums within a unit. A mass is added to a mass alone, and so are a charge, a conductivity and a strength to their like: no sum
// takes two units. Private to this crate, since a sum asks something of its caller, room in 64 bits, and no call that another
// crate can make asks anything.
ghost use Rattle.std.specs.Prelude.{◌≡◌, ℕ, ◌+◌, ◌^◌, ◌<◌};

use crate::{Charge, Conductivity};
use activity::IonicStrength;
use reading::Mass;

// What is added up: an amount in a unit of its own.
pub(crate) trait Summed {
    ghost amount: { Self → ℕ };

    fn plus(self, other: Self) -> Self
        requires { amount self + amount other < 2 ^ 64 }
        ensures { amount result ≡ amount self + amount other };
}

impl Summed for Mass {
    ghost amount = { λ m. m.0 };

    fn plus(self, other: Mass) -> Mass {
        Mass(self.0 + other.0)
    }
}

impl Summed for Charge {
    ghost amount = { λ c. c.0 };

    fn plus(self, other: Charge) -> Charge {
        Charge(self.0 + other.0)
    }
}

impl Summed for Conductivity {
    ghost amount = { λ c. c.0 };

    fn plus(self, other: Conductivity) -> Conductivity {
        Conductivity(self.0 + other.0)
    }
}

impl Summed for IonicStrength {
    ghost amount = { λ s. s.0 };

    fn plus(self, other: IonicStrength) -> IonicStrength {
        IonicStrength(self.0 + other.0)
    }
}
