// The ratio of two sums of one unit. Mass, charge and conductivity are held apart by their types: a check leaves its unit here,
// and nowhere else.
ghost use Rattle.std.specs.Prelude.{◌≡◌, ℕ, ◌*◌, ◌^◌, ◌<◌};
ghost use Rattle.judge.specs.Corners.{fraction, above};

use reading::Mass;
use solution::{Charge, Conductivity};

// What a ratio is of: an amount in a unit of its own.
pub trait Quantity {
    ghost amount: { Self → ℕ };

    // Without its unit.
    fn amount(self) -> u64
        ensures { result ≡ amount self };
}

impl Quantity for Mass {
    ghost amount = { λ q. q.0 };

    fn amount(self) -> u64 {
        self.0
    }
}

impl Quantity for Charge {
    ghost amount = { λ q. q.0 };

    fn amount(self) -> u64 {
        self.0
    }
}

impl Quantity for Conductivity {
    ghost amount = { λ q. q.0 };

    fn amount(self) -> u64 {
        self.0
    }
}

#[derive(Clone, Copy, Debug, PartialEq, Eq)]
pub struct Fraction {
    pub numerator: u64,
    pub denominator: u64,
}

impl Fraction {
    // Of two numbers, as the ends of a window are.
    pub fn new(numerator: u64, denominator: u64) -> Fraction
        ensures { result ≡ fraction numerator denominator }
    {
        Fraction {
            numerator,
            denominator,
        }
    }

    // Of two sums, which are of one unit.
    pub fn of<Q: Quantity>(one: Q, other: Q) -> Fraction
        ensures { result ≡ fraction (Q.amount one) (Q.amount other) }
    {
        Fraction::new(one.amount(), other.amount())
    }

    // Whether it is above another; where the ends of a ratio are not reached, at least that. In 64 bits: products of 128 would ask
    // nothing of a caller, but take 3 to 4 ns more for a record, in plain Rust of the same shape.
    pub fn is_above(self, other: Fraction, reached: bool) -> bool
        requires { (other.numerator * self.denominator < 2 ^ 64) × (other.denominator * self.numerator < 2 ^ 64) }
        ensures { result ≡ above reached self.numerator self.denominator other.numerator other.denominator }
    {
        let left = other.numerator * self.denominator;
        let right = other.denominator * self.numerator;
        if reached { left < right } else { left <= right }
    }
}
