ghost use Rattle.std.specs.Prelude.{◌≡◌, ◌≢◌, ◌↔◌, IsNone, IfSome};
ghost use Rattle.cayley.specs.declared.found.Sign.{Sign};
ghost use Rattle.flip_rule.specs.Signs.{HasMinus};

use cayley::Sign;
use std::marker::Model;

/// The signs at the two points of a pair of a dependency that is positive at the further point.
///
/// The numbers at the three points of the support add up to zero, so one of the two signs is
/// `Minus`.
#[derive(Drop)]
pub struct Signs {
    a: Sign,
    b: Sign,
}

impl Model for Signs {
    ghost use Rattle.cayley.specs.declared.found.Sign.{Sign};
    ghost use Rattle.flip_rule.specs.Signs.{HasMinus};

    ghost Value = { Sign × Sign };

    ghost view = { λ s. (s.a, s.b) };

    ghost invariant = { λ s. HasMinus (s.a, s.b) };
}

impl Signs {
    /// The signs at the first and at the second point of the pair. `None` exactly where neither is
    /// `Minus`.
    pub fn new(a: Sign, b: Sign) -> Option<Signs>
        ensures none { IsNone result ↔ ((a ≢ Sign.Minus) × (b ≢ Sign.Minus)) }
        ensures same { IfSome result (λ signs. signs ≡ (a, b)) }
    {
        match (a, b) {
            (Sign::Minus, _) | (_, Sign::Minus) => Some(Signs { a, b }),
            _ => None,
        }
    }

    /// The sign at the first point of the pair.
    pub fn a(&self) -> Sign
        ensures same { result ≡ self.now.0 }
        ensures minus { HasMinus self.now }
    {
        self.a
    }

    /// The sign at the second point of the pair.
    pub fn b(&self) -> Sign
        ensures same { result ≡ self.now.1 }
        ensures minus { HasMinus self.now }
    {
        self.b
    }
}
