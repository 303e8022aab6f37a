ghost use Rattle.std.specs.Prelude.{◌≡◌, ◌∷◌, [], ◌-◌, ℕ};
ghost use Rattle.cayley.specs.Dependencies.{number_at};
ghost use Rattle.cayley.specs.Signs as signs;
ghost use Rattle.circuit.specs.Circuits.{HasForm};
ghost use Rattle.inner_normal.specs.Coefficients.{pairs_of};

use cayley::Sign;
use int_vectors::IntVec;

/// A dependency of the 2n points of a cell and one further point: its coefficients add up to zero on
/// each support, and so do the coordinates times them.
#[derive(Debug, Drop)]
pub struct Circuit {
    /// In the order a1, b1, .., an, bn, c, where (a_i, b_i) is the pair of support i and c the
    /// further point.
    pub coefficients: IntVec,
    /// The coefficient of the further point, at least 1.
    pub scale: i128,
    /// The support of the further point, which counts from 1.
    pub support: u32,
}

fn sign_of(x: i128) -> Sign
    ensures { result ≡ signs.sign_of x }
{
    if x < 0 {
        Sign::Minus
    } else if x == 0 {
        Sign::Zero
    } else {
        Sign::Plus
    }
}

impl Circuit {
    /// The signs of the three coefficients of the circuit's support: of the first and the second
    /// point of its pair, and of the further point, which is `Plus`.
    pub fn signs(&self) -> [Sign; 3]
        requires { (n : ℕ) × HasForm n self.now }
        ensures { let pair = number_at (pairs_of self.now.coefficients) (self.now.support - 1) in
            result ≡ signs.sign_of pair.0 ∷ signs.sign_of pair.1 ∷ Sign.Plus ∷ [] }
    {
        let place = 2 * (self.support as usize - 1);
        let first = sign_of(self.coefficients.get(place));
        let second = sign_of(self.coefficients.get(place + 1));
        [first, second, Sign::Plus]
    }
}
