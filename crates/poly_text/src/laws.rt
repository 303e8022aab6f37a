// What is read, and the trees of the grammar.
ghost use Rattle.std.specs.Prelude.{◌≡◌, ℕ, List, Some, Ok, length, true};
ghost use Rattle.int_vectors.specs.Vectors.{Each};
ghost use Rattle.poly_text.specs.declared.symbols.Symbol.{Symbol};
ghost use Rattle.poly_text.specs.Maps.{Monomial};
ghost use Rattle.poly_text.specs.Bounds.{Verdict, is_small};
ghost use Rattle.poly_text.specs.Trees.{Polynomial, meaning, written};
ghost use Rattle.poly_text.specs.Steps.{begun, read_from};

/// The symbols of a polynomial by the grammar are read as what it means, and no others are read; so no two
/// polynomials of one spelling mean different things.
pub fn polynomials_are_read()
    ensures written { (n : ℕ) (p : Polynomial) → read_from n (written p) (begun n) ≡ Some (meaning n 0 p) }
    ensures no_other { (n : ℕ) (symbols : List Symbol) (v : Verdict (List Monomial)) → read_from n symbols (begun n) ≡ Some v
        → (p : Polynomial) × (written p ≡ symbols) × (meaning n 0 p ≡ v) }
{}

/// A value that is read keeps the limits: it has at most 1,000 terms with exponents from -1,000,000 to 1,000,000,
/// one for each variable.
pub fn values_keep_limits()
    ensures lengths { (n : ℕ) (symbols : List Symbol) (f : List Monomial) → read_from n symbols (begun n) ≡ Some (Ok f) → Each f (λ t. length t.0 ≡ n) }
    ensures bounds { (n : ℕ) (symbols : List Symbol) (f : List Monomial) → read_from n symbols (begun n) ≡ Some (Ok f) → is_small f ≡ true }
{}
