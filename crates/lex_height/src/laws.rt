//! The laws of values: each is the clause of a function that does nothing.

ghost use Rattle.lex_height.specs.Values.{OneForm, ValuesAreOrdered};

/// The law that a value has one form in lowest terms.
pub fn one_form()
    ensures { OneForm }
{}

/// The law that [`Lex::cmp`](crate::Lex::cmp) is a total order.
pub fn ordered()
    ensures { ValuesAreOrdered }
{}
