// A polynomial, read symbol by symbol. What is open stands in a list, so that no depth of parentheses
// takes more than that.
ghost use Rattle.std.specs.Prelude.{◌≡◌, ℕ, true, IfOk, IfErr};
ghost use Rattle.poly_text.specs.declared.reading.Base.{Base};
ghost use Rattle.poly_text.specs.Bounds as spec;
ghost use Rattle.poly_text.specs.Trees as trees;
ghost use Rattle.poly_text.specs.Trees.{both, base_power, base_value, exponent, variable_power, within};
ghost use Rattle.poly_text.specs.Steps as steps;
ghost use Rattle.poly_text.specs.Steps.{begun, ended, read_from, with_atom, with_digits, with_exponent, with_sign, with_times, with_power, with_open, with_close};
ghost use Rattle.poly_text.specs.Reading.{Follows, state_of, same};

use crate::causes::Cause;
use crate::collected::Collected;
use crate::limits::{OPEN, POWER};
use crate::symbols::Symbol;
use crate::terms::{Terms, added, constant, multiplied, power_of_variable, raised};
use cayley::COORDINATE;
use std::alloc::Global;
use wide_int::{OutOfMemory, difference};

// What stands before the next symbol.
#[derive(Clone, Copy)]
pub(crate) enum Place {
    // the beginning of a polynomial
    Start,
    // a sign or `*`
    Operator,
    // an atom
    Atom,
    // `^`
    Power,
    // `^` and `-`
    Negative,
    // an exponent
    Raised,
}

// A factor without its exponent.
#[derive(Drop)]
pub(crate) enum Base {
    Named(Option<i128>),
    Valued(Result<Terms, Cause>),
}

// A polynomial that is being read: the sum of the terms before the one that is open, the sign of that
// one, and the product of its factors so far.
#[derive(Drop)]
pub(crate) struct Part {
    sum: Result<Collected, Cause>,
    minus: bool,
    product: Result<Terms, Cause>,
}

// What was read so far.
#[derive(Drop)]
pub(crate) struct Reader {
    outer: Vec<Part>,
    part: Part,
    place: Place,
    base: Base,
}

// Why reading ends.
#[derive(Clone, Copy)]
pub(crate) enum Stop {
    Grammar,
    OutOfMemory,
}

type Verdict = Result<Terms, Cause>;

fn new_part(alloc: Global, n: usize) -> Result<Part, OutOfMemory>
    ensures { IfOk result (λ part. part ≡ steps.new_part n) }
{
    let one = constant(alloc, n, 1)?;
    Ok(Part {
        sum: Ok(Collected::new(alloc)),
        minus: false,
        product: Ok(one),
    })
}

// An atom with the exponent `k`.
fn power(alloc: Global, n: usize, base: Base, k: Option<i128>) -> Result<Verdict, OutOfMemory>
    ensures { IfOk result (λ v. v ≡ base_power n base k) }
{
    let Some(k) = k else {
        return Ok(Err(Cause::Range));
    };
    match base {
        Base::Named(i) => variable(alloc, n, i, k),
        Base::Valued(value) => value_power(alloc, n, value, k),
    }
}

fn variable(alloc: Global, n: usize, i: Option<i128>, k: i128) -> Result<Verdict, OutOfMemory>
    ensures { IfOk result (λ v. v ≡ variable_power n i k) }
{
    let Some(i) = i else {
        return Ok(Err(Cause::Range));
    };
    let limit = COORDINATE as i128;
    if i < 1 || (n as i128) < i || k < -limit || limit < k {
        return Ok(Err(Cause::Range));
    }
    let terms = power_of_variable(alloc, n, i, k)?;
    Ok(Ok(terms))
}

fn value_power(alloc: Global, n: usize, value: Verdict, k: i128) -> Result<Verdict, OutOfMemory>
    ensures { IfOk result (λ v. v ≡ trees.value_power n value k) }
{
    if k < 0 || (POWER as i128) < k {
        return Ok(Err(Cause::Range));
    }
    let terms = match value {
        Ok(terms) => terms,
        Err(cause) => return Ok(Err(cause)),
    };
    raised(alloc, n, &terms, k as usize)
}

// Digits as an atom.
fn number_value(alloc: Global, n: usize, number: Option<i128>) -> Result<Verdict, OutOfMemory>
    ensures { IfOk result (λ v. v ≡ trees.number n number) }
{
    match number {
        Some(z) => {
            let terms = constant(alloc, n, z)?;
            Ok(Ok(terms))
        }
        None => Ok(Err(Cause::Range)),
    }
}

// An atom without an exponent.
fn factor(alloc: Global, n: usize, base: Base) -> Result<Verdict, OutOfMemory>
    ensures { IfOk result (λ v. v ≡ base_value n base) }
{
    match base {
        Base::Named(i) => variable(alloc, n, i, 1),
        Base::Valued(value) => Ok(value),
    }
}

// The worse of two causes: what is out of range goes first.
fn worse(left: Cause, right: Cause) -> Cause
    ensures range { left ≡ Cause.Range → result ≡ Cause.Range }
    ensures bound { left ≡ Cause.Bound → result ≡ right }
{
    match left {
        Cause::Range => Cause::Range,
        Cause::Bound => right,
    }
}

fn product(alloc: Global, left: Verdict, right: Verdict) -> Result<Verdict, OutOfMemory>
    ensures { IfOk result (λ v. v ≡ both spec.multiplied left right) }
{
    match left {
        Err(cause) => match right {
            Err(other) => Ok(Err(worse(cause, other))),
            Ok(_) => Ok(Err(cause)),
        },
        Ok(f) => match right {
            Err(cause) => Ok(Err(cause)),
            Ok(g) => multiplied(alloc, &f, &g),
        },
    }
}

fn total(
    alloc: Global,
    minus: bool,
    sum: Result<Collected, Cause>,
    term: Verdict,
) -> Result<Result<Collected, Cause>, OutOfMemory>
    ensures { IfOk result (λ v. v ≡ both (spec.added minus) sum term) }
{
    match sum {
        Err(cause) => match term {
            Err(other) => Ok(Err(worse(cause, other))),
            Ok(_) => Ok(Err(cause)),
        },
        Ok(f) => match term {
            Err(cause) => Ok(Err(cause)),
            Ok(g) => added(alloc, minus, f, &g),
        },
    }
}

// The sum with the open term.
fn closed(
    alloc: Global,
    n: usize,
    part: Part,
    base: Base,
) -> Result<Result<Collected, Cause>, OutOfMemory>
    ensures { IfOk result (λ v. v ≡ steps.closed n part base) }
{
    let Part {
        sum,
        minus,
        product: before,
    } = part;
    let last = factor(alloc, n, base)?;
    let term = product(alloc, before, last)?;
    total(alloc, minus, sum, term)
}

// The value of a whole polynomial.
fn finished(alloc: Global, sum: Result<Collected, Cause>) -> Result<Verdict, OutOfMemory>
    ensures { IfOk result (λ v. v ≡ sum) }
{
    let sum = match sum {
        Ok(sum) => sum,
        Err(cause) => return Ok(Err(cause)),
    };
    let terms = sum.into_terms(alloc)?;
    Ok(Ok(terms))
}

// The number with its sign turned; none where that doesn't fit, and then it is past each limit of an exponent.
fn negative(number: Option<i128>) -> Option<i128>
    ensures { (n : ℕ) (b : Base) → base_power n b result ≡ base_power n b (exponent true number) }
{
    match number {
        Some(z) => difference(0, z),
        None => None,
    }
}

// The value of a polynomial in parentheses, of which so many are open.
fn enclosed(
    alloc: Global,
    depth: usize,
    sum: Result<Collected, Cause>,
) -> Result<Verdict, OutOfMemory>
    ensures { IfOk result (λ v. v ≡ within depth sum) }
{
    let sum = match sum {
        Ok(sum) => sum,
        Err(cause) => return Ok(Err(cause)),
    };
    if OPEN < depth {
        return Ok(Err(Cause::Bound));
    }
    let terms = sum.into_terms(alloc)?;
    Ok(Ok(terms))
}

// Whether a factor may stand behind this place.
fn awaits_factor(place: Place) -> bool
    ensures { result ≡ steps.awaits_factor place }
{
    matches!(place, Place::Start | Place::Operator)
}

// Whether a factor may end at this place.
fn ends_factor(place: Place) -> bool
    ensures { result ≡ steps.ends_factor place }
{
    matches!(place, Place::Atom | Place::Raised)
}

impl Reader {
    // Nothing is read.
    pub(crate) fn new(alloc: Global, n: usize) -> Result<Reader, Stop>
        ensures reading { IfOk result (λ r. state_of r ≡ begun n) }
        ensures memory { IfErr result (λ e. e ≡ Stop.OutOfMemory) }
    {
        let Ok(part) = new_part(alloc, n) else {
            return Err(Stop::OutOfMemory);
        };
        Ok(Reader {
            outer: Vec::new(alloc),
            part,
            place: Place::Start,
            base: Base::Named(None),
        })
    }

    // Reads one symbol more.
    #[tactic(auto, unfolding(crate::specs::Steps::step))]
    pub(crate) fn step(self, alloc: Global, n: usize, symbol: Symbol) -> Result<Reader, Stop>
        ensures { Follows state_of result (steps.step n (state_of self) symbol) }
    {
        match symbol {
            Symbol::Digits(number) => self.digits(alloc, n, number),
            Symbol::Variable(i) => self.atom(Base::Named(i)),
            Symbol::Sign(minus) => self.sign(alloc, n, minus),
            Symbol::Times => self.times(alloc, n),
            Symbol::Power => self.caret(),
            Symbol::Open => self.open(alloc, n),
            Symbol::Close => self.close(alloc, n),
        }
    }

    fn atom(self, base: Base) -> Result<Reader, Stop>
        ensures { Follows state_of result (with_atom (state_of self) base) }
    {
        if !awaits_factor(self.place) {
            return Err(Stop::Grammar);
        }
        let Reader {
            outer,
            part,
            place: _place,
            base: _base,
        } = self;
        Ok(Reader {
            outer,
            part,
            place: Place::Atom,
            base,
        })
    }

    fn digits(self, alloc: Global, n: usize, number: Option<i128>) -> Result<Reader, Stop>
        ensures { Follows state_of result (with_digits n self.place (state_of self) number) }
    {
        match self.place {
            Place::Power => self.exponent(alloc, n, number),
            Place::Negative => self.exponent(alloc, n, negative(number)),
            _ => {
                let Ok(value) = number_value(alloc, n, number) else {
                    return Err(Stop::OutOfMemory);
                };
                self.atom(Base::Valued(value))
            }
        }
    }

    fn exponent(self, alloc: Global, n: usize, k: Option<i128>) -> Result<Reader, Stop>
        ensures { Follows state_of result (with_exponent n (state_of self) k) }
    {
        let Reader {
            outer,
            part,
            place: _place,
            base,
        } = self;
        let Ok(value) = power(alloc, n, base, k) else {
            return Err(Stop::OutOfMemory);
        };
        Ok(Reader {
            outer,
            part,
            place: Place::Raised,
            base: Base::Valued(value),
        })
    }

    fn sign(self, alloc: Global, n: usize, minus: bool) -> Result<Reader, Stop>
        ensures { Follows state_of result (with_sign n self.place (state_of self) minus) }
    {
        let Reader {
            outer,
            part,
            place,
            base,
        } = self;
        match place {
            Place::Start => {
                let Part {
                    sum,
                    minus: _minus,
                    product,
                } = part;
                Ok(Reader {
                    outer,
                    part: Part {
                        sum,
                        minus,
                        product,
                    },
                    place: Place::Operator,
                    base,
                })
            }
            Place::Power => {
                if !minus {
                    return Err(Stop::Grammar);
                }
                Ok(Reader {
                    outer,
                    part,
                    place: Place::Negative,
                    base,
                })
            }
            Place::Atom | Place::Raised => {
                let Ok(sum) = closed(alloc, n, part, base) else {
                    return Err(Stop::OutOfMemory);
                };
                let Ok(one) = constant(alloc, n, 1) else {
                    return Err(Stop::OutOfMemory);
                };
                let part = Part {
                    sum,
                    minus,
                    product: Ok(one),
                };
                Ok(Reader {
                    outer,
                    part,
                    place: Place::Operator,
                    base: Base::Named(None),
                })
            }
            _ => Err(Stop::Grammar),
        }
    }

    fn times(self, alloc: Global, n: usize) -> Result<Reader, Stop>
        ensures { Follows state_of result (with_times n (state_of self)) }
    {
        if !ends_factor(self.place) {
            return Err(Stop::Grammar);
        }
        let Reader {
            outer,
            part,
            place: _place,
            base,
        } = self;
        let Part {
            sum,
            minus,
            product: before,
        } = part;
        let Ok(last) = factor(alloc, n, base) else {
            return Err(Stop::OutOfMemory);
        };
        let Ok(product) = product(alloc, before, last) else {
            return Err(Stop::OutOfMemory);
        };
        Ok(Reader {
            outer,
            part: Part {
                sum,
                minus,
                product,
            },
            place: Place::Operator,
            base: Base::Named(None),
        })
    }

    fn caret(self) -> Result<Reader, Stop>
        ensures { Follows state_of result (with_power self.place (state_of self)) }
    {
        let Reader {
            outer,
            part,
            place,
            base,
        } = self;
        match place {
            Place::Atom => Ok(Reader {
                outer,
                part,
                place: Place::Power,
                base,
            }),
            _ => Err(Stop::Grammar),
        }
    }

    fn open(self, alloc: Global, n: usize) -> Result<Reader, Stop>
        ensures { Follows state_of result (with_open n (state_of self)) }
    {
        if !awaits_factor(self.place) {
            return Err(Stop::Grammar);
        }
        let Reader {
            outer,
            part,
            place: _place,
            base: _base,
        } = self;
        let mut outer = outer;
        if outer.push(part).is_err() {
            return Err(Stop::OutOfMemory);
        }
        let Ok(part) = new_part(alloc, n) else {
            return Err(Stop::OutOfMemory);
        };
        Ok(Reader {
            outer,
            part,
            place: Place::Start,
            base: Base::Named(None),
        })
    }

    fn close(self, alloc: Global, n: usize) -> Result<Reader, Stop>
        ensures { Follows state_of result (with_close n (state_of self)) }
    {
        if !ends_factor(self.place) {
            return Err(Stop::Grammar);
        }
        let Reader {
            outer,
            part,
            place: _place,
            base,
        } = self;
        let mut outer = outer;
        let depth = outer.len();
        let Some(around) = outer.pop() else {
            return Err(Stop::Grammar);
        };
        let Ok(sum) = closed(alloc, n, part, base) else {
            return Err(Stop::OutOfMemory);
        };
        let Ok(value) = enclosed(alloc, depth, sum) else {
            return Err(Stop::OutOfMemory);
        };
        Ok(Reader {
            outer,
            part: around,
            place: Place::Atom,
            base: Base::Valued(value),
        })
    }

    // The value of the whole polynomial.
    #[tactic(auto, unfolding(crate::specs::Steps::ended))]
    pub(crate) fn end(self, alloc: Global, n: usize) -> Result<Verdict, Stop>
        ensures { Follows same result (ended n (state_of self)) }
    {
        if !ends_factor(self.place) {
            return Err(Stop::Grammar);
        }
        if !self.outer.is_empty() {
            return Err(Stop::Grammar);
        }
        let Reader {
            outer: _outer,
            part,
            place: _place,
            base,
        } = self;
        let Ok(sum) = closed(alloc, n, part, base) else {
            return Err(Stop::OutOfMemory);
        };
        match finished(alloc, sum) {
            Ok(value) => Ok(value),
            Err(_) => Err(Stop::OutOfMemory),
        }
    }
}

// The value of the polynomial that the symbols write.
pub(crate) fn read_polynomial(alloc: Global, n: usize, symbols: &[Symbol]) -> Result<Verdict, Stop>
    ensures { Follows same result (read_from n symbols.now (begun n)) }
{
    let mut reader = Reader::new(alloc, n)?;
    for symbol in symbols {
        reader = reader.step(alloc, n, *symbol)?;
    }
    reader.end(alloc, n)
}
