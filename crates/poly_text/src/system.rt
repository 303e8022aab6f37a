// Systems of polynomials, read from their bytes.
ghost use Rattle.std.specs.Prelude.{◌≡◌, ◌≢◌, ◌↔◌, [], map, IfOk, IfErr, Some, Ok, Err};
ghost use Rattle.support_text.specs.Faults.{Gives, series};
ghost use Rattle.support_text.specs.Words.{words};
ghost use Rattle.poly_text.specs.SystemText as format;
ghost use Rattle.poly_text.specs.SystemText.{PointSystem, dimension_at, dimension_in, dimension_of, polynomial_at, polynomial_line, polynomial_next, support_in, support_of, support_view, system_of};
ghost use Rattle.poly_text.specs.Systems.{AreSupports, HadMemory, IsFirstFault, IsSystem};
ghost use Rattle.support_text.specs.declared.fault.FormatFault.{FormatFault};
ghost use Rattle.int_vectors.specs.Vectors.{Each};
ghost use Rattle.int_vectors.specs.Fits.{AllFit};

use crate::causes::Cause;
use crate::fault::{Kind, fault_at};
use crate::reading::{Stop, read_polynomial};
use crate::symbols::symbols;
use crate::terms::Terms;
use cayley::DIMENSIONS;
use int_vectors::IntVec;
use line_text::{Line, Lines, read_int};
use std::alloc::Global;
use std::marker::Model;
use support_text::TextFault;

/// The supports of the polynomials of a system: a dimension, and as many supports.
#[derive(Debug, Drop)]
pub struct System {
    dim: usize,
    supports: Vec<Vec<IntVec>>,
}

impl Model for System {
    ghost use Rattle.std.specs.Prelude.{map};
    ghost use Rattle.poly_text.specs.SystemText.{PointSystem, support_view};

    ghost Value = { PointSystem };

    ghost view = { λ s. record { dimension = s.dim; supports = map support_view s.supports.items } };
}

impl System {
    /// The number of variables and of polynomials.
    pub fn dim(&self) -> usize
        ensures { result ≡ self.now.dimension }
    {
        self.dim
    }

    /// The supports in the order of the polynomials. The points of each ascend: the first difference
    /// of two decides.
    pub fn into_supports(self) -> Vec<Vec<IntVec>>
        ensures { map support_view result.items ≡ self.supports }
    {
        self.supports
    }
}

// `system N`
#[tactic(auto, unfolding(crate::specs::SystemText::dimension_in))]
fn dimension_of(line: &mut Line) -> Result<usize, TextFault>
    ensures { Gives (λ n. n) result (format.dimension_of line.old.number (dimension_in (words line.old))) }
{
    let fault = fault_at(line.number(), Kind::System);
    let Some(word) = line.next_token() else {
        return Err(fault);
    };
    let Some(size) = line.next_token() else {
        return Err(fault);
    };
    if line.next_token().is_some() {
        return Err(fault);
    }
    if word.text != b"system".as_slice() {
        return Err(fault);
    }
    let Ok(n) = read_int(&size, 1, DIMENSIONS as i128) else {
        return Err(fault);
    };
    Ok(n as usize)
}

// The first line.
#[tactic(auto, unfolding(crate::specs::SystemText::dimension_at))]
fn dimension(lines: &mut Lines) -> Result<usize, TextFault>
    ensures reading { Gives (λ n. (n, lines.new.rows)) result (dimension_at lines.old.end_line lines.old.rows) }
    ensures end_line { lines.new.end_line ≡ lines.old.end_line }
{
    let Some(line) = lines.next_line() else {
        return Err(fault_at(lines.end_line(), Kind::Missing));
    };
    let mut line = line;
    dimension_of(&mut line)
}

// The exponents of the terms.
fn support(alloc: Global, terms: Terms) -> Result<Vec<IntVec>, TextFault>
    requires { Each terms (λ t. AllFit t.0) }
    ensures points { IfOk result (λ points. points.items ≡ support_of terms) }
    ensures memory { IfErr result (λ e. e ≡ TextFault.OutOfMemory) }
{
    let mut points = Vec::new(alloc);
    for (exponents, _number) in terms.into_entries() {
        if points.push(IntVec::from_vec(exponents)).is_err() {
            return Err(TextFault::OutOfMemory);
        }
    }
    Ok(points)
}

// The support of the value of a polynomial's line.
#[tactic(auto, unfolding(crate::specs::SystemText::polynomial_line))]
fn polynomial(alloc: Global, n: usize, line: &mut Line) -> Result<Vec<IntVec>, TextFault>
    ensures { Gives (λ points. points.items) result (polynomial_line n line.old.number (words line.old)) }
{
    let number = line.number();
    let symbols = symbols(alloc, line)?;
    match read_polynomial(alloc, n, symbols.as_slice()) {
        Ok(Ok(terms)) => {
            let points = support(alloc, terms)?;
            if points.is_empty() {
                return Err(fault_at(number, Kind::Empty));
            }
            Ok(points)
        }
        Ok(Err(Cause::Range)) => Err(fault_at(number, Kind::Range)),
        Ok(Err(Cause::Bound)) => Err(fault_at(number, Kind::Bound)),
        Err(Stop::Grammar) => Err(fault_at(number, Kind::Grammar)),
        Err(Stop::OutOfMemory) => Err(TextFault::OutOfMemory),
    }
}

// The next line.
#[tactic(auto, unfolding(crate::specs::SystemText::polynomial_next))]
fn next_polynomial(alloc: Global, n: usize, lines: &mut Lines) -> Result<Vec<IntVec>, TextFault>
    ensures reading { Gives (λ points. (points.items, lines.new.rows)) result (polynomial_next n lines.old.end_line lines.old.rows) }
    ensures end_line { lines.new.end_line ≡ lines.old.end_line }
{
    let Some(line) = lines.next_line() else {
        return Err(fault_at(lines.end_line(), Kind::Missing));
    };
    let mut line = line;
    polynomial(alloc, n, &mut line)
}

fn polynomials(alloc: Global, n: usize, lines: &mut Lines) -> Result<Vec<Vec<IntVec>>, TextFault>
    ensures reading { Gives (λ supports. (map support_view supports.items, lines.new.rows)) result (series n (polynomial_at n lines.old.end_line) [] lines.old.rows) }
    ensures end_line { lines.new.end_line ≡ lines.old.end_line }
{
    let mut supports = Vec::new(alloc);
    for _turn in 0..n {
        if supports.reserve(1).is_err() {
            return Err(TextFault::OutOfMemory);
        }
        let support = match next_polynomial(alloc, n, lines) {
            Ok(support) => support,
            Err(fault) => return Err(fault),
        };
        supports.push_reserved(support);
    }
    Ok(supports)
}

#[tactic(auto, unfolding(crate::specs::SystemText::no_line))]
fn no_line(lines: &mut Lines) -> Result<(), TextFault>
    ensures { Gives (λ done. tt) result (format.no_line lines.old.rows) }
{
    match lines.next_line() {
        None => Ok(()),
        Some(line) => Err(fault_at(line.number(), Kind::Extra)),
    }
}

// The lines of a system.
#[tactic(auto, unfolding(crate::specs::SystemText::system_of, crate::specs::SystemText::system_at))]
fn read_lines(alloc: Global, bytes: &[u8]) -> Result<System, TextFault>
    ensures { Gives (λ system. system) result (system_of bytes.now) }
{
    let mut lines = Lines::new(bytes);
    let n = dimension(&mut lines)?;
    let supports = polynomials(alloc, n, &mut lines)?;
    no_line(&mut lines)?;
    Ok(System { dim: n, supports })
}

/// Reads a system of polynomials: the supports of their values where the bytes are one, and else the
/// first faulty line and the number of its [`Kind`].
///
/// The first line is `system N`, with N from 1 to 16, and then N polynomials in `x1` to `xN` stand one
/// a line. A polynomial is built by `+`, `-`, `*`, `^` and parentheses from whole numbers and variables.
pub fn read_system(alloc: Global, bytes: &[u8]) -> Result<System, TextFault>
    ensures reading { Gives (λ system. system) result (system_of bytes.now) }
    ensures system { HadMemory result → (s : PointSystem) → (result ≡ Ok s) ↔ IsSystem bytes.now s }
    ensures supports { IfOk result (λ s. AreSupports s) }
    ensures fault { HadMemory result → (f : FormatFault) → (result ≡ Err (TextFault.Format f)) ↔ IsFirstFault bytes.now f }
{
    read_lines(alloc, bytes)
}
