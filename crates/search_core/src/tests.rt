ghost use Rattle.std.specs.Prelude.{◌≡◌, ◌≤◌, length};
ghost use Rattle.search_core.specs.States.{IsSearcher};

use crate::{Children2, Core, CoreBranch, CoreOutcome, Event, Hand, StepFault};
use cayley::{Begin, Cell};
use lex_height::Lex;
use std::alloc::Global;
use wide_int::Frac;

type Pairs = [(u32, u32); 2];

// The beginning at a time of this numerator and denominator.
fn at(num: i128, den: i128) -> Option<Begin> {
    Some(Begin::At(Lex::of(&Frac::lowest(num, den)?)))
}

fn branch(alloc: Global, pairs: Pairs, begin: Begin) -> Option<CoreBranch> {
    let cell = Cell::new(alloc, &pairs)?;
    Some(CoreBranch { cell, begin })
}

fn start(alloc: Global) -> Option<CoreBranch> {
    branch(alloc, [(5, 6), (5, 7)], Begin::Start)
}

fn one(alloc: Global, pairs: Pairs, time: (i128, i128)) -> Option<CoreOutcome> {
    let child = branch(alloc, pairs, at(time.0, time.1)?)?;
    Some(CoreOutcome::Children(Children2::One(child)))
}

fn two(alloc: Global, first: Pairs, second: Pairs, time: (i128, i128)) -> Option<CoreOutcome> {
    let first = branch(alloc, first, at(time.0, time.1)?)?;
    let second = branch(alloc, second, at(time.0, time.1)?)?;
    Some(CoreOutcome::Children(Children2::Two(first, second)))
}

fn positions(cell: &Cell) -> Option<(u32, u32, u32, u32)> {
    let pairs = cell.pairs();
    if pairs.len() != 2 {
        return None;
    }
    let (a, b) = pairs[0];
    let (c, d) = pairs[1];
    Some((a, b, c, d))
}

// The path tree of the two squares: the children of each cell with the time at which they begin,
// its own cell where it is a mixed cell of the target, and nothing where it is endless.
fn expanded(alloc: Global, cell: &Cell) -> Option<CoreOutcome> {
    match positions(cell)? {
        (5, 6, 5, 7) => two(alloc, [(5, 6), (4, 5)], [(5, 6), (4, 7)], (1, 1)),
        (5, 6, 4, 5) => one(alloc, [(1, 6), (4, 5)], (3, 1)),
        (5, 6, 4, 7) => one(alloc, [(1, 6), (4, 7)], (3, 1)),
        (1, 6, 4, 5) => one(alloc, [(1, 6), (1, 4)], (5, 1)),
        (1, 6, 4, 7) => two(alloc, [(1, 3), (4, 7)], [(3, 6), (4, 7)], (13, 1)),
        (1, 6, 1, 4) => two(alloc, [(1, 2), (1, 4)], [(2, 6), (1, 4)], (17, 1)),
        (1, 3, 4, 7) => one(alloc, [(1, 3), (3, 4)], (26, 1)),
        (3, 6, 4, 7) => one(alloc, [(3, 4), (4, 7)], (91, 2)),
        (2, 6, 1, 4) => one(alloc, [(2, 6), (2, 4)], (45, 1)),
        (1, 2, 1, 4) | (1, 3, 3, 4) => Some(CoreOutcome::Cell(cell.copy())),
        _ => Some(CoreOutcome::Nothing),
    }
}

// What a searcher can do: it claims or steals, expands, offers or reports.
fn next_event(alloc: Global, core: &Core, s: u32, from: u32, claims: bool) -> Option<Event>
    requires { IsSearcher core.now s }
{
    Some(match core.hand(s) {
        Hand::Empty if claims && !core.deque(s).is_empty() => Event::Claim { searcher: s },
        Hand::Empty => Event::Steal { searcher: s, from },
        Hand::Branch(branch) => Event::Expand {
            searcher: s,
            outcome: expanded(alloc, &branch.cell)?,
        },
        Hand::One(_) | Hand::Two(_, _) => Event::Offer { searcher: s },
        Hand::Cell(_) => Event::Report { searcher: s },
    })
}

// How many branches went to a hand, how many of them were stolen, and how many were expanded.
#[derive(Clone, Copy, Debug, PartialEq, Eq)]
struct Done {
    taken: u32,
    stolen: u32,
    expanded: u32,
}

impl Done {
    fn count(&mut self, event: &Event) {
        match event {
            Event::Claim { searcher: _ } => self.taken = self.taken.saturating_add(1),
            Event::Steal {
                searcher: _,
                from: _,
            } => {
                self.taken = self.taken.saturating_add(1);
                self.stolen = self.stolen.saturating_add(1);
            }
            Event::Expand {
                searcher: _,
                outcome: _,
            } => self.expanded = self.expanded.saturating_add(1),
            _ => {}
        }
    }
}

// One move of a searcher, if it has one.
fn turn(
    alloc: Global,
    core: &mut Core,
    done: &mut Done,
    s: u32,
    from: u32,
    claims: bool,
) -> Option<()>
    requires { IsSearcher core.old s }
    ensures { length core.new ≡ length core.old }
{
    let event = next_event(alloc, core, s, from, claims)?;
    let mut counted = *done;
    counted.count(&event);
    match core.step(event) {
        Ok(()) => {
            *done = counted;
            Some(())
        }
        Err(StepFault::NotEnabled(_event)) => Some(()),
        Err(StepFault::OutOfMemory(_event)) => None,
    }
}

fn is_finished(core: &Core, s: u32) -> bool
    requires { IsSearcher core.now s }
{
    core.deque(s).is_empty() && matches!(core.hand(s), Hand::Empty)
}

// All reported cells, in cell order.
fn found(alloc: Global, core: &Core) -> Option<Vec<Cell>>
    requires { 2 ≤ length core.now }
{
    let mut cells = Vec::new(alloc);
    for cell in core.outs(1) {
        cells.push(cell.copy()).ok()?;
    }
    for cell in core.outs(2) {
        cells.push(cell.copy()).ok()?;
    }
    cells.sort_by(|x, y| x.cmp(y)).ok()?;
    Some(cells)
}

// The two squares' path tree by two searchers: `second` says whose turn it is, over and over. Gives
// what was done and the reported cells in cell order, once nothing is open.
fn searched(alloc: Global, second: [bool; 4], claims: bool) -> Option<(Done, Vec<Cell>)> {
    let mut core = Core::new(alloc, 2, start(alloc)?).ok()?;
    let mut done = Done {
        taken: 0,
        stolen: 0,
        expanded: 0,
    };
    for k in 0..200_usize {
        let (s, from) = if second[k % 4] { (2, 1) } else { (1, 2) };
        turn(alloc, &mut core, &mut done, s, from, claims)?;
    }
    if !is_finished(&core, 1) || !is_finished(&core, 2) {
        return None;
    }
    Some((done, found(alloc, &core)?))
}

fn are_the_two_cells(cells: &[Cell]) -> bool {
    match cells {
        [first, last] => first.pairs() == [(1, 2), (1, 4)].as_slice()
            && last.pairs() == [(1, 3), (3, 4)].as_slice(),
        _ => false,
    }
}

#[test]
fn the_path_tree_in_three_orders(rt: HostRuntime) {
    // in turn; the first three times as often; in pairs, and every branch is stolen
    for (second, claims) in [
        ([false, true, false, true], true),
        ([false, false, false, true], true),
        ([false, true, true, false], false),
    ] {
        let (done, cells) = searched(rt.alloc(), second, claims).expect(&rt, "a whole search");
        assert!(rt; are_the_two_cells(&cells));
        assert_eq!(rt; (done.taken, done.expanded), (13, 13));
        assert!(rt; claims || done.stolen == 13);
    }
}

#[test]
fn a_steal_and_two_refusals(rt: HostRuntime) {
    let branch = start(rt.alloc()).expect(&rt, "the start branch");
    let mut core = Core::new(rt.alloc(), 2, branch).ok().expect(&rt, "a core");
    let steal = core.step(Event::Steal {
        searcher: 2,
        from: 1,
    });
    assert!(rt; steal.is_ok());
    let again = core.step(Event::Steal {
        searcher: 2,
        from: 1,
    });
    assert!(rt;
        matches!(
            again,
            Err(StepFault::NotEnabled(Event::Steal {
                searcher: 2,
                from: 1
            }))
        )
    );
    let claim = core.step(Event::Claim { searcher: 1 });
    assert!(rt;
        matches!(
            claim,
            Err(StepFault::NotEnabled(Event::Claim { searcher: 1 }))
        )
    );
    assert!(rt; core.deque(1).is_empty() && matches!(core.hand(2), Hand::Branch(_)));
}
