//! The laws of cells over time: each is the clause of a function that does nothing.

ghost use Rattle.cayley.specs.Laws.{OneNormal, AliveByAnyNormal, OneLowestNormal, OneDependency, Exchange, SameTimes};
ghost use Rattle.cayley.specs.FlipLaws.{FlipLaw, ChildrenLaw, FlipRule, PredecessorRule};
ghost use Rattle.cayley.specs.LifeLaws.{LifeLaw, OnceLaw, ParentLaw, ChildLaw, TieFreeLaw, ShareLaw, OneShare, TargetLaw};
ghost use Rattle.cayley.specs.Computed.{AllComputed, ChainLaw};
ghost use Rattle.cayley.specs.StoredTies.{ShownTieLaw};
ghost use Rattle.cayley.specs.StillLaws.{StillLaw, MixedLaw};
ghost use Rattle.cayley.specs.Strangers.{StrangerLaw};
ghost use Rattle.cayley.specs.NamedTies.{NamedIsShownLaw, NamedTieLaw, OneNamedTieLaw};
ghost use Rattle.cayley.specs.LongerTimes.{LongerTimesLaw};

/// An independent cell has exactly one normal at every time.
pub fn one_normal()
    ensures { OneNormal }
{}

/// Whether a cell is alive is seen at any one normal of it.
pub fn alive_by_any_normal()
    ensures { AliveByAnyNormal }
{}

/// A mixed cell of the target has one normal in lowest terms.
pub fn one_lowest_normal()
    ensures { OneLowestNormal }
{}

/// An independent cell and a further point have one dependency up to a factor, and its sum of heights tells the point's side at every time.
pub fn one_dependency()
    ensures { OneDependency }
{}

/// A cell stays independent where a further point takes the place of a point at which their dependency isn't zero.
pub fn exchange()
    ensures { Exchange }
{}

/// What is true of a time is true of it however it is written.
pub fn same_times()
    ensures { SameTimes }
{}

/// Whether and when a cell is alive, where it begins, what precedes it, its parent, chain, share and size are computed from the problem.
pub fn computed()
    ensures { AllComputed }
{}

/// The list of a cell's chain has exactly the cells that are in its chain.
pub fn chain_law()
    ensures { ChainLaw }
{}

/// At a wall with one level point the numbers of a dependency tell the successors, the predecessors and the kept children (flips, in outline after Jensen 2016).
pub fn flip_law()
    ensures { FlipLaw }
{}

/// The children of a cell are the successors at its end that it keeps.
pub fn children_law()
    ensures { ChildrenLaw }
{}

/// The successors in cell order, and whether the cell keeps them, by the signs at its pair.
pub fn flip_rule()
    ensures { FlipRule }
{}

/// The predecessors in cell order, by the signs at the pair.
pub fn predecessor_rule()
    ensures { PredecessorRule }
{}

/// A cell that is alive at some time has two ends, or lacks one or both of them, and is alive between.
pub fn life_law()
    ensures { LifeLaw }
{}

/// A cell begins and ends once.
pub fn once_law()
    ensures { OnceLaw }
{}

/// A parent ends where its child begins, and there is one parent only.
pub fn parent_law()
    ensures { ParentLaw }
{}

/// The children of a cell are those that it precedes at its end as the least of all.
pub fn child_law()
    ensures { ChildLaw }
{}

/// Where a cell begins or ends without a tie one further point is level, and a cell that begins so has a parent.
pub fn tie_free_law()
    ensures { TieFreeLaw }
{}

/// The share of a branch is its own cell, where that is mixed, with the shares of its children (after the reverse search of Avis and Fukuda 1996).
pub fn share_law()
    ensures { ShareLaw }
{}

/// A branch has one share and one size.
pub fn one_share()
    ensures { OneShare }
{}

/// In a still problem with its version's ranks, whose corners rise with speed 1, a mixed cell of the target is alive at
/// all late times (in outline after Huber and Sturmfels 1995).
pub fn target_law()
    ensures { TargetLaw }
{}

/// What is shown as a tie by a time and one or two places is one.
pub fn shown_tie_law()
    ensures { ShownTieLaw }
{}

/// A cell of points that rest is alive at every time or at none.
pub fn still_law()
    ensures { StillLaw }
{}

/// Where the file points rest, whether a cell is a mixed cell of the target is seen at any time.
pub fn mixed_law()
    ensures { MixedLaw }
{}

/// A branch whose cell isn't of the problem or doesn't begin where it says has the empty share and the size 0.
pub fn stranger_law()
    ensures { StrangerLaw }
{}

/// The tie that is named for a cell is shown by its time and places.
pub fn named_is_shown_law()
    ensures { NamedIsShownLaw }
{}

/// A cell has a named tie exactly where it has a tie at some time.
pub fn named_tie_law()
    ensures { NamedTieLaw }
{}

/// All named ties of a cell have the same time and the same places.
pub fn one_named_tie_law()
    ensures { OneNamedTieLaw }
{}

/// Where a cell begins or ends, the time has no entry other than 0 past the greatest rank.
pub fn longer_times_law()
    ensures { LongerTimesLaw }
{}
