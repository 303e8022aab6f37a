ghost use Rattle.cell_bound.specs.Ranges.{CellFits, CellsFit};
ghost use Rattle.cell_bound.specs.Quiet.{QuietLaw};
ghost use Rattle.cell_bound.specs.OwnLines.{QuietOwnLaw};

/// Each number of a cell's working fits where the bounds of its rows and its further points do.
pub fn cell_fits()
    ensures { CellFits }
{}

/// One test of a problem, by what the points of each support differ in, tells that the workings of
/// all its cells fit (the minors of the differences are bounded by expansion along a column).
pub fn cells_fit()
    ensures { CellsFit }
{}

/// On the path of a file of at most three dimensions, whose points differ by at most 6 in each place
/// and whose heights and start heights are at most 1,000, the working of every cell fits.
pub fn quiet()
    ensures { QuietLaw }
{}

/// There the line of each pair's own second point fits too, which a checker of a listing forms.
pub fn quiet_own()
    ensures { QuietOwnLaw }
{}
