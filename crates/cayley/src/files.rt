ghost use Rattle.std.specs.Prelude.{◌≡◌, ◌≤◌, ◌-◌, [], MatchResult, map, slice_index_or};
ghost use Rattle.std.specs.Option.{option_map};
ghost use Rattle.cayley.specs.Problems.{version1, version2, version_number};
ghost use Rattle.cayley.specs.Stored.{file_of, file_point, version_of};
ghost use Rattle.cayley.specs.Shapes.{IsFileFault};
ghost use Rattle.cayley.specs.Valid.{IsValidFile};

use crate::faults::ShapeFault;
use crate::points::FilePoint;
use crate::shapes::check_file;
use crate::versions::Version;
use std::alloc::Global;
use std::marker::Model;

/// Supports of points with heights, and the start heights of the corners if they are given.
///
/// The dimension n is from 1 to 16, and there are n supports of 1 to 1,000 points. The points of a
/// support have n coordinates from -1,000,000 to 1,000,000, no two the same ones, and heights from
/// -1,000,000,000 to 1,000,000,000. Start heights are n lists of n - 1 numbers from 1 to
/// 1,000,000,000.
#[derive(Drop)]
pub struct LiftFile {
    version: Version,
    dim: usize,
    supports: Vec<Vec<FilePoint>>,
    starts: Option<Vec<Vec<i64>>>,
}

impl Model for LiftFile {
    ghost use Rattle.std.specs.Prelude.{map};
    ghost use Rattle.std.specs.Option.{option_map};
    ghost use Rattle.cayley.specs.Files.{File};
    ghost use Rattle.cayley.specs.Stored.{file_of, version_of};
    ghost use Rattle.cayley.specs.Valid.{IsValidFile};

    ghost Value = { File };

    ghost view = { λ f. file_of (version_of f.version) f.dim (map (λ s. s.items) f.supports.items) (option_map (λ ss. map (λ s. s.items) ss.items) f.starts) };

    ghost invariant = { λ f. IsValidFile (file_of (version_of f.version) f.dim (map (λ s. s.items) f.supports.items) (option_map (λ ss. map (λ s. s.items) ss.items) f.starts)) };
}

impl LiftFile {
    /// The file of these parts, which make a valid one. Takes no memory.
    pub fn from_parts(
        version: Version,
        dim: usize,
        supports: Vec<Vec<FilePoint>>,
        starts: Option<Vec<Vec<i64>>>,
    ) -> LiftFile
        requires { IsValidFile (file_of (version_of version) dim (map (λ s. s.items) supports.items) (option_map (λ ss. map (λ s. s.items) ss.items) starts)) }
        ensures { result ≡ file_of (version_of version) dim (map (λ s. s.items) supports.items) (option_map (λ ss. map (λ s. s.items) ss.items) starts) }
    {
        LiftFile {
            version,
            dim,
            supports,
            starts,
        }
    }

    /// The file of these points and start heights, of the first version.
    ///
    /// `BadShape` exactly where `dim` isn't from 1 to 16, there aren't `dim` supports, a support
    /// doesn't have 1 to 1,000 points, a point doesn't have `dim` coordinates, or start heights are
    /// given and aren't `dim` lists of `dim - 1` numbers. Else, of the first point in order that
    /// breaks a rule, `Range` where a number of it is out of its limits, and otherwise `Repeated`,
    /// since its coordinates are those of an earlier point of its support. Else `StartRange` where
    /// a start height isn't from 1 to 1,000,000,000, with the first such support.
    pub fn new(
        alloc: Global,
        dim: usize,
        supports: Vec<Vec<FilePoint>>,
        starts: Option<Vec<Vec<i64>>>,
    ) -> Result<LiftFile, ShapeFault>
        ensures { let given = file_of version1 dim (map (λ s. s.items) supports.items) (option_map (λ ss. map (λ s. s.items) ss.items) starts) in
            MatchResult result (λ file. IsValidFile given × (file ≡ given)) (IsFileFault given) }
    {
        LiftFile::checked(alloc, Version::First, dim, supports, starts)
    }

    /// The file of these points and start heights, of the second version, with the faults of `new`.
    pub fn perturbed(
        alloc: Global,
        dim: usize,
        supports: Vec<Vec<FilePoint>>,
        starts: Option<Vec<Vec<i64>>>,
    ) -> Result<LiftFile, ShapeFault>
        ensures { let given = file_of version2 dim (map (λ s. s.items) supports.items) (option_map (λ ss. map (λ s. s.items) ss.items) starts) in
            MatchResult result (λ file. IsValidFile given × (file ≡ given)) (IsFileFault given) }
    {
        LiftFile::checked(alloc, Version::Second, dim, supports, starts)
    }

    fn checked(
        alloc: Global,
        version: Version,
        dim: usize,
        supports: Vec<Vec<FilePoint>>,
        starts: Option<Vec<Vec<i64>>>,
    ) -> Result<LiftFile, ShapeFault>
        ensures { let given = file_of (version_of version) dim (map (λ s. s.items) supports.items) (option_map (λ ss. map (λ s. s.items) ss.items) starts) in
            MatchResult result (λ file. IsValidFile given × (file ≡ given)) (IsFileFault given) }
    {
        check_file(alloc, dim, &supports, &starts)?;
        Ok(LiftFile {
            version,
            dim,
            supports,
            starts,
        })
    }

    /// The number of the file's form: 1 for heights as they are, 2 for perturbed ones.
    pub fn version(&self) -> u8
        ensures value { result ≡ version_number self.now.version }
        ensures valid { IsValidFile self.now }
    {
        self.version.number()
    }

    /// The form of the file's heights.
    pub fn form(&self) -> Version
        ensures value { version_of result ≡ self.now.version }
        ensures valid { IsValidFile self.now }
    {
        self.version
    }

    /// The dimension n, which is also the number of supports.
    pub fn dim(&self) -> usize
        ensures value { result ≡ self.now.dimension }
        ensures valid { IsValidFile self.now }
    {
        self.dim
    }

    /// The points of support i, counted from 1.
    pub fn support(&self, i: u32) -> &[FilePoint]
        requires least { 1 ≤ i }
        requires greatest { i ≤ self.now.dimension }
        ensures value { map file_point result.now ≡ slice_index_or self.now.supports (i - 1) [] }
        ensures valid { IsValidFile self.now }
    {
        &self.supports[i as usize - 1]
    }

    /// The n supports in order, each the list of its points.
    pub fn supports(&self) -> &[Vec<FilePoint>]
        ensures value { map (λ s. map file_point s.items) result.now ≡ self.now.supports }
        ensures valid { IsValidFile self.now }
    {
        &self.supports
    }

    /// For each support i the n - 1 start heights of its corners of the directions other than i, in
    /// order, if the file gives them.
    pub fn starts(&self) -> Option<&[Vec<i64>]>
        ensures value { option_map (λ starts. map (λ s. s.items) starts.now) result ≡ self.now.starts }
        ensures valid { IsValidFile self.now }
    {
        match &self.starts {
            Some(starts) => Some(starts.as_slice()),
            None => None,
        }
    }
}
