// What C calls.
ghost use Rattle.std.specs.Prelude.{◌≡◌, ◌≢◌, ◌⊎◌, ◌<◌, ◌≤◌, ℕ, List, [], length, Some, Ok, MatchResult};
ghost use Rattle.cayley.specs.Cells.{Cell};
ghost use Rattle.cayley.specs.declared.found.TieProof.{TieProof};
ghost use Rattle.cayley.specs.Files.{File, plain_problem};
ghost use Rattle.cayley.specs.Paths.{path};
ghost use Rattle.support_text.specs.ProblemText.{problem_of};
ghost use Rattle.support_text.specs.Writing.{problem_text};
ghost use Rattle.listing_text.specs.declared.listing.Listing.{Listing};
ghost use Rattle.listing_text.specs.Listings.{IsListingOf};
ghost use Rattle.cell_certificate.specs.Answers.{IsRight, IsTooLarge};
ghost use Rattle.cell_certificate.specs.Written.{AreMixed};
ghost use Rattle.homotopy_rows.specs.Answers.{IsPowersText};
ghost use Rattle.path_log.specs.declared.log.PathLog.{PathLog};
ghost use Rattle.log_check.specs.Verdicts.{HasPathTree, ListsMixedCells};
ghost use Rattle.cell_bound.specs.Quiet.{IsQuiet};
ghost use Rattle.poly_text.specs.SystemText.{system_of};
ghost use Rattle.plain_lister.specs.Choices.{HasTooMany};
ghost use Rattle.plain_lister.specs.Lists.{AllFit};
ghost use Rattle.mixedcells.specs.declared.words.meaning.Family.{Family};
ghost use Rattle.mixedcells.specs.declared.words.Command.TheVariants as verb;
ghost use Rattle.mixedcells.specs.declared.outcome.Outcome.{Outcome};
ghost use Rattle.mixedcells.specs.declared.outcome.Outcome.TheVariants as variant;
ghost use Rattle.mixedcells.specs.Words.{Means, HasMeaning, IsForTeam, IsWalking};
ghost use Rattle.mixedcells.specs.Families.{family_file, lifted_text};
ghost use Rattle.mixedcells.specs.Outcomes.{status_of};
ghost use Rattle.mixedcells.specs.Answers.{limit, IsListingText};
ghost use Rattle.mixedcells.specs.Walks.{IsReachedListing, IsReachedSum, IsSumOf, IsSafe, TreeFits, IsTreeTie, IsTreeUnfit};
ghost use Rattle.mixedcells.specs.Logs.{IsTracedText, IsWrittenLog, IsLogText};
ghost use Rattle.mixedcells.specs.Runs.{AreLoose, IsCalledFor, IsWrittenListing, IsSpared, IsSparedLog};
ghost use Rattle.mixedcells_c.specs.Commands.{words_in};
ghost use Rattle.mixedcells_c.specs.Buffers.{IsWithheld, IsGiven, HasNoRoom, Holds};

use crate::delivery::run_into;
use std::alloc::Global;

/// Runs a command on an input, and writes its answer to the front of `room` and its length to `needed`.
///
/// The command is its words with one blank between them. The result is the status of the outcome, as
/// the program has it, and `room` stays behind the answer. Two results tell of no answer, and `room`
/// stays: 256 where it is too short for the answer, of which `needed` is the length, and 8 where there
/// was no memory; then `needed` is 0.
#[unsafe(no_mangle)]
pub extern "C" fn mixedcells_run(
    alloc: Global,
    command: &[u8],
    input: &[u8],
    room: &mut [u8],
    needed: &mut usize,
) -> u32
    // What the words and the input call for came, and its text stands in the room.
    ensures written { ¬ (IsWithheld result) → (outcome : Outcome) × (text : List ℕ)
        × IsCalledFor (words_in command.now) (Some input.now) outcome text × IsGiven outcome text room.old room.new needed.new result }
    // There was no room for what was called for, which has this length.
    ensures no_room { result ≡ 256 → (outcome : Outcome) × (text : List ℕ)
        × IsCalledFor (words_in command.now) (Some input.now) outcome text × HasNoRoom text room.old room.new needed.new result }
    ensures no_memory { result ≡ 8 → (needed.new ≡ 0) × (room.new ≡ room.old) }
    // Neither end can fail.
    ensures no_fault { (result ≢ 6) × (result ≢ 7) }
    // What is called for comes, unless it is withheld; of the ends of a walk another one may come.
    ensures exact { (outcome : Outcome) (text : List ℕ) → IsCalledFor (words_in command.now) (Some input.now) outcome text
        → (result ≡ status_of outcome) ⊎ IsWithheld result
        ⊎ ((other : Outcome) × (result ≡ status_of other) × AreLoose (words_in command.now) other outcome) }
    // `list` that answers 0 on a file of perturbed heights, or whose path has no tie: the answer is exactly the listing of the file.
    ensures headline { (file : File) → Means (words_in command.now) (verb.List 1) → problem_of input.now ≡ Ok file → IsSafe file → result ≡ 0
        → Holds (IsListingOf file) room.old room.new needed.new }
    // On every file: mixed cells alone, those to which the path leads, each once, in cell order, with their normals.
    ensures reached { Means (words_in command.now) (verb.List 1) → result ≡ 0
        → (file : File) × (problem_of input.now ≡ Ok file) × Holds (IsReachedListing file) room.old room.new needed.new }
    // `sum` that answers 0: how many mixed cells there are, and the size of the path tree.
    ensures headline_sum { (file : File) → Means (words_in command.now) (verb.Sum 1) → problem_of input.now ≡ Ok file → IsSafe file → result ≡ 0
        → Holds (IsSumOf file) room.old room.new needed.new }
    ensures reached_sum { Means (words_in command.now) (verb.Sum 1) → result ≡ 0
        → (file : File) × (problem_of input.now ≡ Ok file) × Holds (IsReachedSum file) room.old room.new needed.new }
    // A walk is refused for a tie at an end of a cell of the path tree alone, and for a cell of it that doesn't fit; it ends well without.
    ensures tie_cause { IsWalking (words_in command.now) → result ≡ 4 → (proof : TieProof) × (file : File) × (problem_of input.now ≡ Ok file)
        × IsTreeTie file proof × Holds (IsCalledFor (words_in command.now) (Some input.now) (variant.Tie proof)) room.old room.new needed.new }
    ensures overflow_cause { IsWalking (words_in command.now) → result ≡ 5 → (outcome : Outcome) × (status_of outcome ≡ 5)
        × ((cell : Cell) → outcome ≡ variant.OverflowCell cell → (file : File) × (problem_of input.now ≡ Ok file) × IsTreeUnfit file cell)
        × Holds (IsCalledFor (words_in command.now) (Some input.now) outcome) room.old room.new needed.new }
    ensures walked { (file : File) → length input.now ≤ limit → IsWalking (words_in command.now) → problem_of input.now ≡ Ok file
        → IsSafe file → TreeFits file → (result ≡ 0) ⊎ IsWithheld result }
    // In the quiet profile no command says that a cell doesn't fit, in both versions: where a number doesn't, a line is named;
    ensures quiet { (file : File) → problem_of input.now ≡ Ok file → IsQuiet file → result ≡ 5
        → (line : ℕ) × Holds (IsCalledFor (words_in command.now) (Some input.now) (variant.OverflowLine line)) room.old room.new needed.new }
    // a walk ends well there where the heights are perturbed or the path has no tie,
    ensures walked_quiet { (file : File) → length input.now ≤ limit → IsWalking (words_in command.now) → problem_of input.now ≡ Ok file
        → IsSafe file → IsQuiet file → (result ≡ 0) ⊎ IsWithheld result }
    // and a written listing passes, if it isn't too long to be read.
    ensures passes { (file : File) → Means (words_in command.now) verb.Check → IsWrittenListing file input.now → IsQuiet file
        → (result ≡ 0) ⊎ ((limit < length input.now) × (result ≡ 9)) ⊎ IsWithheld result }
    // `list` and `sum` by several searchers are refused, with no answer.
    ensures needs_team { result ≡ 11 → IsForTeam (words_in command.now) }
    ensures for_team { IsForTeam (words_in command.now) → ((result ≡ 11) × (needed.new ≡ 0) × (room.new ≡ room.old)) ⊎ (result ≡ 8) }
    // `generic` finds a tie or none where the path has few choices that fit; that it answers 0 shows that there is none.
    ensures judged_ties { (file : File) → length input.now ≤ limit → Means (words_in command.now) verb.Generic → problem_of input.now ≡ Ok file
        → ¬ (HasTooMany (path file)) → AllFit (path file) → (result ≡ 0) ⊎ (result ≡ 4) ⊎ IsWithheld result }
    ensures tie_free { (file : File) → Means (words_in command.now) verb.Generic → problem_of input.now ≡ Ok file → result ≡ 0 → IsSafe file }
    // `plain` that answers 0: the answer is exactly the listing of the file.
    ensures listing { Means (words_in command.now) verb.Plain → result ≡ 0
        → (file : File) × (problem_of input.now ≡ Ok file) × Holds (IsListingOf file) room.old room.new needed.new }
    // A file of few choices whose workings fit is listed.
    ensures complete { (file : File) → length input.now ≤ limit → Means (words_in command.now) verb.Plain → problem_of input.now ≡ Ok file
        → ¬ (HasTooMany (plain_problem file)) → AllFit (plain_problem file) → (result ≡ 0) ⊎ IsWithheld result }
    // `check` that answers 0: the input is a listing of mixed cells, each once, in cell order, each with its normal in lowest terms.
    ensures checked { Means (words_in command.now) verb.Check → result ≡ 0 → (listing : Listing) × IsListingText input.now listing × AreMixed listing }
    // A listing in which no number that is needed fails to fit is judged.
    ensures judged { (listing : Listing) → length input.now ≤ limit → Means (words_in command.now) verb.Check → IsListingText input.now listing
        → ((line : ℕ) → ¬ (IsTooLarge listing line)) → (result ≡ 0) ⊎ (result ≡ 1) ⊎ IsWithheld result }
    // What `plain` and `list` have written is a written listing, of which the last of these three clauses speaks.
    ensures written_listing { Means (words_in command.now) verb.Plain → result ≡ 0
        → (file : File) × (problem_of input.now ≡ Ok file) × Holds (IsWrittenListing file) room.old room.new needed.new }
    ensures written_reached { Means (words_in command.now) (verb.List 1) → result ≡ 0
        → (file : File) × (problem_of input.now ≡ Ok file) × Holds (IsWrittenListing file) room.old room.new needed.new }
    ensures spares { (file : File) → Means (words_in command.now) verb.Check → IsWrittenListing file input.now
        → ((outcome : Outcome) × (result ≡ status_of outcome) × IsSpared input.now outcome) ⊎ IsWithheld result }
    // `powers` that answers 0: the powers of each cell of the listing, whose lines all pass.
    ensures powers { Means (words_in command.now) verb.Powers → result ≡ 0 → (listing : Listing) × IsListingText input.now listing × IsRight listing
        × Holds (IsPowersText listing) room.old room.new needed.new }
    // `trace` that answers 0: the answer is the log of the file.
    ensures traced { Means (words_in command.now) verb.Trace → result ≡ 0
        → (file : File) × (problem_of input.now ≡ Ok file) × Holds (IsTracedText file) room.old room.new needed.new }
    // `verify` that answers 0: the nodes of the log are the path tree in preorder, and its cells those to which the path leads.
    ensures verified { Means (words_in command.now) verb.Verify → result ≡ 0
        → (log : PathLog) × IsLogText input.now log × HasPathTree log × ListsMixedCells log }
    // `verify` never refuses for a reason what `trace` has written.
    ensures spares_log { (file : File) → Means (words_in command.now) verb.Verify → IsWrittenLog file input.now
        → ((outcome : Outcome) × (result ≡ status_of outcome) × IsSparedLog input.now outcome) ⊎ IsWithheld result }
    // `poly` gives exactly the canonical text of the file that lifts the system which the input means, or tells its first fault.
    ensures systems { (seed : ℕ) → length input.now ≤ limit → Means (words_in command.now) (verb.Poly seed)
        → MatchResult (system_of input.now) (λ system. (result ≡ 0) × Holds (λ text. text ≡ lifted_text seed system) room.old room.new needed.new)
        (λ fault. (result ≡ 3) × Holds (IsCalledFor (words_in command.now) (Some input.now) (variant.Format fault.line fault.kind)) room.old room.new needed.new)
        ⊎ IsWithheld result }
    // `make` makes what it is asked for.
    ensures made { (family : Family) (seed : ℕ) → Means (words_in command.now) (verb.Make family seed) → (result ≡ 0) ⊎ IsWithheld result }
    ensures made_text { (family : Family) (seed : ℕ) → Means (words_in command.now) (verb.Make family seed) → result ≡ 0
        → Holds (λ text. text ≡ problem_text (family_file family seed)) room.old room.new needed.new }
    // Words without a meaning are usage.
    ensures usage { ¬ (HasMeaning (words_in command.now)) → (result ≡ 2) ⊎ IsWithheld result }
{
    run_into(alloc, command, input, room, needed)
}
