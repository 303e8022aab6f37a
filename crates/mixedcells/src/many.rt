// The top call for every number of searchers.
ghost use Rattle.std.specs.Prelude.{◌≡◌, ◌≢◌, ◌⊎◌, ◌↔◌, ◌≤◌, List, ℕ, ℤ, Some, Ok, IsTrue, IfOk, MatchResult, map, length, string_bytes};
ghost use Rattle.std.specs.Io.KnownBytes.{Appends, IsAtEnd};
ghost use Rattle.edge_io.specs.Faults.{Rose};
ghost use Rattle.cayley.specs.Cells.{Cell};
ghost use Rattle.cayley.specs.declared.found.TieProof.{TieProof};
ghost use Rattle.cayley.specs.Files.{File, plain_problem};
ghost use Rattle.cayley.specs.Paths.{path};
ghost use Rattle.support_text.specs.ProblemText.{problem_of};
ghost use Rattle.support_text.specs.Writing.{problem_text};
ghost use Rattle.listing_text.specs.declared.listing.Listing.{Listing};
ghost use Rattle.listing_text.specs.Listings.{IsListingOf};
ghost use Rattle.cell_certificate.specs.Answers.{IsRight, IsTooLarge};
ghost use Rattle.cell_certificate.specs.Written.{AreMixed};
ghost use Rattle.homotopy_rows.specs.Answers.{IsPowersText};
ghost use Rattle.path_log.specs.declared.log.PathLog.{PathLog};
ghost use Rattle.log_check.specs.Verdicts.{HasPathTree, ListsMixedCells};
ghost use Rattle.plain_lister.specs.Choices.{HasTooMany};
ghost use Rattle.plain_lister.specs.Lists.{AllFit};
ghost use Rattle.cell_bound.specs.Quiet.{IsQuiet};
ghost use Rattle.poly_text.specs.SystemText.{system_of};
ghost use Rattle.mixedcells.specs.declared.words.meaning.Family.{Family};
ghost use Rattle.mixedcells.specs.Words.{Means, HasMeaning, IsReading, IsForTeam, IsWalking, needs_team};
ghost use Rattle.mixedcells.specs.ByMany as by;
ghost use Rattle.mixedcells.specs.ByMany.{by_one, searchers_of, for_one, IsJourney};
ghost use Rattle.mixedcells.specs.Families.{family_file, lifted_text};
ghost use Rattle.mixedcells.specs.Answers.{IsListingText, IsMoveText, IsReply};
ghost use Rattle.mixedcells.specs.Walks.{IsReachedListing, IsReachedSum, IsSumOf, IsSafe, TreeFits, IsTreeTie, IsTreeUnfit};
ghost use Rattle.mixedcells.specs.Moving.{target_of, IsMovedListing, IsMoveTie, IsMoveUnfit, IsFull, IsGenericMove, MoveFits};
ghost use Rattle.mixedcells.specs.Logs.{IsTracedText, IsWrittenLog, IsLogText, TellsLog};
ghost use Rattle.mixedcells.specs.Runs.{AreLoose, IsInput, IsAnswer, IsCalledFor, IsCutOff, IsFree, IsVerdict, IsWrittenListing, IsSpared, IsSparedLog, Passes, TakesNoMore};

use crate::outcome::Outcome;
use crate::replies::Reply;
use crate::together::{list_by, sum_by};
use crate::top::{finish, read_input, run_alone};
use crate::words::{Command, command_of, read_command};
use edge_io::{Gate, ReadStop, Sink, Source};
use std::alloc::Global;
use std::sync::Wait;
use std::thread::Threads;
use wide_int::OutOfMemory;

/// Runs the command that the words mean on all that `source` has left, by as many searchers as they ask for,
/// and writes its answer to `sink`. Where they are two or more, each passes `gate` before each of its expansions;
/// one alone passes none.
///
/// Its answers are those of [`run_alone`](crate::run_alone) to the words for one searcher.
pub fn run<S: Source, K: Sink, G: Gate, R: Threads + Wait + Sync>(
    rt: &R,
    alloc: Global,
    words: &[String],
    source: &mut S,
    sink: &mut K,
    gate: &G,
) -> Outcome
    // What the words for one searcher and the input call for came, and its text was written, and nothing else.
    ensures written { ¬ (IsFree result) → (text : List ℕ)
        × IsCalledFor (for_one (map string_bytes words.now)) (S.left source.old) result text
        × Appends (K.held sink.old) (K.held sink.new) text }
    // A part of the text that was called for was written, and the sink's count of faults rose.
    ensures cut_off { result ≡ Outcome.WriteFault
        → IsCutOff (IsCalledFor (for_one (map string_bytes words.now)) (S.left source.old)) (K.held sink.old) (K.held sink.new) (K.faults sink.old) (K.faults sink.new) }
    ensures silent { (result ≡ Outcome.ReadFault) ⊎ (result ≡ Outcome.OutOfMemory) → sink.new ≡ sink.old }
    // What is called for comes, unless an end fails or there is no memory; of the ends of a walk or a move another one may come.
    ensures exact { (bytes : List ℕ) (outcome : Outcome) (text : List ℕ) → S.left source.old ≡ Some bytes
        → IsCalledFor (for_one (map string_bytes words.now)) (Some bytes) outcome text
        → (result ≡ outcome) ⊎ IsFree result ⊎ AreLoose (for_one (map string_bytes words.now)) result outcome }
    // However many searchers are asked for, it does the command.
    ensures done { result ≢ Outcome.NeedsTeam }
    // `list` that ends Ok on a file of perturbed heights, or whose path has no tie, has written exactly the listing of the file.
    ensures headline { (searchers : ℕ) (bytes : List ℕ) (file : File) → S.left source.old ≡ Some bytes → Means (map string_bytes words.now) (Command.List searchers)
        → problem_of bytes ≡ Ok file → IsSafe file → result ≡ Outcome.Ok
        → (text : List ℕ) × IsListingOf file text × Appends (K.held sink.old) (K.held sink.new) text }
    // On every file it has written mixed cells alone: those to which the path leads, each once, in cell order, with their normals.
    ensures reached { (searchers : ℕ) (bytes : List ℕ) → S.left source.old ≡ Some bytes → Means (map string_bytes words.now) (Command.List searchers) → result ≡ Outcome.Ok
        → (file : File) × (problem_of bytes ≡ Ok file) × ((text : List ℕ) × IsReachedListing file text × Appends (K.held sink.old) (K.held sink.new) text) }
    // `sum` that ends Ok has written how many mixed cells there are and the size of the path tree.
    ensures headline_sum { (searchers : ℕ) (bytes : List ℕ) (file : File) → S.left source.old ≡ Some bytes → Means (map string_bytes words.now) (Command.Sum searchers)
        → problem_of bytes ≡ Ok file → IsSafe file → result ≡ Outcome.Ok
        → (text : List ℕ) × IsSumOf file text × Appends (K.held sink.old) (K.held sink.new) text }
    ensures reached_sum { (searchers : ℕ) (bytes : List ℕ) → S.left source.old ≡ Some bytes → Means (map string_bytes words.now) (Command.Sum searchers) → result ≡ Outcome.Ok
        → (file : File) × (problem_of bytes ≡ Ok file) × ((text : List ℕ) × IsReachedSum file text × Appends (K.held sink.old) (K.held sink.new) text) }
    // A walk is refused for a tie at an end of a cell of the path tree alone, and never in version 2; and for a cell of it that doesn't fit.
    ensures tie_cause { (bytes : List ℕ) (proof : TieProof) → S.left source.old ≡ Some bytes → IsJourney (map string_bytes words.now) → result ≡ Outcome.Tie proof
        → (file : File) × (problem_of bytes ≡ Ok file) × IsTreeTie file proof }
    ensures overflow_cause { (bytes : List ℕ) (cell : Cell) → S.left source.old ≡ Some bytes → IsJourney (map string_bytes words.now) → result ≡ Outcome.OverflowCell cell
        → (file : File) × (problem_of bytes ≡ Ok file) × IsTreeUnfit file cell }
    // It ends well where the heights are perturbed or the path has no tie, and the working of each cell of the path tree fits.
    ensures walked { (bytes : List ℕ) (file : File) → S.left source.old ≡ Some bytes → length bytes ≤ 16777216 → IsJourney (map string_bytes words.now)
        → problem_of bytes ≡ Ok file → IsSafe file → TreeFits file → (result ≡ Outcome.Ok) ⊎ IsFree result }
    // In the quiet profile no command says that a cell doesn't fit, a walk ends well where the heights are perturbed or the path has no tie,
    ensures quiet { (bytes : List ℕ) (file : File) → S.left source.old ≡ Some bytes → problem_of bytes ≡ Ok file → IsQuiet file
        → (cell : Cell) → result ≢ Outcome.OverflowCell cell }
    ensures walked_quiet { (bytes : List ℕ) (file : File) → S.left source.old ≡ Some bytes → length bytes ≤ 16777216 → IsJourney (map string_bytes words.now)
        → problem_of bytes ≡ Ok file → IsSafe file → IsQuiet file → (result ≡ Outcome.Ok) ⊎ IsFree result }
    // and a written listing passes, if it isn't too long to be read.
    ensures passes { (bytes : List ℕ) (file : File) → S.left source.old ≡ Some bytes → Means (map string_bytes words.now) Command.Check → IsWrittenListing file bytes
        → IsQuiet file → Passes bytes result ⊎ IsFree result }
    // What `list` that ends Ok has written is a written listing, which `check` spares.
    ensures written_reached { (searchers : ℕ) (bytes : List ℕ) → S.left source.old ≡ Some bytes → Means (map string_bytes words.now) (Command.List searchers) → result ≡ Outcome.Ok
        → (file : File) × (problem_of bytes ≡ Ok file) × ((text : List ℕ) × IsWrittenListing file text × Appends (K.held sink.old) (K.held sink.new) text) }
    // `plain` that ends Ok has written exactly the listing of the file: its mixed cells, each once, in cell order, with their normals.
    ensures listing { (bytes : List ℕ) → S.left source.old ≡ Some bytes → Means (map string_bytes words.now) Command.Plain → result ≡ Outcome.Ok
        → (file : File) × (problem_of bytes ≡ Ok file) × ((text : List ℕ) × IsListingOf file text × Appends (K.held sink.old) (K.held sink.new) text) }
    ensures complete { (bytes : List ℕ) (file : File) → S.left source.old ≡ Some bytes → length bytes ≤ 16777216
        → Means (map string_bytes words.now) Command.Plain → problem_of bytes ≡ Ok file
        → ¬ (HasTooMany (plain_problem file)) → AllFit (plain_problem file) → (result ≡ Outcome.Ok) ⊎ IsFree result }
    ensures written_listing { (bytes : List ℕ) → S.left source.old ≡ Some bytes → Means (map string_bytes words.now) Command.Plain → result ≡ Outcome.Ok
        → (file : File) × (problem_of bytes ≡ Ok file) × ((text : List ℕ) × IsWrittenListing file text × Appends (K.held sink.old) (K.held sink.new) text) }
    // `check` that ends Ok: the bytes are a listing of mixed cells, each once, in cell order, each with its normal in lowest terms.
    ensures checked { (bytes : List ℕ) → S.left source.old ≡ Some bytes → Means (map string_bytes words.now) Command.Check → result ≡ Outcome.Ok
        → (listing : Listing) × IsListingText bytes listing × AreMixed listing }
    ensures judged { (bytes : List ℕ) (listing : Listing) → S.left source.old ≡ Some bytes → length bytes ≤ 16777216
        → Means (map string_bytes words.now) Command.Check → IsListingText bytes listing → ((line : ℕ) → ¬ (IsTooLarge listing line))
        → IsVerdict result ⊎ IsFree result }
    ensures spares { (bytes : List ℕ) (file : File) → S.left source.old ≡ Some bytes → Means (map string_bytes words.now) Command.Check → IsWrittenListing file bytes
        → IsSpared bytes result ⊎ IsFree result }
    // `generic` finds a tie or none where the path has few choices and all workings up to the wall lines fit; where it ends Ok the path has no tie.
    ensures judged_ties { (bytes : List ℕ) (file : File) → S.left source.old ≡ Some bytes → length bytes ≤ 16777216
        → Means (map string_bytes words.now) Command.Generic → problem_of bytes ≡ Ok file
        → ¬ (HasTooMany (path file)) → AllFit (path file) → (result ≡ Outcome.Ok) ⊎ ((proof : TieProof) × (result ≡ Outcome.Tie proof)) ⊎ IsFree result }
    ensures tie_free { (bytes : List ℕ) (file : File) → S.left source.old ≡ Some bytes → Means (map string_bytes words.now) Command.Generic
        → problem_of bytes ≡ Ok file → result ≡ Outcome.Ok → IsSafe file }
    // `powers` that ends Ok has written exactly the powers of each cell of the listing, whose lines all pass.
    ensures powers { (bytes : List ℕ) → S.left source.old ≡ Some bytes → Means (map string_bytes words.now) Command.Powers → result ≡ Outcome.Ok
        → (listing : Listing) × IsListingText bytes listing × IsRight listing × ((text : List ℕ) × IsPowersText listing text × Appends (K.held sink.old) (K.held sink.new) text) }
    // `move` that ends Ok has written the text of the file with the second heights with mixed cells of it alone: those to which the listed cells lead, each once, in cell order, with their normals.
    ensures moved { (bytes : List ℕ) → S.left source.old ≡ Some bytes → Means (map string_bytes words.now) Command.Move → result ≡ Outcome.Ok
        → (listing : Listing) × (second : List (List ℤ)) × IsMoveText bytes listing second × IsRight listing
        × ((text : List ℕ) × IsMovedListing listing second text × Appends (K.held sink.old) (K.held sink.new) text) }
    // From a listing of all mixed cells of the first lift along a generic segment it is exactly the listing of the second file.
    ensures moved_whole { (bytes : List ℕ) (listing : Listing) (second : List (List ℤ)) → S.left source.old ≡ Some bytes → Means (map string_bytes words.now) Command.Move
        → IsMoveText bytes listing second → IsFull listing → IsGenericMove listing second → result ≡ Outcome.Ok
        → (text : List ℕ) × IsListingOf (target_of listing second) text × Appends (K.held sink.old) (K.held sink.new) text }
    // A move is refused for a tie on the way of a cell that comes of a listed one, and for such a cell that doesn't fit.
    ensures move_tie { (bytes : List ℕ) (proof : TieProof) → S.left source.old ≡ Some bytes → Means (map string_bytes words.now) Command.Move → result ≡ Outcome.Tie proof
        → (listing : Listing) × (second : List (List ℤ)) × IsMoveText bytes listing second × IsMoveTie listing second proof }
    ensures move_unfit { (bytes : List ℕ) (cell : Cell) → S.left source.old ≡ Some bytes → Means (map string_bytes words.now) Command.Move → result ≡ Outcome.OverflowCell cell
        → (listing : Listing) × (second : List (List ℤ)) × IsMoveText bytes listing second × IsMoveUnfit listing second cell }
    // A listing whose lines all pass is moved along a generic segment where all workings fit.
    ensures moves { (bytes : List ℕ) (listing : Listing) (second : List (List ℤ)) → S.left source.old ≡ Some bytes → length bytes ≤ 16777216 → Means (map string_bytes words.now) Command.Move
        → IsMoveText bytes listing second → IsRight listing → IsGenericMove listing second → MoveFits listing second → (result ≡ Outcome.Ok) ⊎ IsFree result }
    // `trace` that ends Ok has written the log of the file: its path tree in preorder, each cell with its inverse, and the mixed cells to which the path leads.
    ensures traced { (bytes : List ℕ) → S.left source.old ≡ Some bytes → Means (map string_bytes words.now) Command.Trace → result ≡ Outcome.Ok
        → (file : File) × (problem_of bytes ≡ Ok file) × ((text : List ℕ) × IsTracedText file text × Appends (K.held sink.old) (K.held sink.new) text) }
    // `verify` that ends Ok: the nodes of the log are the path tree in preorder, and its listed cells those to which the path leads; where heights are
    // perturbed or the path has no tie these are exactly the mixed cells of the file, each with its normal.
    ensures verified { (bytes : List ℕ) → S.left source.old ≡ Some bytes → Means (map string_bytes words.now) Command.Verify → result ≡ Outcome.Ok
        → (log : PathLog) × IsLogText bytes log × HasPathTree log × ListsMixedCells log }
    // Each answer on a log comes exactly where the log asks for it.
    ensures told_log { (bytes : List ℕ) (log : PathLog) → S.left source.old ≡ Some bytes → length bytes ≤ 16777216
        → Means (map string_bytes words.now) Command.Verify → IsLogText bytes log → TellsLog log result ⊎ IsFree result }
    // `verify` never refuses for a reason what `trace` has written.
    ensures spares_log { (bytes : List ℕ) (file : File) → S.left source.old ≡ Some bytes → Means (map string_bytes words.now) Command.Verify → IsWrittenLog file bytes
        → IsSparedLog bytes result ⊎ IsFree result }
    // `poly` writes exactly the canonical text of the file that lifts the system which the bytes mean, or tells their first fault.
    ensures systems { (bytes : List ℕ) (seed : ℕ) → S.left source.old ≡ Some bytes → length bytes ≤ 16777216 → Means (map string_bytes words.now) (Command.Poly seed)
        → MatchResult (system_of bytes) (λ system. (result ≡ Outcome.Ok) × Appends (K.held sink.old) (K.held sink.new) (lifted_text seed system)) (λ fault. result ≡ Outcome.Format fault.line fault.kind) ⊎ IsFree result }
    ensures read_fault { result ≡ Outcome.ReadFault → Rose (S.faults source.old) (S.faults source.new) }
    // What `make` is asked for comes, whatever the source is, and Ok has written exactly the canonical text of the family's file.
    ensures made { (family : Family) (seed : ℕ) → Means (map string_bytes words.now) (Command.Make family seed) → (result ≡ Outcome.Ok) ⊎ IsFree result }
    ensures made_text { (family : Family) (seed : ℕ) → Means (map string_bytes words.now) (Command.Make family seed) → result ≡ Outcome.Ok
        → Appends (K.held sink.old) (K.held sink.new) (problem_text (family_file family seed)) }
    // Words without a meaning are usage; nothing is read for them and for `make`.
    ensures usage { ¬ (HasMeaning (map string_bytes words.now)) → (result ≡ Outcome.Usage) ⊎ (result ≡ Outcome.WriteFault) }
    ensures unread { ¬ (IsReading (for_one (map string_bytes words.now))) → source.new ≡ source.old }
    // Every answer of a command that reads, but too long and the free ones, has read the input to its end.
    ensures whole { ¬ (IsFree result) → IsReading (for_one (map string_bytes words.now)) → result ≢ Outcome.TooLong → IsAtEnd (S.left source.new) }
    ensures taken { TakesNoMore (S.left source.old) (S.left source.new) result }
    ensures source_later { S.faults source.old ≤ S.faults source.new }
    ensures sink_later { K.faults sink.old ≤ K.faults sink.new }
{
    if asks_for_team(words) {
        return run_team(rt, alloc, words, source, sink, gate);
    }
    run_alone(alloc, words, source, sink)
}

// Whether the words ask for more than one searcher.
fn asks_for_team(words: &[String]) -> bool
    ensures { IsTrue result ↔ IsForTeam (map string_bytes words.now) }
{
    match command_of(words) {
        Some(command) => command.needs_team(),
        None => false,
    }
}

// Runs words that ask for more than one searcher.
fn run_team<S: Source, K: Sink, G: Gate, R: Threads + Wait + Sync>(
    rt: &R,
    alloc: Global,
    words: &[String],
    source: &mut S,
    sink: &mut K,
    gate: &G,
) -> Outcome
    requires { IsForTeam (map string_bytes words.now) }
    ensures written { ¬ (IsFree result) → (text : List ℕ)
        × IsCalledFor (for_one (map string_bytes words.now)) (S.left source.old) result text
        × Appends (K.held sink.old) (K.held sink.new) text }
    ensures cut_off { result ≡ Outcome.WriteFault
        → IsCutOff (IsCalledFor (for_one (map string_bytes words.now)) (S.left source.old)) (K.held sink.old) (K.held sink.new) (K.faults sink.old) (K.faults sink.new) }
    ensures silent { (result ≡ Outcome.ReadFault) ⊎ (result ≡ Outcome.OutOfMemory) → sink.new ≡ sink.old }
    ensures taken { TakesNoMore (S.left source.old) (S.left source.new) result }
    ensures read_fault { result ≡ Outcome.ReadFault → Rose (S.faults source.old) (S.faults source.new) }
    ensures whole { ¬ (IsFree result) → result ≢ Outcome.TooLong → IsAtEnd (S.left source.new) }
    ensures source_later { S.faults source.old ≤ S.faults source.new }
    ensures sink_later { K.faults sink.old ≤ K.faults sink.new }
{
    let Ok(command) = read_command(alloc, words) else {
        return Outcome::OutOfMemory;
    };
    run_walk(rt, alloc, command, source, sink, gate)
}

// Runs a command for more than one searcher.
fn run_walk<S: Source, K: Sink, G: Gate, R: Threads + Wait + Sync>(
    rt: &R,
    alloc: Global,
    command: Command,
    source: &mut S,
    sink: &mut K,
    gate: &G,
) -> Outcome
    requires team { IsTrue (needs_team command) }
    requires many { (1 ≤ searchers_of command) × (searchers_of command ≤ 64) }
    ensures written { ¬ (IsFree result) → (bytes : List ℕ) × (text : List ℕ)
        × IsInput (S.left source.old) bytes × IsAnswer (by.by_one command) bytes result text
        × Appends (K.held sink.old) (K.held sink.new) text }
    ensures cut_off { result ≡ Outcome.WriteFault → (bytes : List ℕ) × IsInput (S.left source.old) bytes
        × IsCutOff (IsAnswer (by.by_one command) bytes) (K.held sink.old) (K.held sink.new) (K.faults sink.old) (K.faults sink.new) }
    ensures silent { (result ≡ Outcome.ReadFault) ⊎ (result ≡ Outcome.OutOfMemory) → sink.new ≡ sink.old }
    ensures taken { TakesNoMore (S.left source.old) (S.left source.new) result }
    ensures read_fault { result ≡ Outcome.ReadFault → Rose (S.faults source.old) (S.faults source.new) }
    ensures whole { ¬ (IsFree result) → result ≢ Outcome.TooLong → IsAtEnd (S.left source.new) }
    ensures source_later { S.faults source.old ≤ S.faults source.new }
    ensures sink_later { K.faults sink.old ≤ K.faults sink.new }
{
    let bytes = match read_input(alloc, command.by_one(), source) {
        Ok(bytes) => bytes,
        Err(ReadStop::TooLong) => return finish(sink, b"too long\n", Outcome::TooLong),
        Err(ReadStop::Fault) => return Outcome::ReadFault,
        Err(ReadStop::OutOfMemory) => return Outcome::OutOfMemory,
    };
    match answer_by(rt, alloc, command, &bytes, gate) {
        Ok(Reply { outcome, text }) => finish(sink, &text, outcome),
        Err(_) => Outcome::OutOfMemory,
    }
}

// What a command for several searchers replies on the bytes of its whole input.
fn answer_by<G: Gate, R: Threads + Wait + Sync>(
    rt: &R,
    alloc: Global,
    command: Command,
    bytes: &[u8],
    gate: &G,
) -> Result<Reply, OutOfMemory>
    requires team { IsTrue (needs_team command) }
    requires many { (1 ≤ searchers_of command) × (searchers_of command ≤ 64) }
    ensures { IfOk result (λ r. IsReply (by.by_one command) bytes.now r.outcome r.text.items) }
{
    match command {
        Command::List(searchers) => list_by(rt, alloc, searchers as u32, bytes, gate),
        Command::Sum(searchers) => sum_by(rt, alloc, searchers as u32, bytes, gate),
        _ => unreachable!(),
    }
}
