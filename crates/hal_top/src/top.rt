ghost use Rattle.std.specs.Prelude.{◌≡◌, ◌≢◌, ◌≤◌, ◌↔◌, ◌⊎◌, ℕ, List, [], Option, Some, IfSome, IsSomeAnd};
ghost use Rattle.hal_base.specs.Faults.{Rose};
ghost use Rattle.hal_base.specs.declared.refusal.Refusal.{Refusal};
ghost use Rattle.hal_script.specs.declared.fault.ScriptFault.{ScriptFault};
ghost use Rattle.exec_model.specs.declared.script.ScriptLine.{ScriptLine};
ghost use Rattle.hal_code.specs.declared.image.ImageParts.{ImageParts};
ghost use Rattle.hal_grammar.specs.Units.{File};
ghost use Rattle.hal_top.specs.CommandLine.{texts, HasNoForm};
ghost use Rattle.hal_top.specs.Causes.{IsAbsent, IsTooLong, IsFirstWrong, IsFaulty, IsBroken, IsBadImage, IsWork, IsBuild, IsExec};
ghost use Rattle.hal_top.specs.Outcomes.{IsStatus, IsRefusal, IsExcused, Completes, IsTold, Prints, PrintsOutput, PrintsFront, refusal_line};

use crate::outcome::Outcome;
use crate::perform::{perform, print};
use crate::prepare::prepare;
use crate::refuse::refuse;
use crate::refused::Refused;
use hal_base::{Shelf, Sink};
use std::alloc::Global;

/// Does what the words ask for. `run 1 SCRIPT UNIT..` fetches the files, reads them, runs the first
/// PROGRAM of the set of the units under the script, and prints the report; `build UNIT..` prints the bytes of the image of the set;
/// `exec 1 SCRIPT IMAGE` runs such an image. `words` are those after the program's name. A refusal prints its one line and nothing else. docs/EXECUTIVE.md lists the statuses, and
/// docs/CLAIMS.md says each clause in words.
pub fn hal<S: Shelf, O: Sink>(
    alloc: Global,
    words: &[String],
    shelf: &mut S,
    out: &mut O,
) -> Outcome
    ensures statuses { IsStatus result.status }
    ensures usage { (result.status ≡ 2) ↔ HasNoForm (texts words.now) }
    ensures absent { result.status ≡ 3 → IfSome (S.files shelf.old) (λ files. IsSomeAnd result.file (IsFirstWrong IsAbsent files (texts words.now))) }
    ensures absent_exactly { IfSome (S.files shelf.old) (λ files. (number : ℕ) → IsFirstWrong IsAbsent files (texts words.now) number → ((result.status ≡ 3) × (result.file ≡ Some number)) ⊎ IsExcused result.status) }
    ensures too_long { result.status ≡ 4 → IfSome (S.files shelf.old) (λ files. IsSomeAnd result.file (IsFirstWrong IsTooLong files (texts words.now))) }
    ensures too_long_exactly { IfSome (S.files shelf.old) (λ files. (number : ℕ) → IsFirstWrong IsTooLong files (texts words.now) number → ((result.status ≡ 4) × (result.file ≡ Some number)) ⊎ IsExcused result.status) }
    ensures faulty { result.status ≡ 6 → IfSome (S.files shelf.old) (λ files. IsSomeAnd result.script_fault (IsFaulty files (texts words.now))) }
    ensures faulty_exactly { IfSome (S.files shelf.old) (λ files. (fault : ScriptFault) → IsFaulty files (texts words.now) fault → ((result.status ≡ 6) × (result.script_fault ≡ Some fault)) ⊎ IsExcused result.status) }
    ensures broken { result.status ≡ 5 → IfSome (S.files shelf.old) (λ files. IsSomeAnd result.refused (IsBroken files (texts words.now))) }
    ensures broken_exactly { IfSome (S.files shelf.old) (λ files. (refusal : Refusal) → IsBroken files (texts words.now) refusal → (result.status ≡ 5) ⊎ IsExcused result.status) }
    ensures bad_image { result.status ≡ 10 → IfSome (S.files shelf.old) (λ files. IsBadImage files (texts words.now) result.image_fault) }
    ensures bad_image_exactly { IfSome (S.files shelf.old) (λ files. (fault : Option ℕ) → IsBadImage files (texts words.now) fault → ((result.status ≡ 10) × (result.image_fault ≡ fault)) ⊎ IsExcused result.status) }
    ensures shelf_fault { result.status ≡ 7 → Rose (S.faults shelf.old) (S.faults shelf.new) }
    ensures sink_fault { result.status ≡ 8 → Rose (O.faults out.old) (O.faults out.new) }
    ensures done { result.status ≡ 0 → IfSome (S.files shelf.old) (λ files. PrintsOutput files (texts words.now) result.journal (O.taken out.old) (O.taken out.new)) }
    ensures cut_short { result.status ≡ 8 → IfSome (S.files shelf.old) (λ files. PrintsFront files (texts words.now) result.journal (O.taken out.old) (O.taken out.new)) }
    ensures runs { IfSome (S.files shelf.old) (λ files. (script : List ScriptLine) (set : List File) → IsWork files (texts words.now) script set → Completes result.status) }
    ensures builds { IfSome (S.files shelf.old) (λ files. (set : List File) → IsBuild files (texts words.now) set → Completes result.status) }
    ensures executes { IfSome (S.files shelf.old) (λ files. (script : List ScriptLine) (image : ImageParts) → IsExec files (texts words.now) script image → Completes result.status) }
    ensures nothing_ran { IsRefusal result.status → result.journal ≡ [] }
    ensures line { IsRefusal result.status → Prints (O.taken out.old) (O.taken out.new) (refusal_line (texts words.now) result) (O.faults out.old) (O.faults out.new) }
    ensures told { IsTold (texts words.now) result }
    ensures same_files { S.files shelf.new ≡ S.files shelf.old }
    ensures shelf_count { S.faults shelf.old ≤ S.faults shelf.new }
    ensures sink_count { O.faults out.old ≤ O.faults out.new }
{
    let task = match prepare(alloc, words, shelf) {
        Ok(task) => task,
        Err(refused) => return refuse(alloc, words, refused, out),
    };
    match perform(alloc, task) {
        Ok(performed) => print(performed, out),
        Err(_) => refuse(alloc, words, Refused::Memory, out),
    }
}
