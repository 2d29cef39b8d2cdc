//! What holds of all texts. These functions do nothing: their contracts are laws.

ghost use Rattle.std.specs.Prelude.{◌≡◌, ◌⊎◌, ℕ, List};
ghost use Rattle.exec_model.specs.declared.script.ScriptLine.{ScriptLine};
ghost use Rattle.hal_script.specs.declared.fault.ScriptFault.{ScriptFault};
ghost use Rattle.hal_script.specs.ScriptTexts.{IsScriptOf, IsFault};

/// No lines are two scripts.
pub fn a_text_is_one_script()
    ensures { (lines : List (List ℕ)) (one other : List ScriptLine) → IsScriptOf lines one → IsScriptOf lines other → one ≡ other }
{}

/// No lines have two first faults.
pub fn a_text_has_one_first_fault()
    ensures { (lines : List (List ℕ)) (one other : ScriptFault) → IsFault lines one → IsFault lines other → one ≡ other }
{}

/// No lines are a script and have a fault.
pub fn a_faulty_text_is_no_script()
    ensures { (lines : List (List ℕ)) (script : List ScriptLine) (fault : ScriptFault) → IsScriptOf lines script → IsFault lines fault → ⊥ }
{}

/// All lines are a script, or have a first fault.
pub fn every_text_is_a_script_or_faulty()
    ensures { (lines : List (List ℕ)) → ((script : List ScriptLine) × IsScriptOf lines script) ⊎ ((fault : ScriptFault) × IsFault lines fault) }
{}
