//! Worked lines, which the checker computes from the definitions alone. These functions do nothing.

ghost use Rattle.std.specs.Prelude.{◌≡◌, [], ◌∷◌, Some, codes};
ghost use Rattle.std.specs.Str.Lines.{lines};
ghost use Rattle.exec_model.specs.declared.script.ScriptLine.TheVariants.{Run, Input};
ghost use Rattle.hal_script.specs.declared.fault.ScriptFault.{ScriptFault};
ghost use Rattle.hal_script.specs.declared.given.Given.TheVariants.{Data, Malformed, Open};
ghost use Rattle.hal_script.specs.declared.reading.Reading.TheVariants.{Faults};
ghost use Rattle.hal_script.specs.DataTexts.{given};
ghost use Rattle.hal_script.specs.Readings.{reading, past};
ghost use Rattle.hal_script.specs.ScriptTexts.{IsScriptOf, IsFault, opening};

/// Two data of a channel, and a RUN.
pub fn input_is_a_script()
    ensures { IsScriptOf (lines (codes "INPUT 5 -12, 'A B'\nRUN 20\n")) (Input 5 (codes "-12" ∷ codes "A B" ∷ []) ∷ Run 20 ∷ []) }
{}

/// An INPUT behind a RUN.
pub fn input_behind_run_is_faulty()
    ensures { (fault : ScriptFault) → fault.line ≡ 2 → fault.reason ≡ 4 → IsFault (lines (codes "RUN 1\nINPUT 5 1\n")) fault }
{}

/// Blanks and commas part data, as many as there are.
pub fn data_are_read()
    ensures some { given (codes "1,2  -3 , RUN,") ≡ Data (codes "1" ∷ codes "2" ∷ codes "-3" ∷ codes "RUN" ∷ []) }
    ensures none { given (codes " , ,") ≡ Data [] }
{}

/// A quote opens a datum in quotes only as its first byte, and a doubled one in it is one.
pub fn quotes_are_read()
    ensures some { given (codes "'IT''S','' ''''") ≡ Data (codes "IT'S" ∷ [] ∷ codes "'" ∷ []) }
    ensures inner { given (codes "O'NEIL A''B'") ≡ Data (codes "O'NEIL" ∷ codes "A''B'" ∷ []) }
    ensures gaps { given (codes "' , '") ≡ Data (codes " , " ∷ []) }
    ensures malformed { given (codes "'A'B 'C") ≡ Malformed }
    ensures open { given (codes "'A' 'B''") ≡ Open }
{}

/// Of the reasons of a line the first in the order 1, 4, 2, 3, 5 counts.
pub fn reasons_have_an_order()
    ensures unknown { reading (past opening (Some (Run 1))) (codes "INPUTS 32 'A") ≡ Faults 1 }
    ensures behind { reading (past opening (Some (Run 1))) (codes "INPUT 05 'A") ≡ Faults 4 }
    ensures missing { reading opening (codes "INPUT 32 ") ≡ Faults 2 }
    ensures malformed { reading opening (codes "INPUT 32 'A'B") ≡ Faults 2 }
    ensures out_of_range { reading opening (codes "INPUT 32 'A") ≡ Faults 3 }
    ensures open { reading opening (codes "INPUT 31 'A") ≡ Faults 5 }
    ensures tab { reading opening (codes "INPUT 31\t'A'") ≡ Faults 5 }
{}
