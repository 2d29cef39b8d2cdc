//! Worked rows, which the checker computes from the definitions alone. These functions do nothing.

ghost use Rattle.std.specs.Prelude.{◌≡◌, [], ◌∷◌, ◌++◌, take, map, Some, None, negsuc, true, false};
ghost use Rattle.hal_values.specs.declared.value.Kind.TheVariants as kind;
ghost use Rattle.hal_operations.specs.declared.operation.Op1.TheVariants as op1;
ghost use Rattle.hal_operations.specs.declared.operation.Op2.TheVariants as op2;
ghost use Rattle.hal_code.specs.declared.choice.Choice.TheVariants as choice;
ghost use Rattle.hal_code.specs.declared.instr.Instr.TheVariants as instr;
ghost use Rattle.hal_code.specs.declared.operand.Delay.TheVariants as delay;
ghost use Rattle.hal_code.specs.declared.operand.EventChange.TheVariants as change;
ghost use Rattle.hal_code.specs.declared.operand.Limit.TheVariants as limit;
ghost use Rattle.hal_code.specs.declared.operand.Places.TheVariants as places;
ghost use Rattle.hal_code.specs.declared.operand.Response.TheVariants as response;
ghost use Rattle.hal_code.specs.declared.operand.Round.TheVariants as round;
ghost use Rattle.hal_code.specs.declared.operand.Start.TheVariants as start;
ghost use Rattle.hal_code.specs.declared.operand.Time.TheVariants as time;
ghost use Rattle.hal_object.specs.Instructions.{instr_bytes};
ghost use Rattle.hal_object.specs.Images.{image_bytes, AreRuns, IsSpelled};
ghost use Rattle.hal_object.specs.Reading.{image_at};
ghost use Rattle.hal_object.specs.Worked.{smallest, smallest_bytes, with_rows, rows_bytes};

/// The 80 bytes of the smallest image, and those of one with rows in each table.
pub fn images_are_written()
    ensures smallest { image_bytes smallest ≡ smallest_bytes }
    ensures with_rows { image_bytes with_rows ≡ rows_bytes }
{}

/// They are read; with a byte less or more they aren't.
pub fn images_are_read()
    ensures smallest { image_at smallest_bytes ≡ Some smallest }
    ensures with_rows { image_at rows_bytes ≡ Some with_rows }
    ensures cut { image_at (take 79 smallest_bytes) ≡ None }
    ensures longer { image_at (smallest_bytes ++ 0 ∷ []) ≡ None }
{}

/// Instructions of values.
pub fn instructions_of_values_are_written()
    ensures { map instr_bytes
        (instr.Int (negsuc 4)
        ∷ instr.Bits 12 2730
        ∷ instr.Text (72 ∷ 73 ∷ [])
        ∷ instr.Cell 258
        ∷ instr.Whole 1
        ∷ instr.Fetch
        ∷ instr.Peek
        ∷ instr.Keep
        ∷ instr.Dup
        ∷ instr.Drop
        ∷ instr.Event 300
        ∷ instr.Op1 (choice.Known op1.Bit)
        ∷ instr.Op1 (choice.Other 10)
        ∷ instr.Op2 (choice.Known op2.Rjust)
        ∷ instr.Len 1
        ∷ instr.Pick (choice.Known places.To)
        ∷ instr.Patch (choice.Known places.At) ∷ [])
        ≡ (1 ∷ 251 ∷ 255 ∷ 255 ∷ 255 ∷ [])
        ∷ (2 ∷ 12 ∷ 170 ∷ 10 ∷ 0 ∷ 0 ∷ [])
        ∷ (3 ∷ 2 ∷ 72 ∷ 73 ∷ [])
        ∷ (4 ∷ 2 ∷ 1 ∷ 0 ∷ 0 ∷ [])
        ∷ (5 ∷ 1 ∷ 0 ∷ 0 ∷ 0 ∷ [])
        ∷ (6 ∷ [])
        ∷ (7 ∷ [])
        ∷ (8 ∷ [])
        ∷ (9 ∷ [])
        ∷ (10 ∷ [])
        ∷ (11 ∷ 44 ∷ 1 ∷ [])
        ∷ (12 ∷ 9 ∷ [])
        ∷ (12 ∷ 10 ∷ [])
        ∷ (13 ∷ 21 ∷ [])
        ∷ (14 ∷ 1 ∷ [])
        ∷ (15 ∷ 1 ∷ [])
        ∷ (16 ∷ 2 ∷ []) ∷ [] }
{}

/// Instructions of control, errors and own places.
pub fn instructions_of_control_are_written()
    ensures { map instr_bytes
        (instr.Jump 4294967297
        ∷ instr.JumpNot 3
        ∷ instr.Turn 4
        ∷ instr.Call 5
        ∷ instr.Return
        ∷ instr.On 1 3 (choice.Known response.Statement) (choice.Known change.Nothing) 0 7
        ∷ instr.Off 1 0
        ∷ instr.Raise 200 201
        ∷ instr.ErrGrp
        ∷ instr.ErrNum
        ∷ instr.Bind 6
        ∷ instr.Copy 7
        ∷ instr.Clear 8 9
        ∷ instr.Next ∷ [])
        ≡ (17 ∷ 1 ∷ 0 ∷ 0 ∷ 0 ∷ 1 ∷ 0 ∷ 0 ∷ 0 ∷ [])
        ∷ (18 ∷ 3 ∷ 0 ∷ 0 ∷ 0 ∷ 0 ∷ 0 ∷ 0 ∷ 0 ∷ [])
        ∷ (19 ∷ 4 ∷ 0 ∷ 0 ∷ 0 ∷ 0 ∷ 0 ∷ 0 ∷ 0 ∷ [])
        ∷ (20 ∷ 5 ∷ 0 ∷ 0 ∷ 0 ∷ [])
        ∷ (21 ∷ [])
        ∷ (22 ∷ 1 ∷ 3 ∷ 2 ∷ 0 ∷ 0 ∷ 0 ∷ 7 ∷ 0 ∷ 0 ∷ 0 ∷ 0 ∷ 0 ∷ 0 ∷ 0 ∷ [])
        ∷ (23 ∷ 1 ∷ 0 ∷ [])
        ∷ (24 ∷ 200 ∷ 201 ∷ [])
        ∷ (25 ∷ [])
        ∷ (26 ∷ [])
        ∷ (27 ∷ 6 ∷ 0 ∷ 0 ∷ 0 ∷ [])
        ∷ (28 ∷ 7 ∷ 0 ∷ 0 ∷ 0 ∷ [])
        ∷ (29 ∷ 8 ∷ 0 ∷ 0 ∷ 0 ∷ 9 ∷ 0 ∷ 0 ∷ 0 ∷ [])
        ∷ (30 ∷ []) ∷ [] }
{}

/// Instructions that ask.
pub fn instructions_of_asking_are_written()
    ensures { map instr_bytes
        (instr.Begin
        ∷ instr.Finish
        ∷ instr.Schedule 1 (start.At time.Seconds) (choice.Known true) (choice.Known false) (round.Every (time.Milliseconds 500)) (limit.While 2)
        ∷ instr.Schedule 2 (start.On 3) (choice.Known false) (choice.Known true) round.Repeat (limit.UntilTime time.Seconds)
        ∷ instr.Cancel 255
        ∷ instr.Terminate 3
        ∷ instr.Wait (delay.For (time.Milliseconds 1))
        ∷ instr.Wait (delay.Until time.Seconds)
        ∷ instr.Wait (delay.Event 4)
        ∷ instr.Wait delay.Dependents
        ∷ instr.Signal 1
        ∷ instr.Set 2
        ∷ instr.Reset 3
        ∷ instr.Priority 255
        ∷ instr.Item
        ∷ instr.Print 6
        ∷ instr.Input 5 (kind.Text 80) 9
        ∷ instr.Now
        ∷ instr.Open 6
        ∷ instr.Close ∷ [])
        ≡ (32 ∷ [])
        ∷ (33 ∷ [])
        ∷ (34 ∷ 1 ∷ 1 ∷ 1 ∷ 1 ∷ 0 ∷ 2 ∷ 2 ∷ 244 ∷ 1 ∷ 0 ∷ 0 ∷ 0 ∷ 0 ∷ 0 ∷ 0 ∷ 1 ∷ 2 ∷ 0 ∷ 0 ∷ 0 ∷ [])
        ∷ (34 ∷ 2 ∷ 3 ∷ 3 ∷ 0 ∷ 0 ∷ 0 ∷ 0 ∷ 1 ∷ 1 ∷ 3 ∷ 1 ∷ [])
        ∷ (35 ∷ 255 ∷ [])
        ∷ (36 ∷ 3 ∷ [])
        ∷ (37 ∷ 0 ∷ 2 ∷ 1 ∷ 0 ∷ 0 ∷ 0 ∷ 0 ∷ 0 ∷ 0 ∷ 0 ∷ [])
        ∷ (37 ∷ 1 ∷ 1 ∷ [])
        ∷ (37 ∷ 2 ∷ 4 ∷ 0 ∷ 0 ∷ 0 ∷ [])
        ∷ (37 ∷ 3 ∷ [])
        ∷ (38 ∷ 1 ∷ 0 ∷ [])
        ∷ (39 ∷ 2 ∷ 0 ∷ [])
        ∷ (40 ∷ 3 ∷ 0 ∷ [])
        ∷ (41 ∷ 255 ∷ [])
        ∷ (42 ∷ [])
        ∷ (43 ∷ 6 ∷ [])
        ∷ (44 ∷ 5 ∷ 4 ∷ 80 ∷ 9 ∷ 0 ∷ 0 ∷ 0 ∷ 0 ∷ 0 ∷ 0 ∷ 0 ∷ [])
        ∷ (45 ∷ [])
        ∷ (46 ∷ 6 ∷ 0 ∷ [])
        ∷ (47 ∷ []) ∷ [] }
{}
