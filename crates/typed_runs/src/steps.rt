//! Steps of a typed world.
ghost use Rattle.member_link.specs.Machine.Programs.{Program};
ghost use Rattle.member_link.specs.Machine.Stepping.{step};
ghost use Rattle.member_link.specs.Machine.Worlds.{World};
ghost use Rattle.typed_runs.specs.Families.{BeginsClass, Calls, EndsMethod, MakesObject, NamesField, NextIs, ThrowsReference, WorksOnArrays, WorksOnOperands};
ghost use Rattle.typed_runs.specs.TypedPrograms.{Typings};
ghost use Rattle.typed_runs.specs.TypedWorlds.{TypedWorld, StaysTyped};

/// An instruction leaves a typed world that is not stuck, if it pushes a number or null, moves values between locals and the operand
/// stack, computes, jumps, tests what class an object is of, or enters or leaves a monitor. It may raise a throwable of the machine,
/// which ends in a handler, in the library or out of a class initialiser, and it may ask the library.
pub fn an_instruction_on_operands_stays_typed()
    ensures { (P : Program) (T : Typings) (w : World)
        → TypedWorld P T w
        → NextIs WorksOnOperands P w.frames
        → StaysTyped P T w (step P w) }
{}

/// So does an instruction that makes an array, reads or writes an element, or gives an array's length. A length that is negative, an
/// index outside the array and a value that is no instance of its component raise a throwable of the machine; an array that is too
/// long ends the run.
pub fn an_instruction_on_arrays_stays_typed()
    ensures { (P : Program) (T : Typings) (w : World)
        → TypedWorld P T w
        → NextIs WorksOnArrays P w.frames
        → StaysTyped P T w (step P w) }
{}

/// So does one that makes an object. The class is begun first if it is one of the folder that is not begun; then the instruction is
/// done later.
pub fn a_new_object_stays_typed()
    ensures { (P : Program) (T : Typings) (w : World)
        → TypedWorld P T w
        → NextIs MakesObject P w.frames
        → StaysTyped P T w (step P w) }
{}

/// So does a step of a class's initialisation: it begins a class that comes first, puts the class initialiser in the place of the
/// beginning, or ends it.
pub fn a_step_of_a_beginning_stays_typed()
    ensures { (P : Program) (T : Typings) (w : World)
        → TypedWorld P T w
        → BeginsClass w.frames
        → StaysTyped P T w (step P w) }
{}

/// So does an instruction that reads or writes a field. It may begin a class, ask the library for a field of its own, and raise.
pub fn an_instruction_on_fields_stays_typed()
    ensures { (P : Program) (T : Typings) (w : World)
        → TypedWorld P T w
        → NextIs NamesField P w.frames
        → StaysTyped P T w (step P w) }
{
    member_link::a_look_up_finds_one_field();
    member_link::a_found_field_is_above();
}

/// So does a return: to the frame that waits for its value, to the library, which sees the value or the object that was constructed,
/// or as the end of a class initialiser.
pub fn a_return_stays_typed()
    ensures { (P : Program) (T : Typings) (w : World)
        → TypedWorld P T w
        → NextIs EndsMethod P w.frames
        → StaysTyped P T w (step P w) }
{}

/// So does an `athrow`, which throws what conforms to java/lang/Throwable.
pub fn a_throw_stays_typed()
    ensures { (P : Program) (T : Typings) (w : World)
        → TypedWorld P T w
        → NextIs ThrowsReference P w.frames
        → StaysTyped P T w (step P w) }
{}

/// So does a call. A method of the folder with code gets a frame, with its monitor entered if it is synchronized, and the caller waits; for
/// another one the library is asked. It may begin a class, and raise: for a null receiver, and where a selection finds no method that it
/// may run.
pub fn a_call_stays_typed()
    ensures { (P : Program) (T : Typings) (w : World)
        → TypedWorld P T w
        → NextIs Calls P w.frames
        → StaysTyped P T w (step P w) }
{
    member_link::a_look_up_finds_one_method();
    member_link::a_found_method_is_above();
}

/// So does each step: a step of a typed world leaves a typed world, and is not stuck.
pub fn a_step_stays_typed()
    ensures { (P : Program) (T : Typings) (w : World)
        → TypedWorld P T w
        → StaysTyped P T w (step P w) }
{
    an_instruction_on_operands_stays_typed();
    an_instruction_on_arrays_stays_typed();
    a_new_object_stays_typed();
    an_instruction_on_fields_stays_typed();
    a_call_stays_typed();
    a_return_stays_typed();
    a_throw_stays_typed();
    a_step_of_a_beginning_stays_typed();
}
