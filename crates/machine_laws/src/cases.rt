//! What small programs show, computed from the definitions alone.
ghost use Rattle.machine_laws.specs.ArithmeticCases.{RunArithmetic};
ghost use Rattle.machine_laws.specs.HandlersCases.{RunHandlers};
ghost use Rattle.machine_laws.specs.NarrowingCases.{RunNarrowing};
ghost use Rattle.machine_laws.specs.StackCases.{MoveEntries, TakeJumps};
ghost use Rattle.machine_laws.specs.StuckCases.{RunStuck};
ghost use Rattle.machine_laws.specs.ArraysCases.{RunArrays};
ghost use Rattle.machine_laws.specs.CallsCases.{RunCalls};
ghost use Rattle.machine_laws.specs.FaultsCases.{RunFaults};
ghost use Rattle.machine_laws.specs.FinalFieldsCases.{RunFinalFields};
ghost use Rattle.machine_laws.specs.InitialisationCases.{RunInitialisation};
ghost use Rattle.machine_laws.specs.OutsideCases.{RunOutside};
ghost use Rattle.machine_laws.specs.SynchronizationCases.{RunSynchronization};
ghost use Rattle.machine_laws.specs.WorkedProgramsCases.{RunWorkedPrograms};

/// Objects, static fields, joins, loops, monitors and handlers.
pub fn worked_programs_run_as_written()
    ensures { RunWorkedPrograms }
{}

/// Throwables of arrays, casts, monitors and arithmetic, and their order.
pub fn programs_show_which_throwables_are_raised()
    ensures { RunArrays }
{}

/// Initialisation of classes.
pub fn programs_show_who_begins_a_class()
    ensures { RunInitialisation }
{}

/// Synchronized methods.
pub fn programs_show_who_holds_a_monitor()
    ensures { RunSynchronization }
{}

/// Stores into final fields.
pub fn programs_show_which_stores_are_final()
    ensures { RunFinalFields }
{}

/// What the library is asked, and what its objects are instances of.
pub fn programs_show_what_the_library_is_asked()
    ensures { RunOutside }
{}

/// Selections and their failures, a superclass's method, signature polymorphic methods, switches, and what calls begin and enter.
pub fn programs_show_what_calls_run()
    ensures { RunCalls }
{}

/// Actions that are faults, and the ends of runs.
pub fn programs_show_which_actions_are_faults()
    ensures { RunFaults }
{}

/// Arithmetic, conversions and comparisons of int and long.
pub fn programs_show_what_arithmetic_gives()
    ensures { RunArithmetic }
{}

/// Narrowing to byte, short, char and boolean.
pub fn programs_show_where_values_are_narrowed()
    ensures { RunNarrowing }
{}

/// Exception handlers.
pub fn programs_show_which_handler_catches()
    ensures { RunHandlers }
{}

/// Programs that do not verify.
pub fn programs_show_what_is_stuck()
    ensures { RunStuck }
{}

/// Each form of the instructions that move stack entries, and each conditional jump.
pub fn programs_show_what_the_stack_holds()
    ensures entries { MoveEntries }
    ensures jumps { TakeJumps }
{}
