//! Laws of written code: functions that do nothing, whose contracts say what always holds.
ghost use Rattle.code_drafts.specs.CodeOfPlans.{AreEntersCounted, AreItemPlaces, AreItemsEmitted, AreNewsCounted, GoAllWide};

/// The items that are written by a valid plan are emitted code, where each instruction of the flat code has its form: there is an
/// item, targets and handlers are numbers of items, and the jump inside a test against null stands over the two that it leads over.
pub fn items_of_a_plan_are_emitted_code()
    ensures { AreItemsEmitted }
{}

/// Written code makes exactly the objects and enters exactly the monitors that its plan's routes say, in their order, where each `new`
/// of the flat code names a class. So its `monitorenter`s are as many, and its objects of candidate sites too.
pub fn code_of_a_plan_makes_what_the_plan_says()
    ensures places { AreItemPlaces }
    ensures enters { AreEntersCounted }
    ensures news { AreNewsCounted }
{
    class_model::constants_compare_by_value();
}

/// The items that are written by a valid plan are such that the code that is made wide item by item is the definition's, where each
/// instruction of the flat code has its form: each is as many items as the definition's, leads to blocks, and a conditional jump has no
/// handler.
pub fn items_of_a_plan_go_wide()
    ensures { GoAllWide }
{}
