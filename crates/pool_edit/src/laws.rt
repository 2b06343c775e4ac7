//! Laws: functions that do nothing, whose contracts say what always holds.
ghost use Rattle.std.specs.Prelude.{◌≡◌, length};
ghost use Rattle.class_model.specs.declared.pool.Const.{Const};
ghost use Rattle.pool_edit.specs.Edits.{Adds, Continues, Edit, IsBoundary, TakesBack, grown};

/// What was appended since an edit had some count can be taken away, and the edit is then as it was.
pub fn an_edit_goes_back_to_what_it_was()
    ensures itself { (edit : Edit) → Continues edit edit }
    ensures onwards { (first old new : Edit) (constant : Const)
        → Continues first old
        → Adds old constant new
        → Continues first new }
    ensures boundary { (first edit : Edit)
        → Continues first edit
        → IsBoundary edit (length (grown first)) }
    ensures back { (first edit new : Edit)
        → Continues first edit
        → TakesBack edit (length (grown first)) new
        → new ≡ first }
{}
