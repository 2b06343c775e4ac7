//! Laws of class file values that were made and not read: functions that do nothing, whose contracts say what always holds.
ghost use Rattle.std.specs.Prelude.{◌≡◌, ℕ, List, [], ◌++◌, Option, Ok, IsSome};
ghost use Rattle.class_model.specs.Checks.{AllHold};
ghost use Rattle.class_model.specs.ClassOf.{class_file_checks, fields_checks, methods_checks, bootstrap_index_checks};
ghost use Rattle.class_model.specs.Frames.{Setting, stack_map_table_at};
ghost use Rattle.class_model.specs.Members.{class_name_checks, super_checks, interfaces_checks, attrs_checks};
ghost use Rattle.class_model.specs.Methods.{Home, class_attr_checks, content_checks, bootstrap_count};
ghost use Rattle.class_model.specs.Pool.{Constants};
ghost use Rattle.class_model.specs.PoolChecks.{utf8_at, entries_checks};
ghost use Rattle.class_model.specs.declared.class_file.ClassFile.{ClassFile};
ghost use Rattle.class_model.specs.declared.class_file.Attr.{Attr};
ghost use Rattle.class_model.specs.declared.class_file.CodePart.{CodePart};
ghost use Rattle.class_model.specs.declared.class_file.Field.{Field};
ghost use Rattle.class_model.specs.declared.class_file.Method.{Method};
ghost use Rattle.class_model.specs.declared.frame.Frame.{Frame};
ghost use Rattle.class_model.specs.declared.frame.PlacedFrame.{PlacedFrame};

/// The checks of a value do not depend on the places of its parts in the file: these only say where a fault is.
pub fn checks_do_not_depend_on_places()
    ensures constants { (major at other : ℕ) (pool entries : Constants)
        → AllHold (entries_checks major pool at entries)
        → AllHold (entries_checks major pool other entries) }
    ensures class_name { (pool : Constants) (at other index : ℕ)
        → AllHold (class_name_checks pool at index)
        → AllHold (class_name_checks pool other index) }
    ensures superclass { (pool : Constants) (at other index : ℕ)
        → AllHold (super_checks pool at index)
        → AllHold (super_checks pool other index) }
    ensures interfaces { (pool : Constants) (at other : ℕ) (indices : List ℕ)
        → AllHold (interfaces_checks pool at indices)
        → AllHold (interfaces_checks pool other indices) }
    ensures fields { (pool : Constants) (flags at other : ℕ) (fields : List Field)
        → AllHold (fields_checks pool flags [] at fields)
        → AllHold (fields_checks pool flags [] other fields) }
    ensures methods { (home : Home) (at other : ℕ) (methods : List Method)
        → AllHold (methods_checks home [] at methods)
        → AllHold (methods_checks home [] other methods) }
    ensures attrs { (pool : Constants) (at other : ℕ) (attrs : List Attr)
        → AllHold (attrs_checks (class_attr_checks pool) [] at attrs)
        → AllHold (attrs_checks (class_attr_checks pool) [] other attrs) }
    ensures dynamics { (count at other : ℕ) (entries : Constants)
        → AllHold (bootstrap_index_checks count at entries)
        → AllHold (bootstrap_index_checks count other entries) }
{}

/// What held over a pool whose constants pass their checks holds over one that has grown at its end, at any place: an index
/// that named a constant names the same. `at` is the place of the pool's first constant.
pub fn checks_hold_over_a_grown_pool()
    ensures constants { (major at from other : ℕ) (pool more entries : Constants)
        → AllHold (entries_checks major pool at pool)
        → AllHold (entries_checks major pool from entries)
        → AllHold (entries_checks major (pool ++ more) other entries) }
    ensures class_name { (major at from other index : ℕ) (pool more : Constants)
        → AllHold (entries_checks major pool at pool)
        → AllHold (class_name_checks pool from index)
        → AllHold (class_name_checks (pool ++ more) other index) }
    ensures fields { (major at from other flags : ℕ) (pool more : Constants)
        (fields : List Field)
        → AllHold (entries_checks major pool at pool)
        → AllHold (fields_checks pool flags [] from fields)
        → AllHold (fields_checks (pool ++ more) flags [] other fields) }
    ensures methods { (home : Home) (more : Constants) (at from other : ℕ)
        (methods : List Method)
        → AllHold (entries_checks home.major home.pool at home.pool)
        → AllHold (methods_checks home [] from methods)
        → AllHold (methods_checks (record home { pool = home.pool ++ more }) [] other methods) }
    ensures code { (home : Home) (more : Constants) (at from other : ℕ) (method : Method)
        (part : Option CodePart)
        → AllHold (entries_checks home.major home.pool at home.pool)
        → IsSome (utf8_at home.pool method.name) → IsSome (utf8_at home.pool method.desc)
        → AllHold (content_checks home method from part)
        → AllHold (content_checks (record home {
          pool = home.pool ++ more;
        }) method other part) }
    ensures frames { (s : Setting) (more : Constants) (major at : ℕ) (entry : Frame)
        (content : List ℕ) (frames : List PlacedFrame)
        → AllHold (entries_checks major s.pool at s.pool)
        → stack_map_table_at s entry content ≡ Ok frames
        → stack_map_table_at (record s { pool = s.pool ++ more }) entry content ≡ Ok frames }
    ensures attrs { (major at from other : ℕ) (pool more : Constants) (attrs : List Attr)
        → AllHold (entries_checks major pool at pool)
        → AllHold (attrs_checks (class_attr_checks pool) [] from attrs)
        → AllHold (attrs_checks (class_attr_checks (pool ++ more)) [] other attrs) }
{}

/// Where the checks of a class file hold, they hold with more constants at the end of its pool, if those of the new constants
/// do: what each is asked itself, and that it names one of the bootstrap methods.
pub fn a_class_file_holds_over_a_grown_pool()
    ensures { (class : ClassFile) (more : Constants) (at from : ℕ)
        → AllHold (class_file_checks class)
        → AllHold (entries_checks class.major (class.pool ++ more) at more)
        → AllHold (bootstrap_index_checks (bootstrap_count class.pool class.attrs) from more)
        → AllHold (class_file_checks (record class { pool = class.pool ++ more })) }
{}
