//! Laws: functions that do nothing, whose contracts say what always holds.
ghost use Rattle.std.specs.Prelude.{◌≡◌, ◌⊎◌, ◌↔◌, ◌+◌, ◌++◌, ℕ, List, length, Ok, IsTrue};
ghost use Rattle.class_model.specs.Checks.{Fault, AllHold, IsFirstFault};
ghost use Rattle.class_model.specs.ClassOf.{ClassOf, FirstFault, IsOtherVersion};
ghost use Rattle.class_model.specs.Cutting.{IsBytes, Rest, Version, version_at, class_file_at, pool_at, uncut};
ghost use Rattle.class_model.specs.Descriptors.{SpellsFieldType, SpellsDescriptor, parameters_of};
ghost use Rattle.class_model.specs.Header.{FirstHeaderFault, HeaderOf, IsNoLibraryVersion};
ghost use Rattle.class_model.specs.Instructions.{IsSpelling};
ghost use Rattle.class_model.specs.ModifiedUtf8.{IsText};
ghost use Rattle.class_model.specs.Pool.{Constants};
ghost use Rattle.class_model.specs.PoolChecks.{BytesSpell, entries_checks};
ghost use Rattle.class_model.specs.Spelling.{class_bytes, pool_bytes};
ghost use Rattle.class_model.specs.contracts.pool.ConstPartialEq.TheImpl.{ghosts as constants};
ghost use Rattle.class_model.specs.declared.class_file.ClassFile.{ClassFile};
ghost use Rattle.class_model.specs.declared.header.Header.{Header};
ghost use Rattle.class_model.specs.declared.instr.Instr.{Instr};
ghost use Rattle.class_model.specs.declared.descriptor.FieldType.{FieldType};
ghost use Rattle.class_model.specs.declared.descriptor.Descriptor.{Descriptor};
ghost use Rattle.class_model.specs.declared.pool.Const.{Const};

/// A text spells at most one field type.
pub fn a_text_spells_one_field_type()
    ensures { (text : List ℕ) (one other : FieldType)
        → SpellsFieldType text one
        → SpellsFieldType text other
        → one ≡ other }
{}

/// A text spells at most one method descriptor.
pub fn a_text_spells_one_descriptor()
    ensures { (text : List ℕ) (one other : Descriptor)
        → SpellsDescriptor text one
        → SpellsDescriptor text other
        → one ≡ other }
{}

/// The parameters that are cut from the text of a method descriptor are those that it spells.
pub fn parameters_are_spelled()
    ensures { (text : List ℕ) (descriptor : Descriptor)
        → SpellsDescriptor text descriptor
        → parameters_of text ≡ descriptor.params }
{}

/// So are those of any bytes that spell one, whether they are a text or not.
pub fn parameters_of_bytes_are_spelled()
    ensures { (text : List ℕ) (descriptor : Descriptor)
        → BytesSpell text descriptor
        → parameters_of text ≡ descriptor.params }
{}

/// Bytes at an offset of a code spell at most one instruction, and no bytes of one are the front of others.
pub fn a_spelling_is_one_instruction()
    ensures { (at : ℕ) (one other : Instr) (a b x y : List ℕ)
        → IsSpelling at one a
        → IsSpelling at other b
        → a ++ x ≡ b ++ y
        → (one ≡ other) × (a ≡ b) }
{}

/// Bytes have at most one first fault.
pub fn one_first_fault()
    ensures { (bytes : List ℕ) (one other : Fault)
        → FirstFault bytes one
        → FirstFault bytes other
        → one ≡ other }
{}

/// The bytes of a class file have no fault.
pub fn a_class_file_has_no_fault()
    ensures { (bytes : List ℕ) (class : ClassFile) (f : Fault)
        → ClassOf bytes class
        → ¬ FirstFault bytes f }
{}

/// Bytes of a version that is not read are no class file and have no fault.
pub fn another_version_is_no_class_file()
    ensures { (bytes : List ℕ) (version : Version)
        → IsOtherVersion bytes version
        → ((class : ClassFile) → ¬ ClassOf bytes class) × ((f : Fault) → ¬ FirstFault bytes f) }
{}

/// Bytes are at most one class file.
pub fn bytes_are_one_class_file()
    ensures { (bytes : List ℕ) (one other : ClassFile)
        → ClassOf bytes one
        → ClassOf bytes other
        → one ≡ other }
{}

/// A class file is spelled by its bytes.
pub fn a_class_file_is_spelled()
    ensures { (bytes : List ℕ) (class : ClassFile)
        → IsBytes bytes
        → ClassOf bytes class
        → bytes ≡ class_bytes class }
{}

/// Bytes are a class file, or of a version that is not read, or have a first fault.
pub fn each_file_is_told()
    ensures { (bytes : List ℕ)
        → ((class : ClassFile) × ClassOf bytes class)
        ⊎ (((version : Version) × IsOtherVersion bytes version)
        ⊎ ((f : Fault) × FirstFault bytes f)) }
{}

/// The bytes of a library's class file are told in one way: by their header, by their first fault, or by their version
/// that is not read.
pub fn a_library_file_is_told_once()
    ensures header { (bytes : List ℕ) (one other : Header)
        → HeaderOf bytes one
        → HeaderOf bytes other
        → one ≡ other }
    ensures fault { (bytes : List ℕ) (one other : Fault)
        → FirstHeaderFault bytes one
        → FirstHeaderFault bytes other
        → one ≡ other }
    ensures version { (bytes : List ℕ) (one other : Version)
        → IsNoLibraryVersion bytes one
        → IsNoLibraryVersion bytes other
        → one ≡ other }
    ensures no_fault { (bytes : List ℕ) (header : Header) (f : Fault)
        → HeaderOf bytes header
        → ¬ FirstHeaderFault bytes f }
    ensures no_other { (bytes : List ℕ) (header : Header) (v : Version)
        → HeaderOf bytes header
        → ¬ IsNoLibraryVersion bytes v }
    ensures other_no_fault { (bytes : List ℕ) (v : Version) (f : Fault)
        → IsNoLibraryVersion bytes v
        → ¬ FirstHeaderFault bytes f }
{}

/// The bytes of a library's class file have a header, or are of a version that is not read, or have a first fault.
pub fn each_library_file_is_told()
    ensures { (bytes : List ℕ)
        → ((header : Header) × HeaderOf bytes header)
        ⊎ (((version : Version) × IsNoLibraryVersion bytes version)
        ⊎ ((f : Fault) × FirstHeaderFault bytes f)) }
{}

/// The checks of a pool hold, or one of them is the first that fails.
pub fn each_pool_is_decided()
    ensures { (major : ℕ) (pool : Constants) (at : ℕ) (entries : Constants)
        → AllHold (entries_checks major pool at entries)
        ⊎ ((f : Fault) × IsFirstFault (entries_checks major pool at entries) f) }
{}

/// A constant pool that is cut from bytes is spelled by those that it took.
pub fn a_cut_pool_is_spelled()
    ensures { (major : ℕ) (rest after : Rest) (pool : Constants)
        → IsBytes rest.bytes
        → pool_at major rest ≡ Ok (pool, after)
        → (rest.bytes ≡ pool_bytes pool ++ after.bytes)
        × (after.at ≡ rest.at + length (pool_bytes pool)) }
{}

/// A class file that was cut out of bytes is spelled by them, and its pool begins at the eighth.
pub fn a_cut_class_is_spelled()
    ensures { (bytes : List ℕ) (version : Version) (rest : Rest) (class : ClassFile)
        → IsBytes bytes
        → version_at (uncut bytes) ≡ Ok (version, rest)
        → class_file_at version rest ≡ Ok class
        → (bytes ≡ class_bytes class) × (rest.at ≡ 8) }
{}

/// Bytes of a text that are a method descriptor spell it as a text: the names in it are texts.
pub fn a_descriptor_of_a_text()
    ensures { (text : List ℕ) (descriptor : Descriptor)
        → IsText text
        → BytesSpell text descriptor
        → SpellsDescriptor text descriptor }
{}

/// The comparison of constants, by which a map finds them, holds of equal values alone.
pub fn constants_compare_by_value()
    ensures { (one other : Const) → IsTrue (constants.eq one other) ↔ (one ≡ other) }
{}
