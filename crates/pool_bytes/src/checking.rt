//! Checking the constants of a pool that was cut out of bytes, in the order of their indices (JVM
//! Specification SE 8, 4.4). Each is asked all that can be said of it, also through the constants that its
//! indices name.
ghost use Rattle.std.specs.Prelude.{◌≡◌, [], ◌∷◌, ◌≢◌, ◌+◌, ◌^◌, ◌<◌, ◌↔◌, ◌⊎◌, length, Err, OnOk, IfSome, IsTrue};
ghost use Rattle.std.specs.List.{flat_map};
ghost use Rattle.std.specs.Option.{option_copied};
ghost use Rattle.class_model.specs.Answers.{Answers};
ghost use Rattle.class_model.specs.ModifiedUtf8.{IsModifiedUtf8};
ghost use Rattle.class_model.specs.Names.{init, IsFieldName, IsMethodName};
ghost use Rattle.class_model.specs.Checks.{check};
ghost use Rattle.class_model.specs.PoolChecks.{name_at, descriptor_at, IsFieldDescriptor, IsMethodDescriptor, InitIsVoid, FitsDescriptor, IsCalledName, RefersWell, class_checks, string_checks, fieldref_checks, methodref_checks, name_and_type_checks, method_type_checks, dynamic_checks, handle_checks, constant_checks, entries_checks};
ghost use Rattle.class_model.specs.Spelling.{entry_bytes};
ghost use Rattle.pool_bytes.specs.Texts.{HasTexts};

use crate::kinds::{Checker, KnownText};
use crate::raw::{RawConst, RawForm, RawPool};
use class_model::reference_kinds::{
    REF_GET_FIELD, REF_INVOKE_INTERFACE, REF_INVOKE_SPECIAL, REF_INVOKE_STATIC, REF_INVOKE_VIRTUAL,
    REF_NEW_INVOKE_SPECIAL, REF_PUT_STATIC,
};
use class_model::{
    CLINIT, ClassFault, Const, FileRule, INIT, is_field_name, is_method_name, is_modified_utf8,
    is_reference_name, is_unqualified_name,
};

impl RawPool<'_> {
    /// Checks the constants, as those of a class file of this major version whose first constant stands at
    /// this place. A text is parsed as a descriptor once; where memory for remembering it runs out, it
    /// is parsed each time that a constant names it.
    ///
    /// # Errors
    /// `Malformed` at the tag of the first constant that breaks a rule, with the first that it breaks: `Text`,
    /// `Index`, `Name` or `Descriptor`.
    pub fn check(&self, major: u16, at: u64) -> Result<(), ClassFault>
        requires { at + length (flat_map entry_bytes self.now) < 2 ^ 64 }
        ensures told { Answers (entries_checks major self.now at self.now) result }
        ensures texts { OnOk result (HasTexts self.now) }
        ensures memory { result ≢ Err ClassFault.NoMemory }
    {
        Checker::new(self).check_all(major, at)
    }
}

impl Checker<'_> {
    // Checks the constants, as `check`.
    fn check_all(&self, major: u16, at: u64) -> Result<(), ClassFault>
        requires { at + length (flat_map entry_bytes self.now) < 2 ^ 64 }
        ensures told { Answers (entries_checks major self.now at self.now) result }
        ensures texts { OnOk result (HasTexts self.now) }
        ensures memory { result ≢ Err ClassFault.NoMemory }
    {
        let mut place = at;
        for index in 1..self.count() {
            if let Some(constant) = self.get(index) {
                self.check_constant(major, place, constant)?;
                place += constant.byte_len();
            }
        }
        Ok(())
    }

    // Checks the constant whose tag stands at this place.
    fn check_constant(&self, major: u16, at: u64, constant: &RawConst<'_>) -> Result<(), ClassFault>
        ensures told { Answers (constant_checks major self.now at constant.now) result }
        ensures memory { result ≢ Err ClassFault.NoMemory }
    {
        match constant.form() {
            RawForm::Text(text) => check_text(at, text),
            RawForm::Constant(constant) => self.check_other(major, at, constant),
        }
    }

    // Checks a constant that is no text that stands in the bytes.
    fn check_other(&self, major: u16, at: u64, constant: &Const) -> Result<(), ClassFault>
        ensures told { Answers (constant_checks major self.now at constant.now) result }
        ensures memory { result ≢ Err ClassFault.NoMemory }
    {
        match constant {
            Const::Utf8(text) => check_text(at, text.bytes()),
            Const::Integer(_) | Const::Float(_) | Const::Long(_) | Const::Double(_) => Ok(()),
            Const::Class(name) => self.check_class(at, *name),
            Const::String(text) => self.check_string(at, *text),
            Const::Fieldref(class, member) => self.check_fieldref(at, *class, *member),
            Const::Methodref(class, member) | Const::InterfaceMethodref(class, member) => {
                self.check_methodref(at, *class, *member)
            }
            Const::NameAndType(name, descriptor) => {
                self.check_name_and_type(at, *name, *descriptor)
            }
            Const::MethodHandle(kind, reference) => self.check_handle(major, at, *kind, *reference),
            Const::MethodType(descriptor) => self.check_method_type(at, *descriptor),
            Const::InvokeDynamic(_, member) => self.check_dynamic(at, *member),
        }
    }
}

// The fault of a constant at this place.
fn broken(at: u64, rule: FileRule) -> Result<(), ClassFault>
    ensures { result ≡ Err (ClassFault.Malformed at rule) }
{
    Err(ClassFault::Malformed { at, rule })
}

fn check_text(at: u64, text: &[u8]) -> Result<(), ClassFault>
    ensures told { Answers (check at FileRule.Text (IsModifiedUtf8 text.now) ∷ []) result }
    ensures memory { result ≢ Err ClassFault.NoMemory }
{
    if is_modified_utf8(text) {
        Ok(())
    } else {
        broken(at, FileRule::Text)
    }
}

// ---- each sort of constant

impl Checker<'_> {
    fn check_class(&self, at: u64, name: u16) -> Result<(), ClassFault>
        ensures told { Answers (class_checks at self.now name) result }
        ensures memory { result ≢ Err ClassFault.NoMemory }
    {
        let Some(name) = self.utf8(name) else {
            return broken(at, FileRule::Index);
        };
        if is_reference_name(name) {
            Ok(())
        } else {
            broken(at, FileRule::Name)
        }
    }

    fn check_string(&self, at: u64, text: u16) -> Result<(), ClassFault>
        ensures told { Answers (string_checks at self.now text) result }
        ensures memory { result ≢ Err ClassFault.NoMemory }
    {
        if self.utf8(text).is_some() {
            Ok(())
        } else {
            broken(at, FileRule::Index)
        }
    }

    fn check_fieldref(&self, at: u64, class: u16, member: u16) -> Result<(), ClassFault>
        ensures told { Answers (fieldref_checks at self.now class member) result }
        ensures memory { result ≢ Err ClassFault.NoMemory }
    {
        if !self.pool().is_class(class) || !self.pool().is_name_and_type(member) {
            return broken(at, FileRule::Index);
        }
        if !self.has_field_name(member) {
            return broken(at, FileRule::Name);
        }
        if !self.has_field_descriptor(member) {
            return broken(at, FileRule::Descriptor);
        }
        Ok(())
    }

    fn check_methodref(&self, at: u64, class: u16, member: u16) -> Result<(), ClassFault>
        ensures told { Answers (methodref_checks at self.now class member) result }
        ensures memory { result ≢ Err ClassFault.NoMemory }
    {
        if !self.pool().is_class(class) || !self.pool().is_name_and_type(member) {
            return broken(at, FileRule::Index);
        }
        if !self.has_called_name(member) {
            return broken(at, FileRule::Name);
        }
        if !self.has_method_descriptor(member) {
            return broken(at, FileRule::Descriptor);
        }
        Ok(())
    }

    fn check_name_and_type(&self, at: u64, name: u16, descriptor: u16) -> Result<(), ClassFault>
        ensures told { Answers (name_and_type_checks at self.now name descriptor) result }
        ensures memory { result ≢ Err ClassFault.NoMemory }
    {
        let (Some(name), Some(descriptor)) = (self.utf8(name), self.text(descriptor)) else {
            return broken(at, FileRule::Index);
        };
        if !fits_descriptor(name, &descriptor) {
            return broken(at, FileRule::Name);
        }
        if !is_descriptor(&descriptor) {
            return broken(at, FileRule::Descriptor);
        }
        Ok(())
    }

    fn check_method_type(&self, at: u64, descriptor: u16) -> Result<(), ClassFault>
        ensures told { Answers (method_type_checks at self.now descriptor) result }
        ensures memory { result ≢ Err ClassFault.NoMemory }
    {
        let Some(descriptor) = self.text(descriptor) else {
            return broken(at, FileRule::Index);
        };
        if descriptor.is_method_descriptor() {
            Ok(())
        } else {
            broken(at, FileRule::Descriptor)
        }
    }

    fn check_dynamic(&self, at: u64, member: u16) -> Result<(), ClassFault>
        ensures told { Answers (dynamic_checks at self.now member) result }
        ensures memory { result ≢ Err ClassFault.NoMemory }
    {
        if !self.pool().is_name_and_type(member) {
            return broken(at, FileRule::Index);
        }
        if !self.has_method_name(member) {
            return broken(at, FileRule::Name);
        }
        if !self.has_method_descriptor(member) {
            return broken(at, FileRule::Descriptor);
        }
        Ok(())
    }
}

// ---- the name and the descriptor of a NameAndType constant, where they are there

impl Checker<'_> {
    fn has_field_name(&self, member: u16) -> bool
        ensures { IsTrue result ↔ IfSome (name_at self.now member) IsFieldName }
    {
        match self.pool().name(member) {
            Some(name) => is_field_name(name),
            None => true,
        }
    }

    fn has_field_descriptor(&self, member: u16) -> bool
        ensures { IsTrue result ↔ IfSome (descriptor_at self.now member) IsFieldDescriptor }
    {
        match self.descriptor(member) {
            Some(descriptor) => descriptor.is_field_descriptor(),
            None => true,
        }
    }

    fn has_method_descriptor(&self, member: u16) -> bool
        ensures { IsTrue result ↔ IfSome (descriptor_at self.now member) IsMethodDescriptor }
    {
        match self.descriptor(member) {
            Some(descriptor) => descriptor.is_method_descriptor(),
            None => true,
        }
    }

    // The name is that of a method that is called.
    fn has_called_name(&self, member: u16) -> bool
        ensures { IsTrue result
            ↔ IfSome (name_at self.now member) (IsCalledName (descriptor_at self.now member)) }
    {
        let descriptor = self.descriptor(member);
        match self.pool().name(member) {
            Some(name) => is_called_name(name, descriptor.as_ref()),
            None => true,
        }
    }

    // The name is that of a method; of a class initialiser, too.
    fn has_method_name(&self, member: u16) -> bool
        ensures { IsTrue result
            ↔ IfSome (name_at self.now member)
            (λ name. IsMethodName name × InitIsVoid name (descriptor_at self.now member)) }
    {
        let descriptor = self.descriptor(member);
        match self.pool().name(member) {
            Some(name) => is_method_name(name) && init_is_void(name, descriptor.as_ref()),
            None => true,
        }
    }

    fn has_init_name(&self, member: u16) -> bool
        ensures { IsTrue result ↔ IfSome (name_at self.now member) (λ name. name ≡ init) }
    {
        match self.pool().name(member) {
            Some(name) => name == INIT,
            None => true,
        }
    }

    fn has_other_name(&self, member: u16) -> bool
        ensures { IsTrue result ↔ IfSome (name_at self.now member) (λ name. name ≢ init) }
    {
        match self.pool().name(member) {
            Some(name) => name != INIT,
            None => true,
        }
    }
}

// ---- method handles

impl Checker<'_> {
    fn check_handle(&self, major: u16, at: u64, kind: u8, reference: u16) -> Result<(), ClassFault>
        ensures told { Answers (handle_checks major at self.now kind reference) result }
        ensures memory { result ≢ Err ClassFault.NoMemory }
    {
        if self.refers_well(major, kind, reference) {
            Ok(())
        } else {
            broken(at, FileRule::Index)
        }
    }

    // Whether a method handle of this kind may refer to what the index names (4.4.8).
    fn refers_well(&self, major: u16, kind: u8, reference: u16) -> bool
        ensures { IsTrue result ↔ RefersWell major self.now kind reference }
    {
        let Some(constant) = self.get(reference) else {
            return false;
        };
        match constant.form() {
            RawForm::Constant(Const::Fieldref(..)) => matches!(
                kind,
                REF_GET_FIELD..=REF_PUT_STATIC
            ),
            RawForm::Constant(Const::Methodref(_, member)) => match kind {
                REF_INVOKE_VIRTUAL..=REF_INVOKE_SPECIAL => self.has_other_name(*member),
                REF_NEW_INVOKE_SPECIAL => self.has_init_name(*member),
                _ => false,
            },
            RawForm::Constant(Const::InterfaceMethodref(_, member)) => match kind {
                REF_INVOKE_STATIC | REF_INVOKE_SPECIAL => {
                    major == 52 && self.has_other_name(*member)
                }
                REF_INVOKE_INTERFACE => self.has_other_name(*member),
                _ => false,
            },
            _ => false,
        }
    }
}

// ---- texts

fn is_descriptor(text: &KnownText<'_>) -> bool
    ensures { IsTrue result ↔ (IsFieldDescriptor text.now ⊎ IsMethodDescriptor text.now) }
{
    text.is_field_descriptor() || text.is_method_descriptor()
}

// Whether an instance initialiser has no result, if its descriptor is that of a method.
fn init_is_void(name: &[u8], descriptor: Option<&KnownText<'_>>) -> bool
    ensures { IsTrue result ↔ InitIsVoid name.now (option_copied descriptor.entry) }
{
    if name != INIT {
        return true;
    }
    match descriptor {
        Some(text) => text.is_void_or_no_method(),
        None => true,
    }
}

// Whether a name is that of a method that is called.
fn is_called_name(name: &[u8], descriptor: Option<&KnownText<'_>>) -> bool
    ensures { IsTrue result ↔ IsCalledName (option_copied descriptor.entry) name.now }
{
    is_method_name(name) && name != CLINIT && init_is_void(name, descriptor)
}

// Whether a name fits its descriptor: with that of a method it is one of a method.
fn fits_descriptor(name: &[u8], descriptor: &KnownText<'_>) -> bool
    ensures { IsTrue result ↔ FitsDescriptor (Some descriptor.now) name.now }
{
    is_unqualified_name(name)
        && (is_method_name(name) || !descriptor.is_method_descriptor())
        && init_is_void(name, Some(descriptor))
}
