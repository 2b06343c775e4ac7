//! A method where it stands.
ghost use Rattle.std.specs.Prelude.{◌≡◌, ◌≤◌, IfOk};
ghost use Rattle.class_model.specs.Header.{header_of};
ghost use Rattle.class_model.specs.Methods.{entry_of, home_of};
ghost use Rattle.code_bytes.specs.Codes.{IsReadMethod};
ghost use Rattle.member_link.specs.Scope.{scope_at};

use class_model::{ClassFile, CodePart, Frame, ListOf, Method, MethodAt, NoMemory, Text};
use class_tree::{Place, Tree};
use code_bytes::{a_class_file_has_read_methods, entry_frame, method_descriptor};
use std::alloc::Global;
use std::marker::Model;
use type_rules::code_of;

/// A method with code, its class, and the name of that. Contracts see its scope.
pub(crate) struct Home<'t> {
    tree: &'t Tree,
    class: &'t ClassFile,
    name: &'t Text,
    method: &'t Method,
    part: &'t CodePart,
}

// Written out: a derived drop would be spelled out, field by field, in each function that drops one, and be proved there.
impl Drop for Home<'_> {
    fn drop(self) {
        let Home {
            tree: _,
            class: _,
            name: _,
            method: _,
            part: _,
        } = self;
    }
}

impl<'t> Model for Home<'t> {
    ghost use Rattle.std.specs.Prelude.{◌≡◌};
    ghost use Rattle.class_model.specs.Header.{header_of};
    ghost use Rattle.class_tree.specs.Headers.{headers_of};
    ghost use Rattle.code_bytes.specs.Codes.{IsReadMethod};
    ghost use Rattle.member_link.specs.Scope.{Scope};

    ghost Value = { Scope };

    ghost view = { λ home. record {
      headers = headers_of home.tree.now;
      class = home.class.now;
      method = home.method.now;
      part = home.part.now;
    } };

    ghost invariant = { λ home.
        IsReadMethod home.class.now.pool home.method.now
        × (home.name.now ≡ (header_of home.class.now).name) };
}

impl<'t> Home<'t> {
    /// The method of these numbers; none where it is not there or has no code.
    pub(crate) fn at(tree: &'t Tree, at: MethodAt) -> Option<Home<'t>>
        ensures { result ≡ scope_at tree.now at }
    {
        a_class_file_has_read_methods();
        let Some(class) = tree.folder().get(at.class) else {
            return None;
        };
        let Some(header) = tree.header(Place::Folder(at.class)) else {
            return None;
        };
        let Some(method) = class.methods.get(at.method) else {
            return None;
        };
        let Some(part) = code_of(method.attrs.as_slice()) else {
            return None;
        };
        Some(Home {
            tree,
            class,
            name: &header.name,
            method,
            part,
        })
    }

    /// The class.
    pub(crate) fn class(&self) -> &'t ClassFile
        ensures { result.now ≡ self.now.class }
    {
        self.class
    }

    /// The name of the class.
    pub(crate) fn name(&self) -> &'t Text
        ensures { result.now ≡ (header_of self.now.class).name }
    {
        self.name
    }

    /// The frame with which its code begins, if that has so many local units.
    ///
    /// # Errors
    /// `NoMemory`, where memory runs out.
    pub(crate) fn entry(&self, alloc: Global, locals: u16) -> Result<Frame, NoMemory>
        ensures { IfOk result (λ frame.
            frame
            ≡ entry_of (home_of self.now.class) self.now.method
            (record self.now.part { max_locals = locals })) }
    {
        let Some(text) = self.class.pool.utf8(self.method.desc) else {
            unreachable!()
        };
        let descriptor = method_descriptor(alloc, text, self.method.flags)?;
        let part = CodePart {
            max_stack: 0,
            max_locals: locals,
            code: ListOf::new(alloc),
            handlers: ListOf::new(alloc),
            attrs: ListOf::new(alloc),
        };
        let params = descriptor.params.as_slice();
        let entry = entry_frame(alloc, self.class, self.method, &part, params);
        // let go by calls, so that their drops are proved once
        drop(part);
        drop(descriptor);
        entry
    }
}
