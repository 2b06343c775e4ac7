//! The superclasses of a class.
ghost use Rattle.std.specs.Prelude.{IfOk};
ghost use Rattle.class_tree.specs.Headers.{headers_of, IsThere};
ghost use Rattle.class_tree.specs.Subtype.{IsChain};

use crate::tree::Tree;
use class_model::{ListOf, NoMemory, Text, TextList};
use std::alloc::Global;

/// The class of a name and its superclasses, upwards.
pub fn chain(alloc: Global, tree: &Tree, name: &Text) -> Result<TextList, NoMemory>
    requires { IsThere (headers_of tree.now) name.now }
    ensures { IfOk result (λ names. IsChain (headers_of tree.now) name.now names) }
{
    let mut names = ListOf::new(alloc);
    let mut next = tree.find(name.bytes());
    while let Some(place) = next {
        names.push(tree.class_at(place).name.copy()?)?;
        next = tree.superclass(place);
    }
    Ok(names)
}
