//! The descriptors of methods (JVM Specification SE 8, 4.3.3).
ghost use Rattle.std.specs.Prelude.{◌≡◌, IfOk};
ghost use Rattle.class_model.specs.Descriptors.{SpellsDescriptor, parameters_of};
ghost use Rattle.class_model.specs.Methods.{IsDescriptorOf};

use class_model::{
    Descriptor, NameFault, NoMemory, Text, parameters_are_spelled, parse_descriptor,
};
use std::alloc::Global;

/// The method descriptor that a text spells, which is that of a method of these flags.
pub fn method_descriptor(alloc: Global, text: &Text, flags: u16) -> Result<Descriptor, NoMemory>
    requires { IsDescriptorOf flags text.now }
    ensures spelled { IfOk result (SpellsDescriptor text.now) }
    ensures params { IfOk result (λ descriptor. parameters_of text.now ≡ descriptor.params) }
{
    parameters_are_spelled();
    match parse_descriptor(alloc, text) {
        Ok(descriptor) => Ok(descriptor),
        Err(NameFault::NoMemory) => Err(NoMemory),
        Err(NameFault::BadName) => unreachable!(),
    }
}
