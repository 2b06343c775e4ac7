//! What a class file says of the class itself.
use crate::pool::{PoolBytes, low_bits};
use class_model::{NoMemory, push_u2};

/// The flags of a class and the names of it, of its superclass, where it has one, and of its interfaces. Names are of at most
/// 65,535 bytes.
#[derive(Clone, Copy)]
pub(crate) struct Head<'a, 'n> {
    pub flags: u16,
    pub name: &'a [u8],
    pub superclass: Option<&'a [u8]>,
    pub interfaces: &'a [&'n [u8]],
}

impl Head<'_, '_> {
    /// Appends the flags and the names, which are added to a pool.
    pub(crate) fn push_to(&self, out: &mut Vec<u8>, pool: &mut PoolBytes) -> Result<(), NoMemory> {
        push_u2(out, self.flags)?;
        push_u2(out, pool.class(self.name)?)?;
        push_u2(
            out,
            match self.superclass {
                Some(name) => pool.class(name)?,
                None => 0,
            },
        )?;
        push_u2(out, low_bits(self.interfaces.len()))?;
        for name in self.interfaces {
            push_u2(out, pool.class(name)?)?;
        }
        Ok(())
    }
}
