//! Numbers of points in place of the offsets of instructions.
ghost use Rattle.std.specs.Prelude.{◌≡◌};
ghost use Rattle.expanded_code.specs.Alone.{number_at};
ghost use Rattle.inline_expand.specs.Inner.Numbers.{number_by, placed_by};

use crate::host::Host;

/// The numbers of a method's points: those of its instructions, or where it stands with callees in place of calls, a number for
/// each of its instructions and one for what is behind them, all counted from a base.
#[derive(Clone, Copy)]
pub(crate) struct Numbers<'s, 't> {
    pub(crate) host: &'s Host<'t>,
    pub(crate) starts: Option<&'s [u16]>,
    pub(crate) base: u16,
}

impl<'s, 't> Numbers<'s, 't> {
    /// The numbers of a method's instructions.
    pub(crate) fn own(host: &'s Host<'t>) -> Self
        ensures host { result.host.now ≡ host.now }
        ensures numbers { number_by result ≡ number_at host.now }
    {
        Numbers {
            host,
            starts: None,
            base: 0,
        }
    }

    /// The number of the point of the instruction at an offset, in bytes; where none starts there, that of what is behind them
    /// all.
    pub(crate) fn number(&self, at: u32) -> u32
        ensures { result ≡ number_by self.now at }
    {
        let number = self.host.number(at);
        match self.starts {
            Some(starts) => placed(starts, self.base, number as usize),
            None => number,
        }
    }
}

// A number behind a base.
fn placed(starts: &[u16], base: u16, number: usize) -> u32
    ensures { result ≡ placed_by starts.now base number }
{
    match starts.get(number) {
        Some(start) => u32::from(base) + u32::from(*start),
        None => u32::from(base),
    }
}
