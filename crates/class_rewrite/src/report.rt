//! The report of a rewriting.
ghost use Rattle.std.specs.Prelude.{◌≡◌};
ghost use Rattle.class_rewrite.specs.ReasonNames.{reason_name};
ghost use Rattle.class_rewrite.specs.Reports.{is_rewritten, rewritten_count};

use class_model::{ListOf, MethodAt};
use flow_code::Reason;

/// What became of a method, and why. The numbers are those of its written code; of a method that is kept they are 0.
#[derive(Clone, Copy)]
pub struct Line {
    pub at: MethodAt,
    pub reason: Reason,
    /// How many sites its flat code has.
    pub sites: u32,
    /// How many `new` of candidate sites are written.
    pub news: u32,
    /// How many `monitorenter` are written.
    pub enters: u32,
    /// The length of its code in bytes.
    pub bytes: u32,
}

/// A line for each method of a folder, by the number of its class and then by its own.
pub type Report = ListOf<Line>;

/// How many methods of a report are rewritten; all others are kept.
pub fn rewritten(report: &Report) -> usize
    ensures { result ≡ rewritten_count report.now }
{
    let mut count = 0;
    for line in report.as_slice() {
        if is_rewritten(line.reason) {
            count += 1;
        }
    }
    count
}

/// Whether this becomes of a method that is rewritten.
pub fn is_rewritten(reason: Reason) -> bool
    ensures { result ≡ is_rewritten reason }
{
    matches!(reason, Reason::Rewritten)
}

/// The name of a reason, as it is printed.
pub fn reason_name(reason: Reason) -> &'static str
    ensures { result.now ≡ reason_name reason }
{
    match reason {
        Reason::Host => "Host",
        Reason::Float => "Float",
        Reason::Expanded => "Expanded",
        Reason::NoSite => "NoSite",
        Reason::Wide => "Wide",
        Reason::NoGain => "NoGain",
        Reason::Long => "Long",
        Reason::PoolFull => "PoolFull",
        Reason::Rewritten => "Rewritten",
    }
}
