//! Files of cases that a program asks over settings.
use crate::case::{print_difference, question_of};
use crate::lines::{Line, lines_of};
use crate::setting::Setting;
use std::alloc::Global;
use std::process::ExitCode;
use std::{env, fs};

/// Asks the cases of the files that the program's words name. It prints each case that is answered otherwise, with its line,
/// and the number of cases of each file; and it fails where a file cannot be read or memory runs out.
pub fn compare_files<A>(rt: &HostRuntime, answer: A) -> ExitCode
where
    A: Fn(Global, &Setting<'_>, &str) -> Option<String>,
    requires callable { A.IsAlwaysCallable answer }
{
    let Ok(args) = env::args(rt) else {
        return ExitCode::FAILURE;
    };
    let Ok(names) = args.skip(1).collect::<Vec<String>>(rt.alloc()) else {
        return ExitCode::FAILURE;
    };
    for name in names.as_slice() {
        if compare_file(rt, name, &answer).is_none() {
            return ExitCode::FAILURE;
        }
    }
    ExitCode::SUCCESS
}

// Asks the cases of a file. None where the file cannot be read or memory runs out.
fn compare_file<A>(rt: &HostRuntime, name: &str, answer: &A) -> Option<()>
where
    A: Fn(Global, &Setting<'_>, &str) -> Option<String>,
    requires callable { A.IsAlwaysCallable answer.now }
{
    let text = fs::read_to_string(rt, name).ok()?;
    let lines = lines_of(rt.alloc(), &text)?;
    drop(text);
    let counted = compare_lines(rt, name, answer, lines.as_slice());
    drop(lines);
    let count = counted?;
    println!(rt; "{name}: {count}").ok()
}

// How many cases some lines of a file are, which it asks.
fn compare_lines<A>(rt: &HostRuntime, name: &str, answer: &A, lines: &[Line]) -> Option<u64>
where
    A: Fn(Global, &Setting<'_>, &str) -> Option<String>,
    requires callable { A.IsAlwaysCallable answer.now }
{
    let mut setting = Setting::empty();
    let mut count: u64 = 0;
    for line in lines {
        if !setting.take(&line.text) {
            let place = format!(in rt.alloc(); "{name}:{}", line.number).ok()?;
            let came = match question_of(&line.text) {
                Some(question) => answer(rt.alloc(), &setting, question),
                None => None,
            };
            print_difference(rt, &place, &line.text, came)?;
            count = count.wrapping_add(1);
        }
    }
    Some(count)
}
