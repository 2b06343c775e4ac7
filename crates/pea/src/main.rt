//! The program `pea`: its words, the real host, and the exit status.
#![tactic(auto)]

ghost use Rattle.std.specs.Prelude.{◌≡◌};
ghost use Rattle.std.specs.Process.{exit_status};
ghost use Rattle.pea_top.specs.Status.{status_code};

use class_model::NoMemory;
use host_tree::RealHost;
use pea_top::{Status, pea};
use std::io::ErrorKind;
use std::process::ExitCode;
use std::{env, fs};

fn main(rt: HostRuntime) -> ExitCode {
    let mut host = RealHost::new(rt, &rt.stderr());
    let status = match words_of(&rt) {
        Ok(words) => {
            warn_of_output(&rt, &words);
            pea(rt.alloc(), &words, &mut host)
        }
        Err(NoMemory) => Status::NoMemory,
    };
    host.end_progress();
    exit_code(&status)
}

/// The words after the program's name. Words that cannot be had as text make no command, and so none
/// are passed on.
fn words_of(rt: &HostRuntime) -> Result<Vec<String>, NoMemory> {
    match env::args(rt) {
        Ok(args) => Ok(args.skip(1).collect(rt.alloc())?),
        Err(error) if error.kind() == ErrorKind::OutOfMemory => Err(NoMemory),
        Err(_) => Ok(Vec::new(rt.alloc())),
    }
}

/// The folders that a command names.
#[derive(Clone, Copy)]
struct Named<'a> {
    input: Option<&'a str>,
    output: Option<&'a str>,
    library: Option<&'a str>,
}

/// Warns the user where a command is to write into the folder that it reads, or into its library, by another path. Where the two words
/// are the same the command is refused.
fn warn_of_output(rt: &HostRuntime, words: &[String]) {
    let Some((name, rest)) = words.split_first() else {
        return;
    };
    if name.as_str() != "optimise" {
        return;
    }
    let named = folders_in(rest);
    if let Some(output) = named.output {
        if is_other_path(rt, named.input, output) {
            let _ = eprintln!(rt;
                "pea: note: OUT is the folder IN by another path: the files of IN are overwritten"
            );
        }
        if is_other_path(rt, named.library, output) {
            let _ = eprintln!(rt;
                "pea: note: OUT is the folder LIB by another path: files of LIB may be overwritten"
            );
        }
    }
}

/// The folders among the words behind the name of a command that optimises.
fn folders_in(words: &[String]) -> Named<'_> {
    let mut named = Named {
        input: None,
        output: None,
        library: None,
    };
    let mut is_value = false;
    for word in words {
        let word = word.as_str();
        if is_value {
            is_value = false;
            named.library = Some(word);
        } else if word == "--lib" {
            is_value = true;
        } else if let Some(value) = word.strip_prefix("--lib=") {
            named.library = Some(value);
        } else if named.input.is_none() {
            named.input = Some(word);
        } else {
            named.output = Some(word);
        }
    }
    named
}

/// Whether two words are paths of one folder that is there, and are not the same.
fn is_other_path(rt: &HostRuntime, one: Option<&str>, other: &str) -> bool {
    let Some(one) = one else {
        return false;
    };
    if one == other {
        return false;
    }
    match (fs::canonicalize(rt, one), fs::canonicalize(rt, other)) {
        (Ok(one), Ok(other)) => one.as_str() == other.as_str(),
        _ => false,
    }
}

/// The exit code of a status.
fn exit_code(status: &Status) -> ExitCode
    ensures { exit_status result ≡ status_code status.now }
{
    ExitCode::from(status.code())
}
