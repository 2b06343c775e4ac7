//! How the program is called, and which word is wrong where words are no command.
use crate::lines::Lines;
use class_model::NoMemory;
use std::alloc::Global;

/// A command: its name, its positional words, of which both or a second one may be missing, and whether it takes `--lib`, `--steps`, and
/// `--number` with `--size`.
#[derive(Clone, Copy)]
struct Form {
    name: &'static str,
    first: Option<&'static str>,
    second: Option<&'static str>,
    takes_library: bool,
    takes_steps: bool,
    takes_draws: bool,
}

/// An option of commands.
#[derive(Clone, Copy)]
enum Flag {
    Lib,
    Steps,
    Number,
    Size,
}

/// The words behind a command's name, as far as they were read.
#[derive(Clone, Copy)]
struct Seen<'a> {
    first: Option<&'a str>,
    second: Option<&'a str>,
    library: Option<&'a str>,
    steps: Option<&'a str>,
    number: Option<&'a str>,
    size: Option<&'a str>,
    awaited: Option<Flag>,
}

/// Explains why words are no command, by the first word that is wrong and what was expected there, and then how the program is
/// called, with its version. Where the words ask for that, no word is wrong.
pub fn explain_usage(alloc: Global, words: &[String]) -> Result<String, NoMemory> {
    let mut lines = Lines::new(alloc);
    match words.split_first() {
        Some((name, rest)) => put_words(&mut lines, name.as_str(), rest),
        None => {
            lines.put("pea: error: there is no word, or one that is not UTF-8; ");
            lines.put("a command is expected: verify, plan, optimise, run, both, list or gen\n");
        }
    }
    put_usage(&mut lines);
    lines.finish()
}

fn put_words(lines: &mut Lines, name: &str, rest: &[String]) {
    match name {
        "--help" | "-h" | "help" | "--version" => {
            lines.put("pea: note: this is pea 0.1.0, an optimiser for Java class files\n");
        }
        _ => match form_of(name) {
            Some(form) => put_arguments(lines, form, rest),
            None => {
                put_wrong(lines, name);
                lines.put(
                    " is no command; expected is verify, plan, optimise, run, both, list or gen\n",
                );
            }
        },
    }
}

fn form_of(name: &str) -> Option<Form> {
    match name {
        "verify" => Some(plain_form("verify")),
        "plan" => Some(plain_form("plan")),
        "optimise" => Some(Form {
            second: Some("OUT"),
            ..plain_form("optimise")
        }),
        "run" => Some(run_form("run")),
        "both" => Some(run_form("both")),
        "list" => Some(Form {
            second: Some("NAME"),
            takes_library: false,
            ..plain_form("list")
        }),
        "gen" => Some(Form {
            first: None,
            takes_library: false,
            takes_draws: true,
            ..plain_form("gen")
        }),
        _ => None,
    }
}

fn plain_form(name: &'static str) -> Form {
    Form {
        name,
        first: Some("IN"),
        second: None,
        takes_library: true,
        takes_steps: false,
        takes_draws: false,
    }
}

fn run_form(name: &'static str) -> Form {
    Form {
        second: Some("SCRIPT"),
        takes_steps: true,
        ..plain_form(name)
    }
}

// Begins a line about a wrong word.
fn put_wrong(lines: &mut Lines, word: &str) {
    lines.put("pea: error: the word '");
    lines.name(word.as_bytes());
    lines.put("'");
}

// The first word that is wrong, else what is missing.
fn put_arguments(lines: &mut Lines, form: Form, words: &[String]) {
    let mut seen = Seen {
        first: None,
        second: None,
        library: None,
        steps: None,
        number: None,
        size: None,
        awaited: None,
    };
    for word in words {
        match seen.with(lines, form, word.as_str()) {
            Some(next) => seen = next,
            None => return,
        }
    }
    seen.put_end(lines, form);
}

impl<'a> Seen<'a> {
    // With one more word; none where the word is wrong, which is then said.
    fn with(self, lines: &mut Lines, form: Form, word: &'a str) -> Option<Self> {
        if let Some(flag) = self.awaited {
            if word.is_empty() || word.starts_with('-') {
                put_wrong(lines, word);
                lines.put(flag.expected());
                return None;
            }
            return self.with_value(lines, form, flag, word);
        }
        match flag_of(word) {
            Some(flag) => Some(Seen {
                awaited: Some(flag),
                ..self
            }),
            None => self.with_joined(lines, form, word),
        }
    }

    fn with_joined(self, lines: &mut Lines, form: Form, word: &'a str) -> Option<Self> {
        if let Some((name, value)) = word.split_once('=') {
            if let Some(flag) = flag_of(name) {
                if value.is_empty() {
                    put_wrong(lines, word);
                    lines.put(flag.expected());
                    return None;
                }
                return self.with_value(lines, form, flag, value);
            }
        }
        self.with_positional(lines, form, word)
    }

    fn with_value(self, lines: &mut Lines, form: Form, flag: Flag, value: &'a str) -> Option<Self> {
        let next = Seen {
            awaited: None,
            ..self
        };
        match flag {
            Flag::Lib if self.library.is_none() && form.takes_library => Some(Seen {
                library: Some(value),
                ..next
            }),
            Flag::Steps if self.steps.is_none() && form.takes_steps => Some(Seen {
                steps: Some(value),
                ..next
            }),
            Flag::Number if self.number.is_none() && form.takes_draws => Some(Seen {
                number: Some(value),
                ..next
            }),
            Flag::Size if self.size.is_none() && form.takes_draws => Some(Seen {
                size: Some(value),
                ..next
            }),
            Flag::Lib => {
                lines.put("pea: error: --lib is given twice, or to list or gen\n");
                None
            }
            Flag::Number => {
                lines.put("pea: error: --number is given twice, or to a command other than gen\n");
                None
            }
            Flag::Size => {
                lines.put("pea: error: --size is given twice, or to a command other than gen\n");
                None
            }
            Flag::Steps => {
                lines.put(
                    "pea: error: --steps is given twice, or to a command other than run and both\n",
                );
                None
            }
        }
    }

    fn with_positional(self, lines: &mut Lines, form: Form, word: &'a str) -> Option<Self> {
        if word.is_empty() || word.starts_with('-') {
            put_wrong(lines, word);
            lines.put(" is no option; expected is --lib LIB, of run and both also --steps N, ");
            lines.put("of gen --number S and --size M, or a folder\n");
            return None;
        }
        if self.first.is_none() && form.first.is_some() {
            return Some(Seen {
                first: Some(word),
                ..self
            });
        }
        if self.second.is_none() && form.second.is_some() {
            return Some(Seen {
                second: Some(word),
                ..self
            });
        }
        put_wrong(lines, word);
        lines.put(" is one too many behind ");
        lines.put(form.name);
        lines.put("\n");
        None
    }

    // What is missing or does not go together, where no single word is wrong.
    fn put_end(self, lines: &mut Lines, form: Form) {
        if let Some(flag) = self.awaited {
            lines.put("pea: error: the last word");
            lines.put(flag.expected());
            return;
        }
        let missing = self.missing(form);
        if !missing.is_empty() {
            lines.put("pea: error: ");
            lines.put(missing);
            lines.put(" is missing behind ");
            lines.put(form.name);
            lines.put("\n");
        } else {
            self.put_values(lines);
        }
    }

    // Which number is outside its bounds, where nothing is missing.
    fn put_values(self, lines: &mut Lines) {
        match (self.steps, self.number, self.size) {
            (Some(steps), _, _) => {
                put_wrong(lines, steps);
                lines.put(" is no number of steps; expected is a decimal number up to 10000000\n");
            }
            (_, Some(number), _) if !is_within(number, 0, 2_147_483_647) => {
                put_wrong(lines, number);
                lines.put(Flag::Number.expected());
            }
            (_, _, Some(size)) => {
                put_wrong(lines, size);
                lines.put(Flag::Size.expected());
            }
            _ => lines.put(
                "pea: error: OUT is the same word as IN or LIB; another folder is expected\n",
            ),
        }
    }

    fn missing(self, form: Form) -> &'static str {
        match form.first {
            Some(first) if self.first.is_none() => return first,
            _ => {}
        }
        match form.second {
            Some(second) if self.second.is_none() => return second,
            _ => {}
        }
        if self.library.is_none() && form.takes_library {
            "--lib LIB"
        } else if self.number.is_none() && form.takes_draws {
            "--number S"
        } else if self.size.is_none() && form.takes_draws {
            "--size M"
        } else {
            ""
        }
    }
}

impl Flag {
    // What is expected as its value.
    fn expected(self) -> &'static str {
        match self {
            Flag::Lib => ": expected is the folder of a library, as the value of --lib\n",
            Flag::Steps => {
                ": expected is a decimal number up to 10000000, as the value of --steps\n"
            }
            Flag::Number => {
                ": expected is a decimal number up to 2147483647, as the value of --number\n"
            }
            Flag::Size => {
                ": expected is a decimal number from 1 to 1000, as the value of --size\n"
            }
        }
    }
}

fn flag_of(word: &str) -> Option<Flag> {
    match word {
        "--lib" => Some(Flag::Lib),
        "--steps" => Some(Flag::Steps),
        "--number" => Some(Flag::Number),
        "--size" => Some(Flag::Size),
        _ => None,
    }
}

// A decimal number of at most 20 digits within these bounds.
fn is_within(word: &str, least: u64, most: u64) -> bool {
    if word.len() > 20 || word.starts_with('+') {
        return false;
    }
    match word.parse::<u64>() {
        Ok(number) => least <= number && number <= most,
        Err(_) => false,
    }
}

fn put_usage(lines: &mut Lines) {
    lines.put("  pea 0.1.0 has seven commands; their arguments come in any order\n");
    lines.put("  pea verify IN --lib LIB\n");
    lines.put("    whether IN is linked with LIB and verifies, as\n");
    lines.put("    pea verify examples/first/in --lib examples/first/lib\n");
    lines.put("  pea plan IN --lib LIB\n");
    lines.put("    also what becomes of each method when IN is optimised, and why, as\n");
    lines.put("    pea plan examples/points/in --lib examples/first/lib\n");
    lines.put("  pea optimise IN OUT --lib LIB\n");
    lines.put("    the same, and writes the files of IN to OUT, as\n");
    lines.put("    pea optimise examples/first/in out --lib examples/first/lib\n");
    lines.put("  pea run IN SCRIPT --lib LIB [--steps N]\n");
    lines.put("    runs IN by the actions of the library that SCRIPT has, as\n");
    lines.put("    pea run examples/points/in examples/points/script --lib examples/first/lib\n");
    lines.put("  pea both IN SCRIPT --lib LIB [--steps N]\n");
    lines.put("    the same, and then what IN is optimised to, without writing it, as\n");
    lines.put("    pea both examples/points/in examples/points/script --lib examples/first/lib\n");
    lines.put("  pea list IN NAME\n");
    lines.put("    the parts of the class file NAME of IN, a line each, as\n");
    lines.put("    pea list examples/points/in Point.class\n");
    lines.put("  pea gen --number S --size M\n");
    lines.put("    makes M methods, drawn from S, and optimises and runs them, as\n");
    lines.put("    pea gen --number 1 --size 2\n");
    lines.put("  each of IN, OUT and LIB is a folder of files, and OUT is neither IN nor LIB\n");
    lines.put(
        "  SCRIPT is a file, and N is at most 10000000 steps, and 1000000 where it is left out\n",
    );
    lines.put("  S is at most 2147483647, and M is from 1 to 1000\n");
}
