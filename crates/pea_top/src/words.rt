//! The grammar of the words.
ghost use Rattle.std.specs.Prelude.{◌≡◌, ◌≢◌, ◌⊎◌, ℕ, true, false, [], ◌++◌, ◌↔◌, codes, map, string_bytes, IfSome, IfNone};
ghost use Rattle.pea_top.specs.Words.{Word, IsOperand, IsWithin, HasSteps, CommandOption, steps_option, number_option, size_option, option_name, Positional, Joined};
ghost use Rattle.pea_top.specs.Words.{name_of, Spells, IsUsage};
ghost use Rattle.pea_top.specs.Words.{Command as grammar_command};
ghost use Rattle.pea_top.specs.CommandView.{command_view};
ghost use Rattle.pea_top.specs.Seen.{option_view, values_seen, Makes, MakesNone, EndsCommand, AreBehindName, Leads, Fails, Adds, IsTooMany};

/// What is done with a folder: to optimise it into the folder `output`, to verify it, to say what becomes of each of its methods, to run
/// it by the file `script` for at most `steps` steps, or to run both it and its written folder.
#[derive(Clone, Copy)]
pub(crate) enum Task<'a> {
    Optimise { output: &'a str },
    Verify,
    Plan,
    Run { script: &'a str, steps: u64 },
    Both { script: &'a str, steps: u64 },
}

/// What the words ask for: to do this with the folder `input` and the folder of the library, to list the class file of this name in
/// the folder `input`, or to generate work of this number and size and to run it before and after it is optimised.
#[derive(Clone, Copy)]
pub(crate) enum Command<'a> {
    OnFolder {
        input: &'a str,
        library: &'a str,
        task: Task<'a>,
    },
    Listing {
        input: &'a str,
        name: &'a str,
    },
    Generated {
        number: u32,
        size: u32,
    },
}

/// The steps of a run where --steps is absent.
const DEFAULT_STEPS: u64 = 1_000_000;

/// The most steps that --steps may give.
const MOST_STEPS: u64 = 10_000_000;

/// The greatest number that --number may give.
const MOST_NUMBER: u64 = 2_147_483_647;

/// The most methods that --size may give.
const MOST_SIZE: u64 = 1000;

/// An option of a command.
#[derive(Clone, Copy)]
enum OptionName {
    /// `--lib`, the folder of the library.
    Lib,
    /// `--steps`, the most steps of a run.
    Steps,
    /// `--number`, from which generated work is drawn.
    Number,
    /// `--size`, how many methods are generated.
    Size,
}

/// The positional words seen so far.
#[derive(Clone, Copy)]
enum Positionals<'a> {
    Zero,
    One(&'a str),
    Two(&'a str, &'a str),
}

/// The positional words and the values of options seen so far.
#[derive(Clone, Copy)]
struct Arguments<'a> {
    positional: Positionals<'a>,
    library: Option<&'a str>,
    steps: Option<&'a str>,
    number: Option<&'a str>,
    size: Option<&'a str>,
}

/// What the words seen so far say of a command.
#[derive(Clone, Copy)]
struct Seen<'a> {
    arguments: Arguments<'a>,
    /// The option that was the last word, whose value is the next one.
    awaited: Option<OptionName>,
}

/// The command that the words spell.
pub(crate) fn command_of(words: &[String]) -> Option<Command<'_>>
    ensures some { IfSome result
        (λ command. Spells (command_view command) (map string_bytes words.now)) }
    ensures none { IfNone result (IsUsage (map string_bytes words.now)) }
{
    let (name, rest) = words.split_first()?;
    let arguments = arguments_in(rest)?;
    match name.as_str() {
        "optimise" => arguments.optimise(),
        "verify" => arguments.verify(),
        "plan" => arguments.plan(),
        "run" => arguments.run(),
        "both" => arguments.both(),
        "list" => arguments.list(),
        "gen" => arguments.generated(),
        _ => None,
    }
}

/// The arguments in the words behind a command's name.
fn arguments_in(words: &[String]) -> Option<Arguments<'_>>
    ensures some { IfSome result (λ arguments.
        (command : grammar_command)
        → Makes arguments command ↔ AreBehindName (map string_bytes words.now) command) }
    ensures none { IfNone result
        ((command : grammar_command) → ¬ AreBehindName (map string_bytes words.now) command) }
{
    let seen = seen_in(words)?;
    match seen.awaited {
        Some(_) => None,
        None => Some(seen.arguments),
    }
}

/// What the words behind a command's name say of it.
fn seen_in(words: &[String]) -> Option<Seen<'_>>
    ensures some { IfSome result (λ seen.
        (command : grammar_command)
        → EndsCommand seen [] command ↔ AreBehindName (map string_bytes words.now) command) }
    ensures none { IfNone result
        ((command : grammar_command) → ¬ AreBehindName (map string_bytes words.now) command) }
{
    let mut seen = Seen {
        arguments: Arguments {
            positional: Positionals::Zero,
            library: None,
            steps: None,
            number: None,
            size: None,
        },
        awaited: None,
    };
    for word in words {
        seen = seen.with(word.as_str())?;
    }
    Some(seen)
}

impl<'a> Seen<'a> {
    /// What is seen with one more word, where it can stand behind the words seen.
    fn with(self, word: &'a str) -> Option<Self>
        ensures some { IfSome result (λ next. Leads self.entry word.now next) }
        ensures none { IfNone result (Fails self.entry word.now) }
    {
        match self.awaited {
            Some(option) => self.with_value(option, word),
            None => self.with_word(word),
        }
    }

    /// The same, where the word is the value of this option.
    fn with_value(self, option: OptionName, word: &'a str) -> Option<Self>
        requires { self.awaited ≡ Some option }
        ensures some { IfSome result (λ next. Leads self.entry word.now next) }
        ensures none { IfNone result (Fails self.entry word.now) }
    {
        let arguments = self.arguments.with_option(option, operand(word)?)?;
        Some(Seen {
            arguments,
            awaited: None,
        })
    }

    /// The same, where the word is the value of no option.
    fn with_word(self, word: &'a str) -> Option<Self>
        requires { self.awaited ≡ None }
        ensures some { IfSome result (λ next. Leads self.entry word.now next) }
        ensures none { IfNone result (Fails self.entry word.now) }
    {
        if let Some(option) = option_of(word) {
            return Some(Seen {
                awaited: Some(option),
                ..self
            });
        }
        let arguments = match joined_value(word) {
            Some((option, value)) => self.arguments.with_option(option, value)?,
            None => self.arguments.with_positional(operand(word)?)?,
        };
        Some(Seen {
            arguments,
            awaited: None,
        })
    }
}

impl<'a> Arguments<'a> {
    /// With one more positional word, of which there are two at most.
    fn with_positional(self, word: &'a str) -> Option<Self>
        ensures some { IfSome result (λ next. Adds self.entry (Positional word.now) next) }
        ensures none { IfNone result (IsTooMany self.entry (Positional word.now)) }
    {
        let positional = match self.positional {
            Positionals::Zero => Positionals::One(word),
            Positionals::One(first) => Positionals::Two(first, word),
            Positionals::Two(..) => return None,
        };
        Some(Arguments { positional, ..self })
    }

    /// With the value of an option, which is given once at most.
    fn with_option(self, option: OptionName, value: &'a str) -> Option<Self>
        ensures some { IfSome result
            (λ next. Adds self.entry (Joined (option_view option) value.now) next) }
        ensures none { IfNone result (IsTooMany self.entry (Joined (option_view option) value.now)) }
    {
        match option {
            OptionName::Lib if self.library.is_none() => Some(Arguments {
                library: Some(value),
                ..self
            }),
            OptionName::Steps if self.steps.is_none() => Some(Arguments {
                steps: Some(value),
                ..self
            }),
            OptionName::Number if self.number.is_none() => Some(Arguments {
                number: Some(value),
                ..self
            }),
            OptionName::Size if self.size.is_none() => Some(Arguments {
                size: Some(value),
                ..self
            }),
            _ => None,
        }
    }

    /// The command that optimises, where these are its arguments.
    fn optimise(self) -> Option<Command<'a>>
        ensures name { IfSome result
            (λ command. name_of (command_view command) ≡ codes "optimise") }
        ensures some { IfSome result (λ command. Makes self.entry (command_view command)) }
        ensures none { IfNone result (MakesNone self.entry (codes "optimise")) }
    {
        if self.is_of_generated() {
            return None;
        }
        let Positionals::Two(input, output) = self.positional else {
            return None;
        };
        let library = self.library?;
        if self.steps.is_some() || output == input || output == library {
            return None;
        }
        let task = Task::Optimise { output };
        Some(Command::OnFolder {
            input,
            library,
            task,
        })
    }

    /// The command that verifies, where these are its arguments.
    fn verify(self) -> Option<Command<'a>>
        ensures name { IfSome result (λ command. name_of (command_view command) ≡ codes "verify") }
        ensures some { IfSome result (λ command. Makes self.entry (command_view command)) }
        ensures none { IfNone result (MakesNone self.entry (codes "verify")) }
    {
        if self.is_of_generated() {
            return None;
        }
        let Positionals::One(input) = self.positional else {
            return None;
        };
        let library = self.library?;
        if self.steps.is_some() {
            return None;
        }
        let task = Task::Verify;
        Some(Command::OnFolder {
            input,
            library,
            task,
        })
    }

    /// The command that says what becomes of each method, where these are its arguments.
    fn plan(self) -> Option<Command<'a>>
        ensures name { IfSome result (λ command. name_of (command_view command) ≡ codes "plan") }
        ensures some { IfSome result (λ command. Makes self.entry (command_view command)) }
        ensures none { IfNone result (MakesNone self.entry (codes "plan")) }
    {
        if self.is_of_generated() {
            return None;
        }
        let Positionals::One(input) = self.positional else {
            return None;
        };
        let library = self.library?;
        if self.steps.is_some() {
            return None;
        }
        let task = Task::Plan;
        Some(Command::OnFolder {
            input,
            library,
            task,
        })
    }

    /// The command that runs, where these are its arguments.
    fn run(self) -> Option<Command<'a>>
        ensures name { IfSome result (λ command. name_of (command_view command) ≡ codes "run") }
        ensures some { IfSome result (λ command. Makes self.entry (command_view command)) }
        ensures none { IfNone result (MakesNone self.entry (codes "run")) }
    {
        if self.is_of_generated() {
            return None;
        }
        let Positionals::Two(input, script) = self.positional else {
            return None;
        };
        let library = self.library?;
        let steps = self.most_steps()?;
        let task = Task::Run { script, steps };
        Some(Command::OnFolder {
            input,
            library,
            task,
        })
    }

    /// The command that runs a folder and its written folder, where these are its arguments.
    fn both(self) -> Option<Command<'a>>
        ensures name { IfSome result (λ command. name_of (command_view command) ≡ codes "both") }
        ensures some { IfSome result (λ command. Makes self.entry (command_view command)) }
        ensures none { IfNone result (MakesNone self.entry (codes "both")) }
    {
        if self.is_of_generated() {
            return None;
        }
        let Positionals::Two(input, script) = self.positional else {
            return None;
        };
        let library = self.library?;
        let steps = self.most_steps()?;
        let task = Task::Both { script, steps };
        Some(Command::OnFolder {
            input,
            library,
            task,
        })
    }

    /// Whether an option of generated work is given.
    fn is_of_generated(self) -> bool
        ensures given { result ≡ true
            → (values_seen self.entry number_option ≢ []) ⊎ (values_seen self.entry size_option ≢ []) }
        ensures not_given { result ≡ false
            → (values_seen self.entry number_option ≡ []) × (values_seen self.entry size_option ≡ []) }
    {
        self.number.is_some() || self.size.is_some()
    }

    /// The command that generates work, where these are its arguments.
    fn generated(self) -> Option<Command<'a>>
        ensures name { IfSome result (λ command. name_of (command_view command) ≡ codes "gen") }
        ensures some { IfSome result (λ command. Makes self.entry (command_view command)) }
        ensures none { IfNone result (MakesNone self.entry (codes "gen")) }
    {
        let Positionals::Zero = self.positional else {
            return None;
        };
        if self.library.is_some() || self.steps.is_some() {
            return None;
        }
        let number = number_of(self.number?, 0, MOST_NUMBER)?;
        let size = number_of(self.size?, 1, MOST_SIZE)?;
        Some(Command::Generated {
            number: number as u32,
            size: size as u32,
        })
    }

    /// The steps of a run, where they are in the grammar.
    fn most_steps(self) -> Option<u64>
        ensures some { IfSome result
            (λ steps. HasSteps steps (values_seen self.entry steps_option)) }
        ensures none { IfNone result ((steps : ℕ)
            → ¬ HasSteps steps (values_seen self.entry steps_option)) }
    {
        match self.steps {
            Some(word) => number_of(word, 0, MOST_STEPS),
            None => Some(DEFAULT_STEPS),
        }
    }

    /// The command that lists a class file, where these are its arguments.
    fn list(self) -> Option<Command<'a>>
        ensures name { IfSome result (λ command. name_of (command_view command) ≡ codes "list") }
        ensures some { IfSome result (λ command. Makes self.entry (command_view command)) }
        ensures none { IfNone result (MakesNone self.entry (codes "list")) }
    {
        if self.is_of_generated() {
            return None;
        }
        let Positionals::Two(input, name) = self.positional else {
            return None;
        };
        if self.library.is_some() || self.steps.is_some() {
            return None;
        }
        Some(Command::Listing { input, name })
    }
}

/// The word, where it is not empty and does not begin with a dash.
fn operand(word: &str) -> Option<&str>
    ensures same { IfSome result (λ operand. operand.now ≡ word.now) }
    ensures some { IfSome result (λ operand. IsOperand word.now) }
    ensures none { IfNone result (¬ IsOperand word.now) }
{
    match word.as_bytes().first() {
        None | Some(b'-') => None,
        Some(_) => Some(word),
    }
}

/// The option of this name.
fn option_of(name: &str) -> Option<OptionName>
    ensures some { IfSome result (λ option. name.now ≡ option_name (option_view option)) }
    ensures none { IfNone result ((option : CommandOption) → name.now ≢ option_name option) }
{
    match name {
        "--lib" => Some(OptionName::Lib),
        "--steps" => Some(OptionName::Steps),
        "--number" => Some(OptionName::Number),
        "--size" => Some(OptionName::Size),
        _ => None,
    }
}

/// An option and the value behind its equals sign, where the word is these and the value is not empty.
fn joined_value(word: &str) -> Option<(OptionName, &str)>
    ensures some { IfSome result (λ joined.
        (word.now ≡ option_name (option_view joined.0) ++ codes "=" ++ joined.1.now)
        × (joined.1.now ≢ [])) }
    ensures none { IfNone result
        ((option : CommandOption) (value : Word)
        → value ≢ []
        → word.now ≢ option_name option ++ codes "=" ++ value) }
{
    let (name, value) = word.split_once('=')?;
    let option = option_of(name)?;
    if value.is_empty() {
        None
    } else {
        Some((option, value))
    }
}

/// The number that a word gives, within these bounds.
fn number_of(word: &str, least: u64, most: u64) -> Option<u64>
    ensures some { IfSome result (λ number. IsWithin least most number word.now) }
    ensures none { IfNone result ((number : ℕ) → ¬ IsWithin least most number word.now) }
{
    if word.len() > 20 || word.starts_with('+') {
        return None;
    }
    match word.parse::<u64>() {
        Ok(number) if least <= number && number <= most => Some(number),
        _ => None,
    }
}
