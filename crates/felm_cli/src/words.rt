//! The order that the words of a command line give.
ghost use Rattle.std.specs.Prelude.{◌≡◌, ◌≢◌, ◌↔◌, [], ◌∷◌, IsTrue, IfSome};
ghost use Rattle.std.specs.Option.{option_map};
ghost use Rattle.felm_cli.specs.Words.{command_of, default_limits, is_file, file_of, order_with, order_in, order_once};
ghost use Rattle.felm_cli.specs.declared.words.Command.TheVariants as command;
ghost use Rattle.felm_cli.specs.Views.{order_value};

use felm_printer::Which;
use felm_term::Limits;

/// What the first word names.
#[derive(Clone, Copy, Debug)]
pub enum Command {
    /// `sync PROGRAM SCRIPT`
    Sync,
    /// `graph PROGRAM`
    Graph,
    /// `run PROGRAM SCRIPT`
    Run,
}

/// What a command does, with the names of its files and its limits.
#[derive(Clone, Copy, Debug)]
pub enum Order<'a> {
    /// Run a program on a script, on one thread.
    Sync {
        program: &'a str,
        script: &'a str,
        limits: Limits,
    },
    /// Print the graph of a program.
    Graph {
        program: &'a str,
        limits: Limits,
    },
    /// Run a program on a script, with workers.
    Run {
        program: &'a str,
        script: &'a str,
        limits: Limits,
    },
}

impl<'a> Order<'a> {
    /// The name of one of its files, if it names that one.
    pub fn file(&self, which: Which) -> Option<&'a str>
        ensures { option_map (λ name. name.now) result ≡ file_of which (order_value self.now) }
    {
        match (self, which) {
            (
                Order::Sync { program, .. }
                | Order::Graph { program, .. }
                | Order::Run { program, .. },
                Which::Program,
            ) => Some(*program),
            (Order::Sync { script, .. } | Order::Run { script, .. }, Which::Script) => {
                Some(*script)
            }
            (Order::Graph { .. }, Which::Script) => None,
        }
    }

    /// Whether it is to be done with workers.
    pub fn is_run(&self) -> bool
        ensures { IsTrue result ↔ ((order_value self.now).command ≡ command.Run) }
    {
        matches!(self, Order::Run { .. })
    }

    /// Its limits.
    pub fn limits(&self) -> Limits
        ensures { result ≡ (order_value self.now).limits }
    {
        match self {
            Order::Sync { limits, .. } | Order::Graph { limits, .. } | Order::Run { limits, .. } =>
                *limits,
        }
    }
}

/// The command that a word names.
fn command_of(word: &str) -> Option<Command>
    ensures { result ≡ command_of word.now }
{
    if word == "sync" {
        Some(Command::Sync)
    } else if word == "graph" {
        Some(Command::Graph)
    } else if word == "run" {
        Some(Command::Run)
    } else {
        None
    }
}

fn is_file(word: &[u8]) -> bool
    ensures { result ≡ is_file word.now }
{
    match word {
        [] => false,
        [first, ..] => *first != b'-',
    }
}

/// The limits of a command that names none.
pub fn default_limits() -> Limits
    ensures { result ≡ default_limits }
{
    Limits::DEFAULT
}

/// The order of a command with one word behind it.
fn order_on_one<'a>(command: Command, program: &'a str) -> Option<Order<'a>>
    ensures { option_map order_value result ≡ order_with command (program.now ∷ []) }
{
    if !is_file(program.as_bytes()) {
        return None;
    }
    let limits = default_limits();
    match command {
        Command::Graph => Some(Order::Graph { program, limits }),
        Command::Sync | Command::Run => None,
    }
}

/// The order of a command with two words behind it.
fn order_on_two<'a>(command: Command, program: &'a str, script: &'a str) -> Option<Order<'a>>
    ensures { option_map order_value result ≡ order_with command (program.now ∷ script.now ∷ []) }
{
    if !is_file(program.as_bytes()) || !is_file(script.as_bytes()) {
        return None;
    }
    let limits = default_limits();
    match command {
        Command::Sync => Some(Order::Sync {
            program,
            script,
            limits,
        }),
        Command::Run => Some(Order::Run {
            program,
            script,
            limits,
        }),
        Command::Graph => None,
    }
}

/// The order of these words, if a command takes them.
pub fn read_words(words: &[String]) -> Option<Order<'_>>
    ensures { option_map order_value result ≡ order_in words.now }
{
    match words {
        [command, program] => order_on_one(command_of(command.as_str())?, program.as_str()),
        [command, program, script] => order_on_two(
            command_of(command.as_str())?,
            program.as_str(),
            script.as_str(),
        ),
        _ => None,
    }
}

/// The order of these words, if a command takes them that is done on one thread.
pub fn read_words_once(words: &[String]) -> Option<Order<'_>>
    ensures order { option_map order_value result ≡ order_once words.now }
    ensures once { IfSome result (λ order. (order_value order).command ≢ command.Run) }
{
    let order = read_words(words)?;
    match order {
        Order::Run { .. } => None,
        Order::Sync { .. } | Order::Graph { .. } => Some(order),
    }
}
