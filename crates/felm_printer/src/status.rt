//! How commands end.
ghost use Rattle.std.specs.Prelude.{◌≡◌};
ghost use Rattle.felm_printer.specs.Status.{code_of};
ghost use Rattle.felm_printer.specs.Fault.{fault_of_syntax, fault_of_typing, fault_of_script};

use felm_term::Memory;

/// A text of a command.
#[derive(Clone, Copy, Debug, PartialEq, Eq)]
pub enum Which {
    /// The text of the program.
    Program,
    /// The text of the event script.
    Script,
}

/// What is wrong with the text of a program.
#[derive(Clone, Copy, Debug, PartialEq, Eq)]
pub enum SyntaxCause {
    /// A byte begins no token, blank or comment, or a comment may not hold it.
    NoToken,
    /// A number is too great to be a token.
    Wide,
    /// A token can't follow those before it, or the text ends too early.
    Grammar,
    /// A token nests too deeply.
    Depth,
    /// An input was declared before.
    Twice,
}

/// What is wrong with the types of a program.
#[derive(Clone, Copy, Debug, PartialEq, Eq)]
pub enum TypingCause {
    /// All parts of an expression have types, and it has none.
    Untyped,
    /// Nothing binds a name.
    Unknown,
    /// An annotation is no well-formed type.
    IllFormed,
    /// The expression of `main` is no signal of a simple type.
    MainType,
}

/// What is wrong with a line of an event script.
#[derive(Clone, Copy, Debug, PartialEq, Eq)]
pub enum ScriptCause {
    /// It holds a byte that a text may not, or isn't skipped and has more than a name and a value.
    Line,
    /// No input has its name.
    Name,
    /// Its value isn't one of the input's type, or is missing.
    Literal,
}

/// Why a program has no graph.
#[derive(Clone, Copy, Debug, PartialEq, Eq)]
pub enum StageCause {
    /// Its reduction takes more steps than it may.
    Over,
    /// The graph has more nodes than it may.
    Large,
}

/// How a command ended.
#[derive(Clone, Copy, Debug, PartialEq, Eq)]
pub enum Status {
    /// The result is whole on the sink.
    Success,
    /// No command takes the words.
    Usage,
    /// A text can't be read.
    Read { which: Which },
    /// A text has more bytes than it may.
    TooLong { which: Which },
    /// The text of the program is no program; `at` counts its bytes from 0.
    Syntax { cause: SyntaxCause, at: usize },
    /// `main` is no signal of a simple type by the typing rules; `at` counts the bytes of the
    /// program's text from 0.
    Typing { cause: TypingCause, at: usize },
    /// A line of the event script is no event; lines count from 1.
    Script { cause: ScriptCause, line: u64 },
    /// The program has no graph within its limits.
    Stage { cause: StageCause },
    /// A turn of this node at this position takes more steps than it may. Position 0 stands for the
    /// node's default.
    Turn { node: u32, position: u64 },
    /// The journal is full, and an event was still to enter.
    Journal,
    /// A put of the text that the command leaves failed.
    Write,
    /// There was no memory.
    Memory,
}

impl SyntaxCause {
    /// The words for it in a fault line.
    pub fn fault(&self) -> &'static str
        ensures { result.now ≡ fault_of_syntax self.now }
    {
        match self {
            SyntaxCause::NoToken => "no token",
            SyntaxCause::Wide => "number too wide",
            SyntaxCause::Grammar => "syntax error",
            SyntaxCause::Depth => "nested too deeply",
            SyntaxCause::Twice => "input declared twice",
        }
    }
}

impl TypingCause {
    /// The words for it in a fault line.
    pub fn fault(&self) -> &'static str
        ensures { result.now ≡ fault_of_typing self.now }
    {
        match self {
            TypingCause::Untyped => "no type",
            TypingCause::Unknown => "unknown name",
            TypingCause::IllFormed => "ill-formed type",
            TypingCause::MainType => "main is no signal",
        }
    }
}

impl ScriptCause {
    /// The words for it in a fault line.
    pub fn fault(&self) -> &'static str
        ensures { result.now ≡ fault_of_script self.now }
    {
        match self {
            ScriptCause::Line => "is no event",
            ScriptCause::Name => "names no input",
            ScriptCause::Literal => "has a wrong value",
        }
    }
}

impl Status {
    /// The number that the process ends with.
    pub fn code(&self) -> u8
        ensures { result ≡ code_of self.now }
    {
        match self {
            Status::Success => 0,
            Status::Usage => 2,
            Status::Read { .. } => 3,
            Status::TooLong { .. } => 4,
            Status::Syntax { .. } => 5,
            Status::Typing { .. } => 6,
            Status::Script { .. } => 7,
            Status::Stage { .. } => 8,
            Status::Turn { .. } => 9,
            Status::Journal => 10,
            Status::Write => 11,
            Status::Memory => 12,
        }
    }
}

impl From<Memory> for Status {
    ghost use Rattle.std.specs.Prelude.{◌≡◌};
    ghost use Rattle.felm_printer.specs.declared.status.Status.TheVariants.{Memory as WantOfMemory};

    ghost from_gives = { λ _ status. status ≡ WantOfMemory };

    fn from(_: Memory) -> Status {
        Status::Memory
    }
}
