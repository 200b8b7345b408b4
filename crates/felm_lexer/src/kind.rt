//! Kinds of tokens.

/// The keywords and, from `Merge` on, the reserved keywords. None of them is a name.
#[derive(Clone, Copy, Debug, PartialEq, Eq)]
pub enum WordKind {
    Input,
    Main,
    Let,
    In,
    If,
    Then,
    Else,
    Int,
    Unit,
    Signal,
    Foldp,
    Async,
    Lift1,
    Lift2,
    Lift3,
    Lift4,
    Lift5,
    Lift6,
    Lift7,
    Lift8,
    Lift9,
    Merge,
    SampleOn,
    DropRepeats,
    KeepIf,
    Output,
}

/// The symbols, each named after its signs.
#[derive(Clone, Copy, Debug, PartialEq, Eq)]
pub enum Symbol {
    /// `\`
    Backslash,
    /// `:`
    Colon,
    /// `.`
    Dot,
    /// `=`
    Equals,
    /// `->`
    Arrow,
    /// `(`
    OpenBracket,
    /// `)`
    CloseBracket,
    /// `+`
    Plus,
    /// `-`
    Minus,
    /// `*`
    Star,
    /// `//`
    DoubleSlash,
    /// `%`
    Percent,
    /// `==`
    DoubleEquals,
    /// `/=`
    SlashEquals,
    /// `<`
    Less,
    /// `<=`
    LessEquals,
    /// `>`
    Greater,
    /// `>=`
    GreaterEquals,
    /// `&&`
    DoubleAmpersand,
    /// `||`
    DoubleBar,
}

/// What a token is.
#[derive(Clone, Copy, Debug, PartialEq, Eq)]
pub enum TokenKind {
    /// A word that is no keyword.
    Name,
    /// A number of at most 9223372036854775807.
    Int(i64),
    /// The number 9223372036854775808, whose negative is the least i64.
    Big,
    /// A keyword or reserved keyword.
    Word(WordKind),
    /// A symbol.
    Mark(Symbol),
}
