//! What the kind of one token is.
ghost use Rattle.std.specs.Prelude.{◌≡◌, ◌≤◌, IfSome};
ghost use Rattle.felm_syntax.specs.Kinds.{is_mark, is_keyword, operator, comparison, lift_count, unsigned_number, negated};
ghost use Rattle.felm_reading.specs.Reading.{kind_starts_atom};

use felm_lexer::{Symbol, TokenKind, WordKind};
use felm_syntax::Level;
use felm_term::Op;

/// Whether a kind is this symbol.
pub fn is_mark(symbol: Symbol, kind: TokenKind) -> bool
    ensures { result ≡ is_mark symbol kind }
{
    match kind {
        TokenKind::Mark(mark) => mark == symbol,
        _ => false,
    }
}

/// Whether a kind is this keyword.
pub fn is_keyword(word: WordKind, kind: TokenKind) -> bool
    ensures { result ≡ is_keyword word kind }
{
    match kind {
        TokenKind::Word(keyword) => keyword == word,
        _ => false,
    }
}

/// Whether an atom may begin with a kind.
pub fn kind_starts_atom(kind: TokenKind) -> bool
    ensures { result ≡ kind_starts_atom kind }
{
    match kind {
        TokenKind::Name | TokenKind::Int(_) => true,
        TokenKind::Mark(mark) => mark == Symbol::OpenBracket,
        TokenKind::Big | TokenKind::Word(_) => false,
    }
}

/// The operator of a level that a kind is.
pub fn operator(level: Level, kind: TokenKind) -> Option<Op>
    ensures { result ≡ operator level kind }
{
    let TokenKind::Mark(mark) = kind else {
        return None;
    };
    match (level, mark) {
        (Level::Or, Symbol::DoubleBar) => Some(Op::Or),
        (Level::And, Symbol::DoubleAmpersand) => Some(Op::And),
        (Level::Sum, Symbol::Plus) => Some(Op::Add),
        (Level::Sum, Symbol::Minus) => Some(Op::Sub),
        (Level::Product, Symbol::Star) => Some(Op::Mul),
        (Level::Product, Symbol::DoubleSlash) => Some(Op::Div),
        (Level::Product, Symbol::Percent) => Some(Op::Rem),
        _ => None,
    }
}

/// The comparison that a kind is.
pub fn comparison(kind: TokenKind) -> Option<Op>
    ensures { result ≡ comparison kind }
{
    let TokenKind::Mark(mark) = kind else {
        return None;
    };
    match mark {
        Symbol::DoubleEquals => Some(Op::Eq),
        Symbol::SlashEquals => Some(Op::Ne),
        Symbol::Less => Some(Op::Lt),
        Symbol::LessEquals => Some(Op::Le),
        Symbol::Greater => Some(Op::Gt),
        Symbol::GreaterEquals => Some(Op::Ge),
        _ => None,
    }
}

/// How many signals the lift takes that a kind is.
pub fn lift_count(kind: TokenKind) -> Option<u32>
    ensures value { result ≡ lift_count kind }
    ensures bound { IfSome result (λ count. count ≤ 9) }
{
    let TokenKind::Word(word) = kind else {
        return None;
    };
    match word {
        WordKind::Lift1 => Some(1),
        WordKind::Lift2 => Some(2),
        WordKind::Lift3 => Some(3),
        WordKind::Lift4 => Some(4),
        WordKind::Lift5 => Some(5),
        WordKind::Lift6 => Some(6),
        WordKind::Lift7 => Some(7),
        WordKind::Lift8 => Some(8),
        WordKind::Lift9 => Some(9),
        _ => None,
    }
}

/// The number that a kind is.
pub fn unsigned_number(kind: TokenKind) -> Option<i64>
    ensures { result ≡ unsigned_number kind }
{
    match kind {
        TokenKind::Int(number) => Some(number),
        _ => None,
    }
}

/// The number that a kind is behind a minus sign.
pub fn negated(kind: TokenKind) -> Option<i64>
    ensures { result ≡ negated kind }
{
    match kind {
        TokenKind::Int(number) if number >= 0 => Some(-number),
        TokenKind::Big => Some(i64::MIN),
        _ => None,
    }
}
