//! The lines of a script, and their fields.
ghost use Rattle.std.specs.Prelude.{◌≡◌, ◌∷◌, ◌<◌, ◌≤◌, not, nat_eq, length, take, drop};
ghost use Rattle.std.specs.List.{prefix_len};
ghost use Rattle.felm_term.specs.Bytes.{is_blank};
ghost use Rattle.felm_script.specs.Lines.{lines_of, fields_of};
ghost use Rattle.felm_script.specs.Parts.{AreFields, IsCut};

use felm_term::bytes::is_blank;

/// The fields of a line, as far as an event needs them.
#[derive(Clone, Copy, Debug)]
pub enum Fields<'a> {
    /// No field.
    Empty,
    /// The one field.
    One(&'a [u8]),
    /// Both fields, in order.
    Two(&'a [u8], &'a [u8]),
    /// The first of more than two fields.
    More(&'a [u8]),
}

/// How many bytes stand before the first line feed.
fn line_length(text: &[u8]) -> usize
    ensures run { result ≡ prefix_len (λ byte. not (nat_eq byte 10)) text.now }
    ensures within { result ≤ length text.now }
{
    text.iter().take_while(|byte| **byte != b'\n').count()
}

/// The first line without its line feed, and what follows it.
pub fn cut_line(text: &[u8]) -> (&[u8], &[u8])
    requires { 0 < length text.now }
    ensures lines { lines_of text.now ≡ result.0.now ∷ lines_of result.1.now }
    ensures shorter { length result.1.now < length text.now }
{
    let length = line_length(text);
    let (line, rest) = text.split_at(length);
    match rest {
        [] => (line, rest),
        [_, after @ ..] => (line, after),
    }
}

/// How many blanks stand at the front.
fn blanks(text: &[u8]) -> usize
    ensures run { result ≡ prefix_len is_blank text.now }
    ensures within { result ≤ length text.now }
{
    text.iter().take_while(|byte| is_blank(**byte)).count()
}

/// How many bytes stand before the first blank.
fn field_length(text: &[u8]) -> usize
    ensures run { result ≡ prefix_len (λ byte. not (is_blank byte)) text.now }
    ensures within { result ≤ length text.now }
{
    text.iter().take_while(|byte| !is_blank(**byte)).count()
}

/// The first field and what follows it, or two empty texts where there is no field.
fn cut_field(text: &[u8]) -> (&[u8], &[u8])
    ensures { IsCut (fields_of text.now) result.0.now (fields_of result.1.now) }
{
    let (_, filled) = text.split_at(blanks(text));
    filled.split_at(field_length(filled))
}

/// The fields of a line.
pub fn fields_of(line: &[u8]) -> Fields<'_>
    ensures { AreFields (fields_of line.now) result }
{
    let (first, rest) = cut_field(line);
    if first.is_empty() {
        return Fields::Empty;
    }
    let (second, rest) = cut_field(rest);
    if second.is_empty() {
        return Fields::One(first);
    }
    let (third, _) = cut_field(rest);
    if third.is_empty() {
        Fields::Two(first, second)
    } else {
        Fields::More(first)
    }
}
