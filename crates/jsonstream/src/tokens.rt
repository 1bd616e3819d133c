//! The tokens of a text.

ghost use Rattle.std.specs.Prelude.{◌≡◌, ◌-◌, ◌≤◌, ◌<◌, [], ◌∷◌, true, false, length, Some, None, MatchResult, OnOk, option_map};
ghost use Rattle.json.specs.Reads.{token_of};
ghost use Rattle.json.specs.Json.{after_end_array, read_key, parse_map};
ghost use Rattle.std.specs.Bool.{MatchBool};
ghost use Rattle.serde_json.specs.Data.{Data, array, object};
ghost use Rattle.serde_json.specs.Find.{as_array, as_bool, as_object, as_str};
ghost use Rattle.jsonstream.specs.Stream.{next, rest_of_list, rest_of_object, StepsOver, TakesPlain, token_number, token_text, token_flag, opens_list, opens_object};
ghost use Rattle.jsonstream.specs.Json.{whole_number as number_in_data};

use crate::numbers::number_in;
use json::{Reader, Token};
use refusal::Refusal;

/// The next token.
///
/// # Errors
///
/// `BadJson` (10) where there is none.
pub fn next_token<'a>(reader: &mut Reader<'a>) -> Result<Token<'a>, Refusal>
    ensures { MatchResult result (λ t. reader.old ≡ token_of t ∷ reader.new)
        (λ e. (e ≡ Refusal.BadJson) × (reader.old ≡ [])) }
{
    reader.next().ok_or(Refusal::BadJson)
}

/// The next key, or none at the end of the object.
///
/// # Errors
///
/// `BadJson` (10) where neither comes.
pub fn next_key<'a>(reader: &mut Reader<'a>) -> Result<Option<&'a str>, Refusal>
    ensures { MatchResult result
        (λ k. read_key reader.old ≡ Some (option_map (λ s. s.now) k, reader.new))
        (λ e. (e ≡ Refusal.BadJson) × (read_key reader.old ≡ None)) }
{
    reader.next_key().map_err(|_| Refusal::BadJson)
}

/// Passes the value that begins with a token.
///
/// # Errors
///
/// `BadJson` (10) where no value that nests at most `depth` deep begins with it.
#[cycle(skip)]
pub fn finish(token: Token<'_>, reader: &mut Reader<'_>, depth: usize) -> Result<(), Refusal>
    ensures value { StepsOver (next depth (token_of token.entry ∷ reader.old)) result reader.new }
    ensures shorter { OnOk result (length reader.new ≤ length reader.old) }
{
    match token {
        Token::String(_) | Token::Bool(_) | Token::Null => Ok(()),
        Token::Number(text) => match number_in(text) {
            Some(_) => Ok(()),
            None => Err(Refusal::BadJson),
        },
        Token::EndObject | Token::EndArray | Token::Key(_) | Token::Bad => Err(Refusal::BadJson),
        Token::BeginArray => if depth == 0 {
            Err(Refusal::BadJson)
        } else {
            skip_list(reader, depth - 1)
        },
        Token::BeginObject => if depth == 0 {
            Err(Refusal::BadJson)
        } else {
            skip_object(reader, depth - 1)
        },
    }
}

/// Passes what is left of a list.
///
/// # Errors
///
/// `BadJson` (10) where it does not end, or something in it is no value or nests deeper than `depth`.
#[cycle(skip)]
pub fn skip_list(reader: &mut Reader<'_>, depth: usize) -> Result<(), Refusal>
    ensures value { StepsOver (rest_of_list depth reader.old) result reader.new }
    ensures shorter { OnOk result (length reader.new < length reader.old) }
{
    'items: while !reader.take_end_array() {
        let token = next_token(reader)?;
        finish(token, reader, depth)?;
    }
    Ok(())
}

/// Passes what is left of an object.
///
/// # Errors
///
/// `BadJson` (10) where it does not end, or something in it is no value or nests deeper than `depth`.
#[cycle(skip)]
pub fn skip_object(reader: &mut Reader<'_>, depth: usize) -> Result<(), Refusal>
    ensures value { StepsOver (rest_of_object depth reader.old) result reader.new }
    ensures shorter { OnOk result (length reader.new < length reader.old) }
{
    'members: while let Some(_) = next_key(reader)? {
        let token = next_token(reader)?;
        finish(token, reader, depth)?;
    }
    Ok(())
}

/// Passes a value.
///
/// # Errors
///
/// `BadJson` (10) where no value comes that nests at most `depth` deep.
pub fn skip(reader: &mut Reader<'_>, depth: usize) -> Result<(), Refusal>
    ensures { MatchResult result (λ _. (d : Data) × (next depth reader.old ≡ Some (d, reader.new)))
        (λ e. (e ≡ Refusal.BadJson) × (next depth reader.old ≡ None)) }
{
    let token = next_token(reader)?;
    finish(token, reader, depth)?;
    Ok(())
}

/// The digits of a token that is a number.
fn digits_of<'a>(token: &Token<'a>) -> Option<&'a str>
    ensures { option_map (λ s. s.now) result ≡ token_number (token_of token.now) }
{
    match token {
        Token::Number(text) => Some(*text),
        _ => None,
    }
}

/// The whole number that a value is, `None` where it is another value. It takes no memory.
///
/// # Errors
///
/// `BadJson` (10) where no value comes that nests at most `depth` deep.
pub fn number(reader: &mut Reader<'_>, depth: usize) -> Result<Option<i128>, Refusal>
    ensures { TakesPlain (parse_map number_in_data (next depth reader.old)) result reader.new }
{
    let token = next_token(reader)?;
    let Some(text) = digits_of(&token) else {
        finish(token, reader, depth)?;
        return Ok(None);
    };
    number_in(text).ok_or(Refusal::BadJson)
}

/// Whether a token opens a list.
fn is_list(token: &Token<'_>) -> bool
    ensures { result ≡ opens_list (token_of token.now) }
{
    matches!(token, Token::BeginArray)
}

/// Whether a list begins, whose values come then; any other value is passed.
///
/// # Errors
///
/// `BadJson` (10) where no value comes, a list begins where `depth` is 0, or another value nests deeper than `depth`.
pub fn list_begins(reader: &mut Reader<'_>, depth: usize) -> Result<bool, Refusal>
    ensures { MatchResult result
        (λ begins. MatchBool begins
        ((0 < depth) × (next depth reader.old ≡ parse_map array (rest_of_list (depth - 1) reader.new)))
        (parse_map as_array (next depth reader.old) ≡ Some (None, reader.new)))
        (λ e. (e ≡ Refusal.BadJson) × (next depth reader.old ≡ None)) }
{
    let token = next_token(reader)?;
    if !is_list(&token) {
        finish(token, reader, depth)?;
        return Ok(false);
    }
    if depth == 0 {
        return Err(Refusal::BadJson);
    }
    Ok(true)
}

/// Whether a token opens an object.
fn is_object(token: &Token<'_>) -> bool
    ensures { result ≡ opens_object (token_of token.now) }
{
    matches!(token, Token::BeginObject)
}

/// Whether an object begins, whose members come then; any other value is passed.
///
/// # Errors
///
/// `BadJson` (10) where no value comes, an object begins where `depth` is 0, or another value nests deeper than
/// `depth`.
pub fn object_begins(reader: &mut Reader<'_>, depth: usize) -> Result<bool, Refusal>
    ensures { MatchResult result
        (λ begins. MatchBool begins
        ((0 < depth) × (next depth reader.old ≡ parse_map object (rest_of_object (depth - 1) reader.new)))
        (parse_map as_object (next depth reader.old) ≡ Some (None, reader.new)))
        (λ e. (e ≡ Refusal.BadJson) × (next depth reader.old ≡ None)) }
{
    let token = next_token(reader)?;
    if !is_object(&token) {
        finish(token, reader, depth)?;
        return Ok(false);
    }
    if depth == 0 {
        return Err(Refusal::BadJson);
    }
    Ok(true)
}

/// The text of a token that is one.
fn text_of<'a>(token: &Token<'a>) -> Option<&'a str>
    ensures { option_map (λ s. s.now) result ≡ token_text (token_of token.now) }
{
    match token {
        Token::String(text) => Some(*text),
        _ => None,
    }
}

/// The text that a value is, `None` where it is another value.
///
/// # Errors
///
/// `BadJson` (10) where no value comes that nests at most `depth` deep.
pub fn text<'a>(reader: &mut Reader<'a>, depth: usize) -> Result<Option<&'a str>, Refusal>
    ensures { MatchResult result
        (λ t. parse_map as_str (next depth reader.old) ≡ Some (option_map (λ s. s.now) t, reader.new))
        (λ e. (e ≡ Refusal.BadJson) × (next depth reader.old ≡ None)) }
{
    let token = next_token(reader)?;
    let Some(text) = text_of(&token) else {
        finish(token, reader, depth)?;
        return Ok(None);
    };
    Ok(Some(text))
}

/// The truth of a token that is true or false.
fn flag_of(token: &Token<'_>) -> Option<bool>
    ensures { result ≡ token_flag (token_of token.now) }
{
    match token {
        Token::Bool(flag) => Some(*flag),
        _ => None,
    }
}

/// Whether a value is true or false, `None` where it is another value. It takes no memory.
///
/// # Errors
///
/// `BadJson` (10) where no value comes that nests at most `depth` deep.
pub fn flag(reader: &mut Reader<'_>, depth: usize) -> Result<Option<bool>, Refusal>
    ensures { TakesPlain (parse_map as_bool (next depth reader.old)) result reader.new }
{
    let token = next_token(reader)?;
    let Some(flag) = flag_of(&token) else {
        finish(token, reader, depth)?;
        return Ok(None);
    };
    Ok(Some(flag))
}
