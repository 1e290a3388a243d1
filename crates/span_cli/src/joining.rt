//! Joins `--account` with the argument after it, which is its value even if it begins with `-`.
ghost use Rattle.clap.specs.Words.{Text};
ghost use Rattle.span_cli.specs.Words.{joined_words};
ghost use Rattle.span_cli.specs.near.NextWords.{rest_of};
ghost use Rattle.std.specs.Prelude.{[], ◌∷◌, ◌≡◌, ◌++◌, IfOk, List, OnOk, codes, map, string_bytes};

use std::alloc::{AllocError, Global};
use std::convert::AsStr;

// What the next argument may be.
#[derive(Clone, Copy)]
enum NextWord {
    // The program's name, which is the first argument.
    Program,
    // Any argument.
    Any,
    // The value of `--account`, which was the argument before.
    Value,
    // An argument that stays as it is, like all arguments after a `--`.
    Plain,
}

// One argument of `--account` and its value.
fn with_value(alloc: Global, value: &str) -> Result<String, AllocError>
    ensures { IfOk result (λ word. string_bytes word ≡ codes "--account=" ++ value.now) }
{
    let mut word = String::from_str(alloc, "--account=")?;
    word.push_str(value)?;
    Ok(word)
}

// Appends an argument that may be anything, and returns what the argument after it may be.
fn push_any(alloc: Global, joined: &mut Vec<String>, word: &str) -> Result<NextWord, AllocError>
    ensures { (words : List Text) → IfOk result (λ after. map string_bytes joined.new.items ++ rest_of after words
        ≡ map string_bytes joined.old.items ++ rest_of NextWord.Any (word.now ∷ words)) }
{
    if word == "--account" {
        return Ok(NextWord::Value);
    }
    joined.push(String::from_str(alloc, word)?)?;
    if word == "--" {
        return Ok(NextWord::Plain);
    }
    Ok(NextWord::Any)
}

// Appends the next argument in its joined form, and returns what the argument after it may be.
fn push_word(
    alloc: Global,
    joined: &mut Vec<String>,
    next: NextWord,
    word: &str,
) -> Result<NextWord, AllocError>
    ensures { (words : List Text) → IfOk result (λ after. map string_bytes joined.new.items ++ rest_of after words
        ≡ map string_bytes joined.old.items ++ rest_of next (word.now ∷ words)) }
{
    match next {
        NextWord::Program => {
            joined.push(String::from_str(alloc, word)?)?;
            Ok(NextWord::Any)
        }
        NextWord::Any => push_any(alloc, joined, word),
        NextWord::Value => {
            joined.push(with_value(alloc, word)?)?;
            Ok(NextWord::Any)
        }
        NextWord::Plain => {
            joined.push(String::from_str(alloc, word)?)?;
            Ok(NextWord::Plain)
        }
    }
}

// Appends what remains after the last argument: an `--account` without a value.
fn push_end(alloc: Global, joined: &mut Vec<String>, next: NextWord) -> Result<(), AllocError>
    ensures { OnOk result (map string_bytes joined.new.items ≡ map string_bytes joined.old.items ++ rest_of next []) }
{
    match next {
        NextWord::Value => joined.push(String::from_str(alloc, "--account")?)?,
        NextWord::Program => {}
        NextWord::Any => {}
        NextWord::Plain => {}
    }
    Ok(())
}

/// Returns the arguments, with each `--account` that comes before a `--` joined with the argument after it.
pub(crate) fn join_words<S: AsStr>(alloc: Global, words: &[S]) -> Result<Vec<String>, AllocError>
    ensures { IfOk result (λ joined. map string_bytes joined.items ≡ joined_words (map S.text words.now)) }
{
    let mut joined = Vec::new(alloc);
    let mut next = NextWord::Program;
    for word in words {
        next = push_word(alloc, &mut joined, next, word.as_str())?;
    }
    push_end(alloc, &mut joined, next)?;
    Ok(joined)
}
