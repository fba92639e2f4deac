//! Types in words.
ghost use Rattle.std.specs.Prelude.{◌≡◌, ◌++◌, IfOk, codes, flat_map, option_map, string_bytes};
ghost use Rattle.input_forms.specs.Lines as spec;

use cwl_types::{ArrayType, MemberType, PlainType};
use plain_data::{Items, Text};
use std::alloc::{AllocError, Global};

/// The types of an input in words; without types it is a File at standard input.
pub fn kind_words(alloc: Global, types: Option<&Items<MemberType>>) -> Result<String, AllocError>
    ensures { IfOk result (λ words. string_bytes words
        ≡ spec.kind_words (option_map (λ types. types.now) types.entry)) }
{
    match types {
        None => String::from_str(alloc, "File"),
        Some(members) => type_words(alloc, members),
    }
}

#[cycle(words)]
fn type_words(alloc: Global, members: &Items<MemberType>) -> Result<String, AllocError>
    ensures { IfOk result (λ words. string_bytes words ≡ spec.type_words members.now) }
{
    let mut words = String::new(alloc);
    for member in members.as_slice() {
        let more = member_words(alloc, member)?;
        if !words.is_empty() {
            words.push_str(" or ")?;
        }
        words.push_str(more.as_str())?;
    }
    Ok(words)
}

#[cycle(words)]
fn member_words(alloc: Global, member: &MemberType) -> Result<String, AllocError>
    ensures { IfOk result (λ words. string_bytes words ≡ spec.member_words member.now) }
{
    match member {
        MemberType::Plain(kind) => String::from_str(alloc, plain_word(*kind)),
        MemberType::Array(array) => array_words(alloc, array),
        MemberType::Enum(symbols) => enum_words(alloc, symbols.as_slice()),
    }
}

#[tactic(auto, using(crate::proofs::Arrays::words_of_array))]
#[cycle(words)]
fn array_words(alloc: Global, array: &ArrayType) -> Result<String, AllocError>
    ensures { IfOk result (λ words. string_bytes words ≡ spec.array_words array.now) }
{
    let items = type_words(alloc, &array.items)?;
    format!(in alloc; "a list of {items}")
}

fn plain_word(kind: PlainType) -> &'static str
    ensures { result.now ≡ spec.plain_word kind }
{
    match kind {
        PlainType::Null => "null",
        PlainType::Boolean => "boolean",
        PlainType::Int => "int",
        PlainType::Long => "long",
        PlainType::Text => "string",
        PlainType::File => "File",
        PlainType::Directory => "Directory",
        PlainType::Any => "Any",
    }
}

fn enum_words(alloc: Global, symbols: &[Text]) -> Result<String, AllocError>
    ensures { IfOk result (λ words. string_bytes words
        ≡ codes "one of" ++ flat_map spec.symbol_words symbols.now) }
{
    let mut words = String::from_str(alloc, "one of")?;
    for symbol in symbols {
        words.push_str(" `")?;
        words.push_str(symbol.as_str())?;
        words.push_str("`")?;
    }
    Ok(words)
}
