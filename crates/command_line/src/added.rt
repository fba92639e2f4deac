//! The words that a value adds to a command (CWL v1.2, Command Line Tool, "CommandLineBinding").
ghost use Rattle.std.specs.Prelude.{◌≡◌, ◌<◌, [], if◌then◌else◌, Some, IfOk, length, string_bytes};
ghost use Rattle.std.specs.Option.{option_copied, option_map, option_to_list};
ghost use Rattle.command_line.specs.Added.{adds, appended, array_of, bare, item_style, item_types, path_in, prefixed, separated, text_of};
ghost use Rattle.command_line.specs.inner.View.{style_of};
ghost use Rattle.command_line.specs.inner.Lists.{each_words, joined_words, rest_text};

use cwl_types::{ArrayType, MemberType};
use cwl_value::{Place, Value};
use plain_data::Text;
use std::alloc::{AllocError, Global};
use type_check::fits_member;

/// How a value is written: what stands before it, and what joins the items of a list.
#[derive(Clone, Copy)]
pub(crate) struct StyleRef<'s> {
    pub prefix: Option<&'s Text>,
    pub separate: bool,
    pub separator: Option<&'s Text>,
}

/// The words of a value that is of one of the types, or none where there is no text.
#[cycle(adding)]
pub(crate) fn added(
    alloc: Global,
    value: &Value,
    types: &[MemberType],
    style: StyleRef<'_>,
) -> Result<Option<Vec<Text>>, AllocError>
    ensures { IfOk result (λ words. option_map (λ v. v.items) words
        ≡ adds value.now types.now (style_of style.entry)) }
{
    match value {
        Value::Null => Ok(Some(Vec::new(alloc))),
        Value::Bool(flag) => Ok(Some(if_true(alloc, *flag, style)?)),
        Value::Fields(_) => Ok(Some(flag_words(alloc, style)?)),
        Value::List(items) => match style.separator {
            Some(separator) => joined_words(alloc, items.as_slice(), separator, style),
            None => each_words(alloc, items.as_slice(), array_of(value, types), style),
        },
        Value::Whole(_) => words_of_text(alloc, value, style),
        Value::Text(_) => words_of_text(alloc, value, style),
        Value::FileVal(_) => words_of_text(alloc, value, style),
        Value::DirVal(_) => words_of_text(alloc, value, style),
    }
}

/// The text of the value after its prefix.
fn words_of_text(
    alloc: Global,
    value: &Value,
    style: StyleRef<'_>,
) -> Result<Option<Vec<Text>>, AllocError>
    ensures { IfOk result (λ words. option_map (λ v. v.items) words
        ≡ option_map (prefixed (style_of style.entry)) (text_of value.now)) }
{
    match text_of(alloc, value)? {
        Some(text) => Ok(Some(text_words(alloc, text.as_str(), style)?)),
        None => Ok(None),
    }
}

/// The prefix alone for `true`, and nothing for `false`.
fn if_true(alloc: Global, flag: bool, style: StyleRef<'_>) -> Result<Vec<Text>, AllocError>
    ensures { IfOk result (λ words. words.items
        ≡ (if flag then option_to_list (style_of style.entry).prefix else [])) }
{
    if flag {
        flag_words(alloc, style)
    } else {
        Ok(Vec::new(alloc))
    }
}

/// The prefix and then the words of each item; nothing for an empty list.
#[cycle(adding)]
fn each_words(
    alloc: Global,
    items: &[Value],
    array: Option<&ArrayType>,
    style: StyleRef<'_>,
) -> Result<Option<Vec<Text>>, AllocError>
    ensures { IfOk result (λ words. option_map (λ v. v.items) words
        ≡ each_words (style_of style.entry) (option_copied array.entry) items.now) }
{
    if items.is_empty() {
        return Ok(Some(Vec::new(alloc)));
    }
    let mut words = flag_words(alloc, style)?;
    for item in items {
        match added(alloc, item, item_types(array), item_style(array))? {
            Some(mut more) => words.append(&mut more)?,
            None => return Ok(None),
        }
    }
    Ok(Some(words))
}

/// Of the types the first that the value fits, where it is an array.
fn array_of<'t>(value: &Value, types: &'t [MemberType]) -> Option<&'t ArrayType>
    ensures { option_copied result ≡ array_of types.now value.now }
{
    for member in types {
        if fits_member(value, member) {
            return match member {
                MemberType::Array(array) => Some(array),
                MemberType::Plain(_) | MemberType::Enum(_) => None,
            };
        }
    }
    None
}

fn item_types<'t>(array: Option<&'t ArrayType>) -> &'t [MemberType]
    ensures { result.now ≡ item_types (option_copied array.entry) }
{
    match array {
        None => &[],
        Some(array) => array.items.as_slice(),
    }
}

fn item_style<'t>(array: Option<&'t ArrayType>) -> StyleRef<'t>
    ensures { style_of result ≡ item_style (option_copied array.entry) }
{
    let Some(array) = array else {
        return bare();
    };
    match &array.binding {
        None => bare(),
        Some(binding) => StyleRef {
            prefix: binding.prefix.as_ref(),
            separate: binding.separate,
            separator: None,
        },
    }
}

pub(crate) fn bare<'s>() -> StyleRef<'s>
    ensures { style_of result ≡ bare }
{
    StyleRef {
        prefix: None,
        separate: true,
        separator: None,
    }
}

/// The texts of the items in one, with the separator between them, after the prefix; nothing for an empty list.
fn joined_words(
    alloc: Global,
    items: &[Value],
    separator: &Text,
    style: StyleRef<'_>,
) -> Result<Option<Vec<Text>>, AllocError>
    ensures { IfOk result (λ words. option_map (λ v. v.items) words
        ≡ joined_words (style_of style.entry) separator.now items.now) }
{
    if items.is_empty() {
        return Ok(Some(Vec::new(alloc)));
    }
    match joined(alloc, items, separator)? {
        Some(text) => Ok(Some(text_words(alloc, text.as_str(), style)?)),
        None => Ok(None),
    }
}

fn joined(alloc: Global, items: &[Value], separator: &Text) -> Result<Option<String>, AllocError>
    requires { 0 < length items.now }
    ensures { IfOk result (λ text. option_map string_bytes text
        ≡ separated separator.now items.now) }
{
    let Some(first) = text_of(alloc, &items[0])? else {
        return Ok(None);
    };
    with_rest(alloc, first.into_string(), &items[1..], separator)
}

/// The text and then the separator and the text of each item.
fn with_rest(
    alloc: Global,
    mut text: String,
    items: &[Value],
    separator: &Text,
) -> Result<Option<String>, AllocError>
    ensures { IfOk result (λ all. option_map string_bytes all
        ≡ appended (Some (string_bytes text)) (rest_text separator.now items.now)) }
{
    for item in items {
        let Some(next) = text_of(alloc, item)? else {
            return Ok(None);
        };
        text.push_str(separator.as_str())?;
        text.push_str(next.as_str())?;
    }
    Ok(Some(text))
}

/// The text of a value that is one: a text, a number, or the path of a File or Directory.
fn text_of(alloc: Global, value: &Value) -> Result<Option<Text>, AllocError>
    ensures { IfOk result (λ text. text ≡ text_of value.now) }
{
    match value {
        Value::Whole(number) => Ok(Some(Text::from_string(number.to_string(alloc)?))),
        Value::Text(text) => Ok(Some(text.copied(alloc)?)),
        Value::FileVal(file) => path_in(alloc, &file.place),
        Value::DirVal(dir) => path_in(alloc, &dir.place),
        Value::Null | Value::Bool(_) | Value::List(_) | Value::Fields(_) => Ok(None),
    }
}

pub(crate) fn path_in(alloc: Global, place: &Place) -> Result<Option<Text>, AllocError>
    ensures { IfOk result (λ path. path ≡ path_in place.now) }
{
    match place {
        Place::Path(path) => Ok(Some(path.copied(alloc)?)),
        Place::Nowhere | Place::Url(_) | Place::Made(_, _) => Ok(None),
    }
}

/// The prefix alone, where there is one.
fn flag_words(alloc: Global, style: StyleRef<'_>) -> Result<Vec<Text>, AllocError>
    ensures { IfOk result (λ words. words.items ≡ option_to_list (style_of style.entry).prefix) }
{
    let mut words = Vec::new(alloc);
    if let Some(prefix) = style.prefix {
        words.push(prefix.copied(alloc)?)?;
    }
    Ok(words)
}

/// A text with its prefix: two words where they are separate, and else one.
fn text_words(alloc: Global, text: &str, style: StyleRef<'_>) -> Result<Vec<Text>, AllocError>
    ensures { IfOk result (λ words. words.items ≡ prefixed (style_of style.entry) text.now) }
{
    let mut words = Vec::new(alloc);
    match style.prefix {
        None => words.push(Text::from_text(alloc, text)?)?,
        Some(prefix) if style.separate => {
            words.push(prefix.copied(alloc)?)?;
            words.push(Text::from_text(alloc, text)?)?;
        }
        Some(prefix) => {
            let mut joined = String::from_str(alloc, prefix.as_str())?;
            joined.push_str(text)?;
            words.push(Text::from_string(joined))?;
        }
    }
    Ok(words)
}
