//! Reads links.
ghost use Rattle.std.specs.Prelude.{◌≡◌, IfOk, map, option_and_then, option_map, codes};
ghost use Rattle.serde_json.specs.View.{view};
ghost use Rattle.cwl_process.specs.Links.{after_id, links_in, merge_named, pick_named, plain_source, source_in, source_of, split_source};
ghost use Rattle.cwl_process.specs.Simple.{one_or_more, text_at, value_seen};

use crate::links::{Links, Merge, Pick, Source};
use crate::simple::one_or_more;
use document_table::has_hash;
use plain_data::{Items, Text};
use serde_json::Value;
use std::alloc::{AllocError, Global};

/// The links of an object in the workflow of that id, whose sources have the value that is given.
pub(crate) fn read_links(
    alloc: Global,
    id: &str,
    sources: Option<&Value>,
    value: &Value,
) -> Result<Links, AllocError>
    ensures { IfOk result
        (λ links. links ≡ links_in id.now (option_map value_seen sources.entry) (view value.now)) }
{
    let sources = match sources {
        None => None,
        Some(found) => Some(read_sources(alloc, id, found)?),
    };
    Ok(Links {
        sources,
        merge: read_merge(value),
        pick: read_pick(value),
    })
}

fn read_sources(alloc: Global, id: &str, value: &Value) -> Result<Items<Source>, AllocError>
    ensures { IfOk result
        (λ sources. sources ≡ map (source_in id.now) (one_or_more (view value.now))) }
{
    let found = one_or_more(alloc, value)?;
    sources_of(alloc, id, found.as_slice())
}

fn sources_of(alloc: Global, id: &str, found: &[&Value]) -> Result<Items<Source>, AllocError>
    ensures { IfOk result
        (λ sources. sources ≡ map (source_in id.now) (map value_seen found.now)) }
{
    let mut sources = Items::new(alloc);
    for value in found {
        sources.push(source_of(alloc, id, value.as_str().unwrap_or(""))?)?;
    }
    Ok(sources)
}

fn source_of(alloc: Global, id: &str, text: &str) -> Result<Source, AllocError>
    ensures { IfOk result (λ source. source ≡ source_of id.now text.now) }
{
    match plain_source(id, text) {
        None => split_source(alloc, ""),
        Some(plain) => split_source(alloc, plain),
    }
}

/// What a source is in the workflow of that id. One that begins with `#` begins with the id and `/`.
pub(crate) fn plain_source<'t>(id: &str, text: &'t str) -> Option<&'t str>
    ensures { option_map (λ plain. plain.now) result ≡ plain_source id.now text.now }
{
    if has_hash(text) {
        return after_id(id, text);
    }
    Some(text)
}

fn after_id<'t>(id: &str, text: &'t str) -> Option<&'t str>
    ensures { option_map (λ rest. rest.now) result ≡ after_id id.now text.now }
{
    let rest = text.strip_prefix(id)?;
    rest.strip_prefix('/')
}

fn split_source(alloc: Global, text: &str) -> Result<Source, AllocError>
    ensures { IfOk result (λ source. source ≡ split_source text.now) }
{
    match text.split_once('/') {
        None => Ok(Source {
            step: None,
            name: Text::from_text(alloc, text)?,
        }),
        Some((step, name)) => {
            let name = Text::from_text(alloc, name)?;
            Ok(Source {
                step: Some(Text::from_text(alloc, step)?),
                name,
            })
        }
    }
}

fn read_merge(value: &Value) -> Option<Merge>
    ensures { result ≡ option_and_then merge_named (text_at (codes "linkMerge") (view value.now)) }
{
    let text = value.get("linkMerge")?.as_str()?;
    match text {
        "merge_nested" => Some(Merge::Nested),
        "merge_flattened" => Some(Merge::Flattened),
        _ => None,
    }
}

fn read_pick(value: &Value) -> Option<Pick>
    ensures { result ≡ option_and_then pick_named (text_at (codes "pickValue") (view value.now)) }
{
    let text = value.get("pickValue")?.as_str()?;
    match text {
        "first_non_null" => Some(Pick::FirstNonNull),
        "the_only_non_null" => Some(Pick::TheOnlyNonNull),
        "all_non_null" => Some(Pick::AllNonNull),
        _ => None,
    }
}
