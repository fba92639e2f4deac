//! The documents that a document names.
ghost use Rattle.std.specs.Prelude.{◌≡◌, ◌++◌, IfOk, OnOk, map};
ghost use Rattle.serde_json.specs.View.{view};
ghost use Rattle.document_table.specs.Entries.{entry_seen};
ghost use Rattle.document_links.specs.Homes.{home_seen};
ghost use Rattle.document_links.specs.Names.{document_urls, each_once, name_url, named_urls, step_urls, steps_urls, urls_in, workflow_urls};

use crate::bounds::MOST_WORKFLOWS;
use crate::home::Home;
use crate::joining::{joined, url_text};
use cwl_process::is_workflow;
use document_table::{Indexed, Kind, entries, has_hash};
use plain_data::{Items, Keyed, Text};
use serde_json::Value;
use std::alloc::{AllocError, Global};
use url::Url;

/// The URLs that a document names, each once.
pub(crate) fn document_urls(
    alloc: Global,
    url: &Url,
    document: &Indexed,
) -> Result<Items<Text>, AllocError>
    ensures { IfOk result
        (λ urls. urls ≡ each_once (document_urls url.now (view document.now.json))) }
{
    let mut urls = Vec::new(alloc);
    let home = Home { url, document };
    let root = document.root();
    push_urls(alloc, MOST_WORKFLOWS, home, root.process, &mut urls)?;
    each_once(alloc, urls.as_slice())
}

fn each_once(alloc: Global, urls: &[Text]) -> Result<Items<Text>, AllocError>
    ensures { IfOk result (λ once. once ≡ each_once urls.now) }
{
    let mut once = Items::new(alloc);
    let mut known = Keyed::new(alloc);
    for url in urls {
        if known.contains(url.as_str()) {
            continue;
        }
        let _new = known.insert(url.copied(alloc)?, true)?;
        once.push(url.copied(alloc)?)?;
    }
    Ok(once)
}

/// Adds the URLs that a process names.
#[cycle(names)]
fn push_urls(
    alloc: Global,
    levels: usize,
    home: Home<'_>,
    value: &Value,
    urls: &mut Vec<Text>,
) -> Result<(), AllocError>
    ensures { OnOk result
        (urls.new.items
        ≡ urls.old.items ++ urls_in levels (home_seen home.entry) (view value.now)) }
{
    if levels == 0 {
        return Ok(());
    }
    if !is_workflow(value) {
        return Ok(());
    }
    push_workflow_urls(alloc, levels - 1, home, value, urls)
}

#[cycle(names)]
fn push_workflow_urls(
    alloc: Global,
    levels: usize,
    home: Home<'_>,
    value: &Value,
    urls: &mut Vec<Text>,
) -> Result<(), AllocError>
    ensures { OnOk result (urls.new.items
        ≡ urls.old.items ++ workflow_urls (urls_in levels (home_seen home.entry))
        (home_seen home.entry) (view value.now)) }
{
    let Some(found) = value.get("steps") else {
        return Ok(());
    };
    let all = entries(alloc, Kind::Step, found)?;
    push_steps_urls(alloc, levels, home, all.as_slice(), urls)
}

#[cycle(names)]
fn push_steps_urls(
    alloc: Global,
    levels: usize,
    home: Home<'_>,
    all: &[(&str, &Value)],
    urls: &mut Vec<Text>,
) -> Result<(), AllocError>
    ensures { OnOk result (urls.new.items
        ≡ urls.old.items
        ++ steps_urls (urls_in levels (home_seen home.entry)) (home_seen home.entry)
        (map entry_seen all.now)) }
{
    for entry in all {
        push_step_urls(alloc, levels, home, entry.1, urls)?;
    }
    Ok(())
}

#[cycle(names)]
fn push_step_urls(
    alloc: Global,
    levels: usize,
    home: Home<'_>,
    value: &Value,
    urls: &mut Vec<Text>,
) -> Result<(), AllocError>
    ensures { OnOk result (urls.new.items
        ≡ urls.old.items ++ step_urls (urls_in levels (home_seen home.entry))
        (home_seen home.entry) (view value.now)) }
{
    let Some(found) = value.get("run") else {
        return Ok(());
    };
    match found.as_str() {
        None => push_urls(alloc, levels, home, found, urls),
        Some(name) => push_named_urls(alloc, levels, home, name, urls),
    }
}

/// Adds the URL of a name, or those that the item of that name names.
#[cycle(names)]
fn push_named_urls(
    alloc: Global,
    levels: usize,
    home: Home<'_>,
    name: &str,
    urls: &mut Vec<Text>,
) -> Result<(), AllocError>
    ensures { OnOk result (urls.new.items ≡ urls.old.items
        ++ named_urls (urls_in levels (home_seen home.entry)) (home_seen home.entry) name.now) }
{
    if !has_hash(name) {
        return push_name_url(alloc, home.url, name, urls);
    }
    match home.document.item(name) {
        None => Ok(()),
        Some(item) => push_urls(alloc, levels, home, item.process, urls),
    }
}

fn push_name_url(
    alloc: Global,
    base: &Url,
    name: &str,
    urls: &mut Vec<Text>,
) -> Result<(), AllocError>
    ensures { OnOk result (urls.new.items ≡ urls.old.items ++ name_url base.now name.now) }
{
    match joined(base, name)? {
        None => Ok(()),
        Some(url) => Ok(urls.push(Text::from_text(alloc, url_text(&url))?)?),
    }
}
