//! Names of files and folders, as paths and URLs.
ghost use Rattle.std.specs.Prelude.{◌≡◌, None, Ok, if◌then◌else◌, [], ◌∷◌, ◌++◌, IfOk, IfErr, OnOk, string_bytes};
ghost use Rattle.file_values.specs.Location.{is_absolute, location_of};
ghost use Rattle.url.specs.Parser.{parse_url};
ghost use Rattle.run_given.specs.Paths as spec;
ghost use Rattle.run_given.specs.declared.stop.Stop.TheVariants.{OutOfMemory};

use crate::stop::Stop;
use file_values::path_to_location;
use plain_data::Text;
use std::alloc::{AllocError, Global};
use url::Url;

/// A name as a path from the root: joined to the folder `here` if it does not begin with `/`, without empty
/// components and components `.`.
pub fn from_root(alloc: Global, here: &str, name: &str) -> Result<Text, AllocError>
    ensures { IfOk result (λ path. path ≡ spec.from_root here.now name.now) }
{
    let mut path = String::new(alloc);
    if !is_absolute(name) {
        add_steps(&mut path, here)?;
    }
    add_steps(&mut path, name)?;
    Ok(Text::from_string(path))
}

fn is_absolute(name: &str) -> bool
    ensures { result ≡ is_absolute name.now }
{
    matches!(name.as_bytes(), [b'/', ..])
}

fn add_steps(path: &mut String, name: &str) -> Result<(), AllocError>
    ensures { OnOk result (string_bytes path.new ≡ string_bytes path.old
        ++ spec.rooted (spec.steps name.now)) }
{
    for component in name.split('/') {
        add_step(path, component)?;
    }
    Ok(())
}

fn add_step(path: &mut String, component: &str) -> Result<(), AllocError>
    ensures { OnOk result (string_bytes path.new ≡ string_bytes path.old
        ++ (if spec.leads_on component.now then 47 ∷ component.now else [])) }
{
    if component.is_empty() || component == "." {
        return Ok(());
    }
    path.push('/')?;
    path.push_str(component)
}

/// The URL of a file of this name, on which the locations in it are. Each name has one, so only room for it can be wanting.
pub fn base_of(alloc: Global, here: &str, name: &str) -> Result<Url, Stop>
    ensures ok { IfOk result (λ url. spec.IsAt here.now name.now url) }
    ensures is_url { spec.HasUrl (spec.from_root here.now name.now) }
    ensures err { IfErr result (λ stop. stop ≡ OutOfMemory) }
{
    let path = from_root(alloc, here, name)?;
    let location = path_to_location(alloc, path.as_str())?;
    match Url::parse(alloc, location.as_str()) {
        Ok(url) => Ok(url),
        Err(_) => Err(Stop::OutOfMemory),
    }
}
