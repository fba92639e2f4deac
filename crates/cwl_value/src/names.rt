ghost use Rattle.std.specs.Prelude.{◌≡◌};
ghost use Rattle.cwl_value.specs.NameParts.{nameroot, nameext, has_other};

/// The root and the extension of a file's name (CWL v1.2, File: `nameroot` and `nameext`).
///
/// The extension begins with the name's last period. A name with nothing but periods before it has none.
pub fn name_parts(name: &str) -> (&str, &str)
    ensures root { result.0.now ≡ nameroot name.now }
    ensures extension { result.1.now ≡ nameext name.now }
{
    if let Some(at) = name.rfind('.') {
        let (root, extension) = name.split_at(at);
        if has_other_byte(root) {
            return (root, extension);
        }
    }
    (name, "")
}

// Whether some byte is not a period.
fn has_other_byte(root: &str) -> bool
    ensures { result ≡ has_other root.now }
{
    root.as_bytes().iter().any(|byte| *byte != b'.')
}
