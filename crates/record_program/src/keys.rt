//! The keys that have a sum.
ghost use Rattle.std.specs.Prelude.{◌≡◌, IfOk};
ghost use Rattle.record_program.specs.Lines.{has_sum, keys_with};

use crate::lines::sum_of_key;
use plain_data::{Items, Text};
use std::alloc::{AllocError, Global};

/// Returns those of these keys whose SHA-1 has this text.
pub fn keys_with(alloc: Global, all: &[Text], sum: &str) -> Result<Items<Text>, AllocError>
    ensures { IfOk result (λ keys. keys ≡ keys_with sum.now all.now) }
{
    let mut keys = Items::new(alloc);
    for key in all {
        if has_sum(alloc, key, sum)? {
            keys.push(key.copied(alloc)?)?;
        }
    }
    Ok(keys)
}

fn has_sum(alloc: Global, key: &Text, sum: &str) -> Result<bool, AllocError>
    ensures { IfOk result (λ same. same ≡ has_sum sum.now key.now) }
{
    Ok(sum_of_key(alloc, key.as_str())?.as_str() == sum)
}
