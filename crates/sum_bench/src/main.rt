//! What `bench/sums` measures: `sum FILE` sums a file by `sum_of`, and `digest BYTES` hashes as many bytes of memory
//! by the hasher alone.
#![tactic(auto)]

use anyhow::{Result, bail};
use file_values::{Watched, sum_of};
use sha1::Sha1;
use std::alloc::Global;
use std::{env, fs};

const BLOCK: usize = 65_536;

fn main(rt: HostRuntime) -> Result<()> {
    let mut words = env::args(&rt)?;
    let _program = words.next();
    match (words.next(), words.next()) {
        (Some(verb), Some(object)) => measured(&rt, verb.as_str(), object.as_str()),
        _ => bail!("sum FILE, or digest BYTES"),
    }
}

fn measured(rt: &HostRuntime, verb: &str, object: &str) -> Result<()> {
    match verb {
        "sum" => print_sum(rt, object),
        "digest" => print_digest(rt, object),
        _ => bail!("sum FILE, or digest BYTES"),
    }
}

fn print_sum(rt: &HostRuntime, file: &str) -> Result<()> {
    let mut reader = Watched::new(fs::open(rt, file)?);
    let sum = sum_of(rt.alloc(), &mut reader)?;
    println!(rt; "{} {}", sum.sum, sum.size)?;
    Ok(())
}

fn print_digest(rt: &HostRuntime, bytes: &str) -> Result<()> {
    let sum = digest_of_zeros(rt.alloc(), bytes.parse::<u64>()?)?;
    println!(rt; "{sum}")?;
    Ok(())
}

// The sum of so many blocks of zeros, and of no smaller rest.
fn digest_of_zeros(alloc: Global, bytes: u64) -> Result<String> {
    let block = vec![in alloc; 0u8; BLOCK]?;
    let mut hasher = Sha1::new();
    for _ in 0..bytes / BLOCK as u64 {
        hasher.update(&block);
    }
    Ok(hex::encode(alloc, hasher.finalize())?)
}
