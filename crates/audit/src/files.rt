// Reading files.
use anyhow::anyhow;
use std::fs;

// The bytes of a file.
pub fn bytes_of(rt: &HostRuntime, path: &str) -> anyhow::Result<Vec<u8>> {
    fs::read(rt, path).map_err(|e| anyhow!("cannot read {path}: {e}"))
}
