//! What a checker keeps.
use brisk_derivtext::Lines;
use brisk_loops::{Walk, Why};

/// What the calls of the main steps have come to.
#[derive(Drop)]
pub enum Path {
    Walks(Walk),
    /// The line in format 1 at which the first failure is told, and the test that fails.
    Fails(u64, Why),
}

/// What is kept while the text stands.
#[derive(Drop)]
pub struct Work {
    /// The bytes after the last byte 10.
    pub rest: Vec<u8>,
    pub lines: Lines,
    pub path: Path,
}
