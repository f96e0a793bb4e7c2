//! Loads.

/// A load that is to be made: its key, how many processes it has, from 1 to 64, and the names of
/// the files of its program and its script.
#[derive(Clone, Copy)]
pub struct Load<'a> {
    pub key: u64,
    pub count: u32,
    pub program: &'a str,
    pub script: &'a str,
}
