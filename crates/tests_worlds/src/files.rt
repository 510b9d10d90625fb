//! Files that stand in the tests alone.

use command_line::OutputFiles;
use gate_files::InputFiles;
use std::alloc::Global;
use std::io;

#[derive(Clone, Copy)]
pub(super) struct TestFiles {
    pub(super) alloc: Global,
}

/// An entity that may read and write a pool.
const APP: &str = r#"[{"entity":"client.app","key":"","caps":{"osd":"allow rw pool=data"}}]"#;

/// A pool without applications.
const POOLS: &str = r#"[{"pool_name":"data","application_metadata":{}}]"#;

fn file_of(path: &str) -> Option<&'static str> {
    match path {
        "app" => Some(APP),
        "nobody" => Some("[]"),
        "pools" => Some(POOLS),
        "requests" => Some("--pool data --object x --write"),
        "script" => Some("osds 2\nosd down 1\n"),
        _ => None,
    }
}

impl InputFiles for TestFiles {
    fn read_bytes(&self, path: &str, _most: u64) -> io::Result<Vec<u8>> {
        match file_of(path) {
            None => Err(io::Error::from(io::ErrorKind::NotFound)),
            Some(text) => Ok(String::from_str(self.alloc, text)?.into_bytes()),
        }
    }
}

impl OutputFiles for TestFiles {
    fn write_bytes(&self, _path: &str, _bytes: &[u8]) -> io::Result<()> {
        Err(io::Error::from(io::ErrorKind::PermissionDenied))
    }
}
