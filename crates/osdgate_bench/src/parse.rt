//! What it costs to read a capability text.

use crate::fault::Fault;
use crate::grants::pools;
use cap_text::{CapFault, FaultKind, parse};
use ceph_text::{CephFault, read};
use common_types::OutOfMemory;
use std::alloc::{AllocError, Global};
use std::time::Clock;
use stopwatch::{Table, Work};

/// A text, which is parsed. The list is dropped.
#[derive(Drop)]
struct Parse {
    alloc: Global,
    text: String,
}

impl Work for Parse {
    fn once(&self, _turn: usize) -> Result<bool, OutOfMemory> {
        match parse(self.alloc, self.text.as_str()) {
            Ok(list) => Ok(!list.grants().is_empty()),
            Err(
                CapFault {
                    kind: FaultKind::OutOfMemory,
                    ..
                },
            ) => Err(AllocError),
            Err(_) => Ok(false),
        }
    }

    fn size(&self) -> u64 {
        1
    }
}

/// A text, which is read by Ceph's rules. The list is dropped.
#[derive(Drop)]
struct ReadCeph {
    alloc: Global,
    text: String,
}

impl Work for ReadCeph {
    fn once(&self, _turn: usize) -> Result<bool, OutOfMemory> {
        match read(self.alloc, self.text.as_str()) {
            Ok(list) => Ok(!list.grants().is_empty()),
            Err(CephFault::OutOfMemory) => Err(AllocError),
            Err(_) => Ok(false),
        }
    }

    fn size(&self) -> u64 {
        1
    }
}

/// The texts that are measured.
#[derive(Clone, Copy)]
enum Kind {
    All,
    OnePool,
    TwoGrants,
    ManyPools,
    Refused,
}

/// All kinds, in the order of their rows.
const KINDS: &[Kind] = &[
    Kind::All,
    Kind::OnePool,
    Kind::TwoGrants,
    Kind::ManyPools,
    Kind::Refused,
];

impl Kind {
    /// How a row is named.
    fn name(self) -> &'static str {
        match self {
            Kind::All => "parse, allow *",
            Kind::OnePool => "parse, one grant with a pool",
            Kind::TwoGrants => "parse, two grants, a prefix and a pool",
            Kind::ManyPools => "parse, 64 grants with pools",
            Kind::Refused => "parse, refused at its second grant",
        }
    }

    /// The text, over a given name.
    fn text(self, alloc: Global, name: &str) -> Result<String, OutOfMemory> {
        match self {
            Kind::All => String::from_str(alloc, "allow *"),
            Kind::OnePool => format!(in alloc; "allow rw pool={name}"),
            Kind::TwoGrants => {
                format!(in alloc; "allow r object_prefix {name}., allow rw pool={name}")
            }
            Kind::ManyPools => pools(alloc, name, 64, ""),
            Kind::Refused => format!(in alloc; "allow rw pool={name}, permit r"),
        }
    }
}

/// Adds the rows of texts, over a given name.
pub(crate) fn add_parses<C: Clock>(table: &mut Table<'_, C>, name: &str) -> Result<(), Fault> {
    let alloc = table.alloc();
    for kind in KINDS {
        let text = kind.text(alloc, name)?;
        table.row(kind.name(), &Parse { alloc, text })?;
    }
    let text = pools(alloc, name, 64, "")?;
    table.row(
        "read by Ceph's rules, 64 grants with pools",
        &ReadCeph { alloc, text },
    )?;
    Ok(())
}
