//! The answers of a list's pieces, put together.

ghost use Rattle.std.specs.Prelude.{◌≡◌, [], None, IfOk, OnOk};
ghost use Rattle.world_front.specs.Joining.{reply_of, with_reply};

use crate::name_set::NameSet;
use common_types::{OutOfMemory, TryClone};
use entry_core::Reply;
use std::alloc::Global;

/// The joined answers of some pieces: the first denial, and all names.
pub struct Joined {
    denial: Option<Reply>,
    names: NameSet,
}

impl Drop for Joined {
    fn drop(self) {
        let Joined {
            denial: _,
            names: _,
        } = self;
    }
}

impl Joined {
    /// The join of no answers. It allocates nothing.
    pub fn new(alloc: Global) -> Joined
        ensures { result ≡ record { denial = None; names = [] } }
    {
        Joined {
            denial: None,
            names: NameSet::new(alloc),
        }
    }

    /// One answer more.
    pub fn add(&mut self, alloc: Global, reply: &Reply) -> Result<(), OutOfMemory>
        ensures { OnOk result (self.new ≡ with_reply self.old reply.now) }
    {
        match reply {
            Reply::Denied(_) => {
                if self.denial.is_none() {
                    self.denial = Some(reply.copy()?);
                }
                Ok(())
            }
            Reply::Names(names) => self.names.add_all(alloc, names.as_slice()),
            Reply::Done(_) | Reply::Failed { .. } => Ok(()),
        }
    }

    /// The first denial, or all names.
    pub fn into_reply(self, alloc: Global) -> Result<Reply, OutOfMemory>
        ensures { IfOk result (λ reply. reply ≡ reply_of self) }
    {
        let Joined { denial, names } = self;
        match denial {
            Some(denial) => Ok(denial),
            None => Ok(Reply::Names(names.names(alloc)?)),
        }
    }
}
