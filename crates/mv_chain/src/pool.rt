ghost use Rattle.std.specs.Prelude.{◌≡◌, ℕ, None, IfOk};
ghost use Rattle.slab.specs.Slab.{slab_len};
ghost use Rattle.mv_chain.specs.{Pool.at, Within.IsWithin};

use crate::version::Version;
use slab::Slab;
use std::alloc::{AllocError, Global};

/// The versions of all chains.
#[derive(Debug, Drop)]
pub struct Pool {
    pub(crate) alloc: Global,
    pub(crate) slab: Slab<Version>,
}

impl Pool {
    /// No versions. Takes no memory.
    pub fn new(alloc: Global) -> Pool
        ensures empty { (slot : ℕ) → at result slot ≡ None }
        ensures none { slab_len result.slab ≡ 0 }
        ensures within { (n : ℕ) → IsWithin n result }
    {
        Pool {
            alloc,
            slab: Slab::new(alloc),
        }
    }

    /// No versions, with room for `versions` of them.
    ///
    /// # Errors
    /// Out of memory.
    pub fn with_capacity(alloc: Global, versions: usize) -> Result<Pool, AllocError>
        ensures empty { IfOk result (λ p. (slot : ℕ) → at p slot ≡ None) }
        ensures none { IfOk result (λ p. slab_len p.slab ≡ 0) }
        ensures within { IfOk result (λ p. (n : ℕ) → IsWithin n p) }
    {
        Ok(Pool {
            alloc,
            slab: Slab::with_capacity(alloc, versions)?,
        })
    }

    /// How many versions all chains have.
    pub fn versions(&self) -> usize
        ensures { result ≡ slab_len self.now.slab }
    {
        self.slab.len()
    }
}
