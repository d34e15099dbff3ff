//! The trait of compilers of charmap texts.
ghost use Rattle.cv_cache.specs.Compiled.{IsCompiled};

use cv_charmap::CompileFault;
use cv_trie::Charmap;
use std::alloc::Global;
use std::sync::Arc;

/// Compiles charmap texts. `R` is the runtime that it may use.
pub trait Compiler<R> {
    /// What a compilation requires of the compiler, such as that threads can share it.
    ghost ready: { Self → Type 0 } = { λ _. Unit {0} };

    /// Compiles a text: returns the charmap that it means, which its users share, or its first fault. The contract
    /// allows `CompileFault::Memory` for every text.
    fn compile(&self, rt: &R, alloc: Global, text: &[u8]) -> Result<Arc<Charmap>, CompileFault>
        requires { ready self.now }
        ensures { IsCompiled text.now result };

    /// Frees what it keeps for later, and returns whether there was anything. It is called after an allocation failed,
    /// before the request is tried once more. It does not change what a text compiles to.
    fn give_up(&self, _rt: &R) -> bool
        requires { ready self.now }
    {
        false
    }
}

/// A borrowed compiler compiles like its owner, so several users may share one.
impl<R, C: Compiler<R>> Compiler<R> for &C {
    ghost ready = { λ compiler. C.ready compiler.now };

    fn compile(&self, rt: &R, alloc: Global, text: &[u8]) -> Result<Arc<Charmap>, CompileFault> {
        (**self).compile(rt, alloc, text)
    }

    fn give_up(&self, rt: &R) -> bool {
        (**self).give_up(rt)
    }
}
