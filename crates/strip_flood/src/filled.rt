//! Lists of one number.

ghost use Rattle.std.specs.Prelude.{◌≡◌, IfOk, replicate};

use std::alloc::{AllocError, Global};

// So many times this number.
pub(crate) fn filled(alloc: Global, number: u32, count: usize) -> Result<Vec<u32>, AllocError>
    ensures { IfOk result (λ v. v.items ≡ replicate count number) }
{
    vec![in alloc; number; count]
}
