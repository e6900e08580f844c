//! Fields of a class that must have a value.
ghost use Rattle.std.specs.Prelude.{◌≡◌, Some, is_none};
ghost use Rattle.ml_style.specs.Faults.{Answers};
ghost use Rattle.ml_style.specs.ClassFaults.{needs};

use crate::fault::StyleFault;
use ml_ratio::Text;
use std::alloc::Global;

/// The value of this field of class `k`.
///
/// # Errors
/// BadClass where there is none; out of memory.
pub(crate) fn field<T>(
    alloc: Global,
    k: usize,
    name: &str,
    value: Option<T>,
) -> Result<T, StyleFault>
    ensures { Answers result (needs k name.now value) (λ x. value ≡ Some x) }
{
    match value {
        Some(x) => Ok(x),
        None => Err(StyleFault::BadClass(k, Text::of(alloc, name)?)),
    }
}
