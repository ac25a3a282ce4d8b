//! The call of `program_files` that finds the options of an adapter among words, made twice. The prover knows only the
//! clauses of a call, so these determine what is compared.

ghost use Rattle.std.specs.Prelude.{◌≡◌, IfOk, map, string_bytes};

use std::alloc::{AllocError, Global};

/// Calls [`program_files::adapter_options`] twice.
pub fn adapter_options(
    alloc: Global,
    words: &[String],
) -> (
    Result<Vec<String>, AllocError>,
    Result<Vec<String>, AllocError>,
)
    ensures { IfOk result.0 (λ options. IfOk result.1
        (λ others. map string_bytes options.items ≡ map string_bytes others.items)) }
{
    (
        program_files::adapter_options(alloc, words),
        program_files::adapter_options(alloc, words),
    )
}
