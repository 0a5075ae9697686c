//! Copies of a program, one for each card.

ghost use Rattle.std.specs.Prelude.{◌≡◌, All, IfSome, length};

use bpf_verify::{Program, verify};
use std::alloc::Global;

/// Returns this number of copies of a program, or None if an allocation fails.
pub(crate) fn copies_of(alloc: Global, program: &Program, many: usize) -> Option<Vec<Program>>
    ensures many { IfSome result (λ copies. length copies.items ≡ many) }
    ensures same { IfSome result (λ copies. All (λ copy. copy ≡ program.now) copies.items) }
{
    let Ok(mut copies) = Vec::with_capacity(alloc, many) else {
        return None;
    };
    for _ in 0..many {
        copies.push_reserved(copy_of(alloc, program)?);
    }
    Some(copies)
}

/// Returns a copy of a program, or None if an allocation fails.
fn copy_of(alloc: Global, program: &Program) -> Option<Program>
    ensures { IfSome result (λ copy. copy ≡ program.now) }
{
    let mut code = Vec::new(alloc);
    if code.extend_from_slice(program.code()).is_err() {
        return None;
    }
    match verify(code) {
        Ok(copy) => Some(copy),
        Err(_) => unreachable!(),
    }
}
