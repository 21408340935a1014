//! Refused memory ends an execution, and is no error of a field.

use juniper_syntax::DefaultScalarValue;
use juniper_values::ResolveError;
use std::alloc::{AllocError, AllocFailed};

#[test]
fn refused_memory_ends_an_execution(rt: HostRuntime) {
    let refused: ResolveError<DefaultScalarValue> = ResolveError::from(AllocError);
    assert!(rt; matches!(&refused, ResolveError::Memory));
    let failed: ResolveError<DefaultScalarValue> = ResolveError::from(AllocFailed { value: 1u8 });
    assert!(rt; matches!(&failed, ResolveError::Memory));
}
