use crate::support::is_written;
use kd_compile::CompileFault;
use kd_expr::ExprFault;
use kd_options::{ReadFault, WriteFault};
use kd_token::{FileFault, VerifyFault};
use std::test::Fail;

// The script `system-tests/memory` refuses the memory of the program's calls.
#[test]
fn want_of_memory_is_fault_91(rt: HostRuntime) -> Result<(), Fail> {
    assert!(rt; ExprFault::Memory.number() == 91);
    assert!(rt; CompileFault::Memory.number() == 91);
    assert!(rt; ReadFault::Memory.number() == 91);
    assert!(rt; WriteFault::Memory.number() == 91);
    assert!(rt; (FileFault::Memory.number(), VerifyFault::Memory.number()) == (91, 91));
    assert!(rt; is_written(rt.alloc(), ExprFault::Memory, "Memory")?);
    assert!(rt; is_written(rt.alloc(), CompileFault::Memory, "Memory")?);
    assert!(rt; is_written(rt.alloc(), ReadFault::Memory, "Memory")?);
    assert!(rt; is_written(rt.alloc(), WriteFault::Memory, "Memory")?);
    assert!(rt; is_written(rt.alloc(), FileFault::Memory, "Memory")?);
    assert!(rt; is_written(rt.alloc(), VerifyFault::Memory, "Memory")?);
    Ok(())
}
