use kd_options::laws;
use std::test::Fail;

#[test]
fn the_law_of_replies_is_called(_rt: HostRuntime) -> Result<(), Fail> {
    laws::text_reads();
    Ok(())
}
