use kd_config::{Prefix, Range};
use kd_json::{ConfigFault, TokenFile, read_config};
use kd_wire::Bytes;
use std::alloc::{AllocError, Global};
use std::test::Fail;

// A program of one token: option 61 is present.
const HAS_CLIENT: &[u8] = b"K4TK\x01\x00\x01\x01\x00\x00\x00\x00\x01\x06\x3d";

// A token file.
fn file(alloc: Global, name: &[u8], bytes: &[u8]) -> Result<TokenFile, AllocError> {
    Ok(TokenFile {
        name: Bytes::own(Vec::from_slice(alloc, name)?),
        bytes: Bytes::own(Vec::from_slice(alloc, bytes)?),
    })
}

#[test]
fn prefixes_and_pools_know_their_addresses(rt: HostRuntime) {
    for (length, size) in [(0, 4_294_967_296), (1, 2_147_483_648), (24, 256), (32, 1)] {
        let prefix = Prefix { address: 0, length };
        assert!(rt; prefix.size() == size);
    }
    let prefix = Prefix {
        address: 0xc000_0200,
        length: 24,
    };
    let range = Range {
        first: 0xc000_0200,
        last: 0xc000_02ff,
    };
    for (address, want) in [
        (0xc000_01ff, false),
        (0xc000_0200, true),
        (0xc000_02ff, true),
        (0xc000_0300, false),
    ] {
        assert!(rt; prefix.contains(address) == want && range.contains(address) == want);
    }
}

// Returns the fault of a configuration with a class of the token file `t`, or `none`.
fn fault_text(alloc: Global, files: &[TokenFile]) -> Result<String, AllocError> {
    let text =
        r#"{"Dhcp4":{"server-address":"192.0.2.1","client-classes":[{"name":"A","tokens":"t"}]}}"#;
    match read_config(alloc, text.as_bytes(), files) {
        Ok(_) => String::from_str(alloc, "none"),
        Err(fault) => format!(in alloc; "{fault}"),
    }
}

// Returns the same where two files have this name.
fn fault_of_both(alloc: Global, first: &[u8], second: &[u8]) -> Result<String, AllocError> {
    let files = [file(alloc, b"t", first)?, file(alloc, b"t", second)?];
    fault_text(alloc, &files)
}

// No folder has two files with one name, so no case shows this.
#[test]
fn of_token_files_with_one_name_the_first_counts(rt: HostRuntime) -> Result<(), Fail> {
    let well = fault_of_both(rt.alloc(), HAS_CLIENT, b"")?;
    assert!(rt; well.as_str() == "none");
    let badly = fault_of_both(rt.alloc(), b"K4TX", HAS_CLIENT)?;
    assert!(rt; badly.as_str() == "Tokens 0 Magic");
    Ok(())
}

#[test]
fn want_of_memory_is_named(rt: HostRuntime) -> Result<(), Fail> {
    let text = format!(in rt.alloc(); "{}", ConfigFault::Memory)?;
    assert!(rt; text.as_str() == "Memory");
    Ok(())
}
