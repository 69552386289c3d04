ghost use Rattle.std.specs.Prelude.{◌≡◌, IfErr, IfOk, is_some, true};
ghost use Rattle.std.specs.Option.{option_copied};
ghost use Rattle.kd_kea.specs.Kea.{IsKea};
ghost use Rattle.kd_start.specs.Start.{AreOfFolder, IsNoKeaStart, IsNoStart, IsNoStartOfFiles, IsNoStartOfKeaFile, IsOfFiles, IsOfKeaFile, IsStart};

use crate::tokens::token_files;
use kd_config::Config;
use kd_io::{InputFault, MOST_BYTES, read_file};
use kd_json::{TokenFile, read_config};
use kd_kea::read_kea;
use kd_trouble::StartFault;
use std::alloc::Global;
use std::rt::Files;

/// Returns the configuration of a text with these token files, or the built-in one if there is no
/// text.
///
/// # Errors
///
/// The first fault of the text, or out of memory.
pub fn config_of(
    alloc: Global,
    text: Option<&[u8]>,
    tokens: &[TokenFile],
) -> Result<Config, StartFault>
    ensures found { IfOk result (IsStart (option_copied text.entry) tokens.now) }
    ensures refused { IfErr result (IsNoStart (option_copied text.entry) tokens.now) }
{
    match text {
        Some(text) => Ok(read_config(alloc, text, tokens)?),
        None => Ok(Config::builtin(alloc)?),
    }
}

/// Reads the configuration of the file at a path, with the token files of a folder; the built-in
/// one if there is no file. The folder is read first.
///
/// # Errors
///
/// The first fault of reading the folder and the file, then that of the text; `Memory` if memory
/// runs out.
pub fn configuration<R: Files + AllocGlobal + Clone + Drop>(
    rt: &R,
    file: Option<&str>,
    folder: Option<&str>,
) -> Result<Config, StartFault>
    ensures found { IfOk result (IsOfFiles (is_some file.entry) (is_some folder.entry)) }
    ensures refused { IfErr result (IsNoStartOfFiles (is_some file.entry) (is_some folder.entry)) }
{
    let tokens = tokens_in(rt, folder)?;
    match file {
        Some(path) => {
            let text = read_file(rt, path, MOST_BYTES)?;
            config_of(rt.alloc(), Some(text.as_slice()), &tokens)
        }
        None => config_of(rt.alloc(), None, &tokens),
    }
}

/// Reads the configuration of the file at a path, whose text has the form of ISC Kea's DHCPv4
/// server. `server` is the server's address, in host order and not 0, where the text has none.
///
/// # Errors
///
/// The fault of reading the file, then the first of the text; `Memory` if memory runs out.
#[tactic(auto, using(crate::proofs::Starting::of_kea_file, crate::proofs::Starting::fault_of_kea_file))]
pub fn kea_configuration<R: Files + AllocGlobal + Clone + Drop>(
    rt: &R,
    path: &str,
    server: Option<u32>,
) -> Result<Config, StartFault>
    ensures found { IfOk result (IsOfKeaFile server) }
    ensures refused { IfErr result (IsNoStartOfKeaFile server) }
{
    let bytes = read_file(rt, path, MOST_BYTES)?;
    kea_config_of(rt.alloc(), bytes.as_slice(), server)
}

// Returns the configuration of a text in Kea's form, by the address of the server where it has none.
fn kea_config_of(alloc: Global, text: &[u8], server: Option<u32>) -> Result<Config, StartFault>
    ensures found { IfOk result (IsKea text.now server) }
    ensures refused { IfErr result (IsNoKeaStart text.now server) }
{
    Ok(read_kea(alloc, text, server)?)
}

// Reads the token files of a folder, if there is one.
fn tokens_in<R: Files + AllocGlobal + Clone + Drop>(
    rt: &R,
    folder: Option<&str>,
) -> Result<Vec<TokenFile>, InputFault>
    ensures found { IfOk result (λ tokens. AreOfFolder (is_some folder.entry) tokens.items) }
    ensures refused { IfErr result (λ _. is_some folder.entry ≡ true) }
{
    match folder {
        Some(folder) => token_files(rt, folder),
        None => Ok(Vec::new(rt.alloc())),
    }
}
