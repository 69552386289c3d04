ghost use Rattle.std.specs.Prelude.{◌≡◌, ◌≤◌, ◌++◌, ◌⊎◌, length, slice_get, option_copied, IfErr, IfOk, MatchResult, OnOk};
ghost use Rattle.std.specs.List.{AllByRecursion};
ghost use Rattle.kd_token.specs.File.{Code, HasFile, IsFileOf, IsName, IsShort, code, file_bytes, head_bytes, names_bytes, tokens_bytes};
ghost use Rattle.kd_token.specs.Reading.{ReaderGives, program_at};
ghost use Rattle.kd_token.specs.FirstFault.{IsFileFault, parts, bytes_of_parts};
ghost use Rattle.kd_token.specs.declared.fault.FileFault.TheVariants.{Memory};

use crate::fault::FileFault;
use crate::put::{put_name, put_token, put_u16, put_u32};
use crate::reader::Reader;
use crate::reading;
use crate::token::{Token, Version};
use kd_wire::Bytes;
use std::alloc::{AllocError, Global};
use std::marker::Model;

/// A program of tokens within the limits of a token file: at most 1,024 declared steps, 1,024
/// tokens and 64 names, and a declared depth of at most 64.
#[derive(Drop)]
pub struct Program {
    version: Version,
    steps: u16,
    depth: u8,
    bound: u16,
    names: Vec<Bytes>,
    tokens: Vec<Token>,
}

impl Model for Program {
    ghost use Rattle.kd_token.specs.File.{Code, HasFile, code};

    ghost Value = { Code };

    ghost view = { λ p. code p.version p.steps p.depth p.bound p.names.items p.tokens.items };

    ghost invariant = { λ p. HasFile (code p.version p.steps p.depth p.bound p.names.items p.tokens.items) };
}

impl Program {
    /// Reads the program of a token file. Takes memory for its names, its tokens and their byte
    /// strings.
    ///
    /// # Errors
    ///
    /// The first fault from left to right, or `Memory` in place of any later result.
    pub fn read(alloc: Global, bytes: &[u8]) -> Result<Program, FileFault>
        ensures found { IfOk result (λ p. IsFileOf bytes.now p) }
        ensures only { (p : Code) → IsFileOf bytes.now p
            → MatchResult result (λ found. found ≡ p) (λ fault. fault ≡ Memory) }
        ensures first { IfErr result (λ fault. (fault ≡ Memory) ⊎ IsFileFault bytes.now fault) }
        ensures fields { (p : Code) → bytes_of_parts (parts p) ≡ file_bytes p }
    {
        whole(alloc, bytes)
    }

    /// Makes a program of these parts, the declared ones first. Takes no memory.
    pub fn new(
        version: Version,
        steps: u16,
        depth: u8,
        length: u16,
        names: Vec<Bytes>,
        tokens: Vec<Token>,
    ) -> Program
        requires { HasFile (code version steps depth length names.items tokens.items) }
        ensures { result ≡ code version steps depth length names.items tokens.items }
    {
        Program {
            version,
            steps,
            depth,
            bound: length,
            names,
            tokens,
        }
    }

    /// Returns the bytes of the program's file.
    ///
    /// # Errors
    ///
    /// There is no memory for them.
    pub fn write(&self, alloc: Global) -> Result<Vec<u8>, AllocError>
        ensures { IfOk result (λ bytes. IsFileOf bytes.items self.now) }
    {
        let mut out = Vec::new(alloc);
        put_head(&mut out, self.version, self.steps, self.depth, self.bound)?;
        put_names(&mut out, &self.names)?;
        put_tokens(&mut out, &self.tokens)?;
        Ok(out)
    }

    /// Returns the version of its file.
    pub fn version(&self) -> Version
        ensures { result ≡ self.now.version }
    {
        self.version
    }

    /// Returns the declared steps, at most 1,024.
    pub fn steps(&self) -> u16
        ensures { result ≡ self.now.steps }
    {
        self.steps
    }

    /// Returns the declared depth, at most 64.
    pub fn depth(&self) -> u8
        ensures { result ≡ self.now.depth }
    {
        self.depth
    }

    /// Returns the declared greatest length of a value.
    pub fn length(&self) -> u16
        ensures { result ≡ self.now.bound }
    {
        self.bound
    }

    /// Returns the name at an index, if there is one.
    pub fn name_at(&self, index: usize) -> Option<&[u8]>
        ensures { option_copied result ≡ slice_get self.now.names index }
    {
        match self.names.get(index) {
            Some(name) => Some(name.as_slice()),
            None => None,
        }
    }

    // Returns the number of names in the program.
    pub(crate) fn names(&self) -> usize
        ensures { result ≡ length self.now.names }
    {
        self.names.len()
    }

    /// Returns the tokens, in order.
    pub fn tokens(&self) -> &[Token]
        ensures tokens { result.now ≡ self.now.tokens }
        ensures limits { HasFile self.now }
    {
        self.tokens.as_slice()
    }
}

// Reads the program whose file is all of the bytes.
#[tactic(auto, unfolding(crate::specs::Reading::file_at, crate::specs::Reading::fields_at, crate::specs::Reading::file_end))]
fn whole(alloc: Global, bytes: &[u8]) -> Result<Program, FileFault>
    ensures read { ReaderGives (λ p. p) result (program_at bytes.now) }
    ensures found { IfOk result (λ p. IsFileOf bytes.now p) }
{
    let mut reader = Reader::new(bytes);
    reading::magic(&mut reader)?;
    let version = reading::version(&mut reader)?;
    let steps = reader.u16_to(1024)?;
    let depth = reader.u8_to(64)?;
    let bound = reader.u16()?;
    let names = reading::names(alloc, &mut reader)?;
    let tokens = reading::tokens(alloc, &mut reader, version)?;
    if reader.len() != 0 {
        return Err(FileFault::Rest(reader.at()));
    }
    Ok(Program {
        version,
        steps,
        depth,
        bound,
        names,
        tokens,
    })
}

// Writes what comes before the names.
fn put_head(
    out: &mut Vec<u8>,
    version: Version,
    steps: u16,
    depth: u8,
    bound: u16,
) -> Result<(), AllocError>
    ensures { OnOk result (out.new.items ≡ out.old.items ++ head_bytes version steps depth bound) }
{
    put_u32(out, 0x4b34_544b)?;
    out.push(version.number())?;
    put_u16(out, steps)?;
    out.push(depth)?;
    put_u16(out, bound)
}

// Writes the number of names, and then the names.
fn put_names(out: &mut Vec<u8>, names: &[Bytes]) -> Result<(), AllocError>
    requires few { length names.now ≤ 64 }
    requires each { AllByRecursion IsName names.now }
    ensures { OnOk result (out.new.items ≡ out.old.items ++ names_bytes names.now) }
{
    out.push(names.len() as u8)?;
    for name in names {
        put_name(out, name)?;
    }
    Ok(())
}

// Writes the number of tokens, and then the tokens.
fn put_tokens(out: &mut Vec<u8>, tokens: &[Token]) -> Result<(), AllocError>
    requires few { length tokens.now ≤ 1024 }
    requires each { AllByRecursion IsShort tokens.now }
    ensures { OnOk result (out.new.items ≡ out.old.items ++ tokens_bytes tokens.now) }
{
    put_u16(out, tokens.len() as u16)?;
    for token in tokens {
        put_token(out, token)?;
    }
    Ok(())
}
