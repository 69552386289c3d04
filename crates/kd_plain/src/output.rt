ghost use Rattle.std.specs.Prelude.{◌≡◌, ◌<◌, ◌≤◌, [], IfOk, OnOk, ◌++◌, length, true};
ghost use Rattle.std.specs.Option.{ForSome};
ghost use Rattle.kd_plain.specs.Plain.{a_closing_bracket, blanks};

use crate::space::is_json_space;
use std::alloc::{AllocError, Global};

// The bytes of a plain text so far, and the place of a comma behind which there are only white
// space and comments.
#[derive(Drop)]
pub(crate) struct Output {
    bytes: Vec<u8>,
    comma: Option<usize>,
    ghost in_range: { ForSome comma (λ at. at < length bytes.items) },
}

impl Output {
    ghost use Rattle.kd_plain.specs.Output.{TakesSpan, with_comma};
    ghost use Rattle.kd_plain.specs.Plain.{Quoted, Comment, Single};

    // Starts with no bytes, and with room for as many as the text has.
    pub(crate) fn new(alloc: Global, size: usize) -> Result<Self, AllocError>
        ensures bytes { IfOk result (λ output. output.bytes.items ≡ []) }
        ensures comma { IfOk result (λ output. output.comma ≡ None) }
    {
        Ok(Output {
            bytes: Vec::with_capacity(alloc, size)?,
            comma: None,
        })
    }

    // Appends a string.
    pub(crate) fn push_string(&mut self, string: &[u8]) -> Result<(), AllocError>
        ensures { OnOk result (TakesSpan (Quoted string.now)
            self.old.bytes.items self.old.comma self.new.bytes.items self.new.comma) }
    {
        self.bytes.extend_from_slice(string)?;
        self.comma = None;
        Ok(())
    }

    // Appends white space for a comment.
    pub(crate) fn push_comment(&mut self, comment: &[u8]) -> Result<(), AllocError>
        ensures { OnOk result (TakesSpan (Comment comment.now)
            self.old.bytes.items self.old.comma self.new.bytes.items self.new.comma) }
    {
        push_blanks(&mut self.bytes, comment)
    }

    // Appends a byte outside strings and comments. A closing bracket makes the comma that waits a
    // space.
    pub(crate) fn push_byte(&mut self, byte: u8) -> Result<(), AllocError>
        ensures { OnOk result (TakesSpan (Single byte)
            self.old.bytes.items self.old.comma self.new.bytes.items self.new.comma) }
    {
        if is_closing_bracket(byte) {
            self.blank_comma();
        }
        self.bytes.push(byte)?;
        if byte == b',' {
            self.comma = Some(self.bytes.len() - 1);
        } else if !is_json_space(byte) {
            self.comma = None;
        }
        Ok(())
    }

    // Makes the comma that waits a space.
    fn blank_comma(&mut self)
        ensures bytes { self.new.bytes.items ≡ with_comma self.old.bytes.items self.old.comma true }
        ensures comma { self.new.comma ≡ self.old.comma }
    {
        if let Some(at) = self.comma {
            self.bytes[at] = b' ';
        }
    }

    // Returns the bytes.
    pub(crate) fn into_bytes(self) -> Vec<u8>
        ensures { result ≡ self.bytes }
    {
        let Output { bytes, comma: _ } = self;
        bytes
    }
}

// Appends white space for the bytes of a comment.
fn push_blanks(out: &mut Vec<u8>, comment: &[u8]) -> Result<(), AllocError>
    ensures ok { OnOk result (out.new.items ≡ out.old.items ++ blanks comment.now) }
    ensures err { length out.old.items ≤ length out.new.items }
{
    for byte in comment {
        out.push(if *byte == b'\n' { b'\n' } else { b' ' })?;
    }
    Ok(())
}

// Whether a byte closes an array or an object.
fn is_closing_bracket(byte: u8) -> bool
    ensures { result ≡ a_closing_bracket byte }
{
    byte == b']' || byte == b'}'
}
