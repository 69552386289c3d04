ghost use Rattle.std.specs.Prelude.{◌≡◌, ◌<◌, ◌≤◌, ◌∷◌, ◌++◌, drop, length, IfOk};
ghost use Rattle.std.specs.Int.RustNames.{FitsSigned};
ghost use Rattle.std.specs.Int.{w32};
ghost use Rattle.byteorder.specs.Endian.{big_bytes, big_number};
ghost use Rattle.kd_token.specs.File.{signed_bytes};
ghost use Rattle.kd_token.specs.Reading.{ReaderGives, bytes_next, limited_at, number_next, place_in, rest, signed_at};

use crate::fault::FileFault;
use byteorder::{BigEndian, ByteOrder};
use std::marker::Model;

// The rest of a file that is read from left to right.
#[derive(Drop)]
pub(crate) struct Reader<'a> {
    whole: &'a [u8],
    left: &'a [u8],
}

impl<'a> Model for Reader<'a> {
    ghost use Rattle.kd_token.specs.Reading.{IsRest, Rest, rest};

    ghost Value = { Rest };

    ghost view = { λ r. rest r.whole.now r.left.now };

    ghost invariant = { λ r. IsRest (rest r.whole.now r.left.now) };
}

impl<'a> Reader<'a> {
    pub(crate) fn new(bytes: &'a [u8]) -> Reader<'a>
        ensures { result ≡ rest bytes.now bytes.now }
    {
        Reader {
            whole: bytes,
            left: bytes,
        }
    }

    // Returns the offset of the next byte.
    pub(crate) fn at(&self) -> usize
        ensures place { result ≡ place_in self.now }
        ensures rest { drop result self.now.whole ≡ self.now.left }
    {
        self.whole.len() - self.left.len()
    }

    // Returns the number of remaining bytes.
    pub(crate) fn len(&self) -> usize
        ensures { result ≡ length self.now.left }
    {
        self.left.len()
    }

    // Reads the next n bytes as one field.
    pub(crate) fn take(&mut self, n: usize) -> Result<&'a [u8], FileFault>
        ensures read { ReaderGives (λ b. (b.now, self.new)) result (bytes_next n self.old) }
        ensures found { IfOk result
            (λ b. (self.old.left ≡ b.now ++ self.new.left) × (length b.now ≡ n)) }
    {
        if self.left.len() < n {
            return Err(FileFault::Cut(self.at()));
        }
        let (front, rest) = self.left.split_at(n);
        self.left = rest;
        Ok(front)
    }

    pub(crate) fn u8(&mut self) -> Result<u8, FileFault>
        ensures read { ReaderGives (λ n. (n, self.new)) result (number_next 1 self.old) }
        ensures found { IfOk result (λ n. self.old.left ≡ n ∷ self.new.left) }
    {
        Ok(self.take(1)?[0])
    }

    pub(crate) fn u16(&mut self) -> Result<u16, FileFault>
        ensures read { ReaderGives (λ n. (n, self.new)) result (number_next 2 self.old) }
        ensures found { IfOk result (λ n. self.old.left ≡ big_bytes 2 n ++ self.new.left) }
    {
        Ok(u16_of(self.take(2)?))
    }

    pub(crate) fn u32(&mut self) -> Result<u32, FileFault>
        ensures read { ReaderGives (λ n. (n, self.new)) result (number_next 4 self.old) }
        ensures found { IfOk result (λ n. self.old.left ≡ big_bytes 4 n ++ self.new.left) }
    {
        Ok(u32_of(self.take(4)?))
    }

    // Reads a signed 4-byte number.
    #[tactic(auto, using(crate::proofs::Numbers::signed_back))]
    pub(crate) fn i32(&mut self) -> Result<i32, FileFault>
        ensures read { ReaderGives (λ n. (n, self.new)) result (signed_at self.old) }
        ensures found { IfOk result
            (λ n. (self.old.left ≡ signed_bytes n ++ self.new.left) × FitsSigned w32 n) }
    {
        Ok(self.u32()?.cast_signed())
    }

    // Reads a 1-byte number that is at most `most`.
    #[tactic(auto, unfolding(crate::specs::Reading::limited_at))]
    pub(crate) fn u8_to(&mut self, most: u8) -> Result<u8, FileFault>
        ensures read { ReaderGives (λ n. (n, self.new)) result (limited_at 1 most self.old) }
        ensures found { IfOk result (λ n. (self.old.left ≡ n ∷ self.new.left) × (n ≤ most)) }
    {
        let number = self.u8()?;
        if number > most {
            return Err(FileFault::Limit);
        }
        Ok(number)
    }

    // Reads a 2-byte number that is at most `most`.
    #[tactic(auto, unfolding(crate::specs::Reading::limited_at))]
    pub(crate) fn u16_to(&mut self, most: u16) -> Result<u16, FileFault>
        ensures read { ReaderGives (λ n. (n, self.new)) result (limited_at 2 most self.old) }
        ensures found { IfOk result
            (λ n. (self.old.left ≡ big_bytes 2 n ++ self.new.left) × (n ≤ most)) }
    {
        let number = self.u16()?;
        if number > most {
            return Err(FileFault::Limit);
        }
        Ok(number)
    }
}

// Returns the number of two bytes.
fn u16_of(bytes: &[u8]) -> u16
    requires { length bytes.now ≡ 2 }
    ensures number { result ≡ big_number 2 bytes.now }
    ensures spelled { bytes.now ≡ big_bytes 2 result }
{
    BigEndian::read_u16(bytes)
}

// Returns the number of four bytes.
fn u32_of(bytes: &[u8]) -> u32
    requires { length bytes.now ≡ 4 }
    ensures number { result ≡ big_number 4 bytes.now }
    ensures spelled { bytes.now ≡ big_bytes 4 result }
{
    BigEndian::read_u32(bytes)
}
