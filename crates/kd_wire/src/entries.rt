use std::marker::Model;

/// A list that owns its memory. In a contract it is the list.
#[derive(Drop)]
pub struct Entries<T> {
    content: Vec<T>,
}

/// A list of bytes.
pub type Bytes = Entries<u8>;

impl<T> Model for Entries<T> {
    ghost use Rattle.std.specs.Prelude.{List};

    ghost Value = { List T };

    ghost view = { λ e. e.content.items };
}

impl<T> Entries<T> {
    ghost use Rattle.std.specs.Prelude.{◌≡◌};

    /// Makes a list of a vector's elements. It keeps the vector and takes no memory.
    pub fn own(content: Vec<T>) -> Entries<T>
        ensures { result ≡ content.items }
    {
        Entries { content }
    }

    /// Returns the elements, borrowed.
    pub fn as_slice(&self) -> &[T]
        ensures { result.now ≡ self.now }
    {
        self.content.as_slice()
    }

    /// Returns the vector itself. Takes no memory.
    pub fn into_vec(self) -> Vec<T>
        ensures { result.items ≡ self }
    {
        let Entries { content } = self;
        content
    }
}
