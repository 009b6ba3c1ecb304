// A value on the heap, so that what contains it is small where it is moved.
ghost use Rattle.std.specs.Prelude.{◌≡◌, IfOk};

use std::alloc::Global;
use std::marker::Model;
use support::NoMemory;

/// A `Box` that contracts see as its content, so that two with the same content are equal.
#[derive(Drop)]
pub struct Boxed<T> {
    content: Box<T>,
}

impl<T> Model for Boxed<T> {
    ghost Value = { T };

    ghost view = { λ b. b.content.value };
}

impl<T> Boxed<T> {
    /// The value in memory of its own.
    pub fn new(alloc: Global, value: T) -> Result<Self, NoMemory>
    where
        T: Drop,
        ensures { IfOk result (λ b. b ≡ value) }
    {
        match Box::new(alloc, value) {
            Ok(content) => Ok(Boxed { content }),
            Err(_) => Err(NoMemory),
        }
    }

    /// The content.
    pub fn get(&self) -> &T
        ensures { result.now ≡ self.now }
    {
        self.content.as_ref()
    }

    /// The content, out of its memory.
    pub fn into_inner(self) -> T
        ensures { result ≡ self }
    {
        let Boxed { content } = self;
        Box::into_inner(content)
    }
}
