//! What a message has to bring over.
ghost use Rattle.std.specs.Prelude.{◌≡◌, ◌+◌, ◌++◌, ◌-◌, ◌<◌, ◌^◌, ◌==◌, List, ℕ};
ghost use Rattle.std.specs.Prelude.{length, replicate, IfOk, IfErr};

use bytes::Bytes;
use fairness::error::Error;
use std::alloc::{AllocError, Global};
use std::marker::Model;

/// Bytes that were given, and zero bytes behind them, which take no memory however many they are.
pub struct Contents {
    given: Bytes,
    zeros: usize,
}

impl Drop for Contents {
    /// Lets go of what it holds.
    #[inline(always)]
    fn drop(self) {
        let Contents { given, zeros: _ } = self;
        drop(given);
    }
}

impl Model for Contents {
    ghost Value = { List ℕ };

    ghost view = { λ c. c.given ++ replicate c.zeros 0 };

    ghost invariant = { λ c. length c.given + c.zeros < 2 ^ 64 };
}

impl Contents {
    /// So many zero bytes.
    pub fn zeros(length: usize) -> Contents
        ensures { result ≡ replicate length 0 }
    {
        Contents {
            given: Bytes::new(),
            zeros: length,
        }
    }

    /// The bytes, and zero bytes behind them where they are fewer than `wanted`.
    pub fn padded(given: Bytes, wanted: usize) -> Contents
        ensures { result ≡ given ++ replicate (wanted - length given) 0 }
    {
        let zeros = wanted.saturating_sub(given.len());
        Contents { given, zeros }
    }

    /// How many bytes they are.
    pub fn len(&self) -> usize
        ensures value { result ≡ length self.now }
        ensures bound { result < 2 ^ 64 }
    {
        self.given.len() + self.zeros
    }

    /// Whether there are none.
    pub fn is_empty(&self) -> bool
        ensures { result ≡ (length self.now == 0) }
    {
        self.len() == 0
    }

    /// The bytes that were given. All behind them are zero.
    pub fn given(&self) -> &[u8]
        ensures { self.now ≡ result.now ++ replicate (length self.now - length result.now) 0 }
    {
        self.given.as_slice()
    }

    /// The same, which shares the bytes that were given.
    pub fn share(&self) -> Result<Contents, AllocError>
        ensures same { IfOk result (λ copy. copy ≡ self.now) }
    {
        Ok(Contents {
            given: self.given.slice(..)?,
            zeros: self.zeros,
        })
    }

    /// All of them as bytes: those that were given, if there are no others, and else a copy.
    fn to_bytes(&self, alloc: Global) -> Result<Bytes, Error>
        ensures same { IfOk result (λ bytes. bytes ≡ self.now) }
        ensures refused { IfErr result (λ e. e ≡ Error.OutOfMemory) }
    {
        let bytes = if self.zeros == 0 {
            self.given.slice(..)
        } else {
            self.copied(alloc)
        };
        Ok(bytes?)
    }

    /// A copy of all of them.
    fn copied(&self, alloc: Global) -> Result<Bytes, AllocError>
        ensures { IfOk result (λ bytes. bytes ≡ self.now) }
    {
        let mut bytes = Vec::from_slice(alloc, self.given.as_slice())?;
        bytes.resize(self.len(), 0)?;
        Ok(Bytes::from_vec(bytes)?)
    }
}

/// What a scheduler takes of a message, and gives back with its completion.
///
/// Where nothing else is said these are `Bytes`. `Contents` may also be zero bytes that take no memory.
pub trait Payload: Sized + Drop {
    /// The bytes that it stands for.
    ghost bytes: { Self → List ℕ };

    /// What the message has to bring over.
    fn into_contents(self) -> Contents
        ensures { result ≡ bytes self };

    /// What is given back of a message with these bytes.
    ///
    /// Its only error is `OutOfMemory`.
    fn of_contents(alloc: Global, contents: &Contents) -> Result<Self, Error>
        ensures same { IfOk result (λ payload. bytes payload ≡ contents.now) }
        ensures refused { IfErr result (λ e. e ≡ Error.OutOfMemory) };
}

impl Payload for Bytes {
    ghost bytes = { λ given. given };

    fn into_contents(self) -> Contents {
        Contents {
            given: self,
            zeros: 0,
        }
    }

    fn of_contents(alloc: Global, contents: &Contents) -> Result<Bytes, Error> {
        contents.to_bytes(alloc)
    }
}

impl Payload for Contents {
    ghost bytes = { λ contents. contents };

    fn into_contents(self) -> Contents {
        self
    }

    fn of_contents(_alloc: Global, contents: &Contents) -> Result<Contents, Error> {
        Ok(contents.share()?)
    }
}
