//! The connections of a script by their numbers.
ghost use Rattle.std.specs.Prelude.{◌≡◌, ◌+◌, [], OnOk};
ghost use Rattle.xa_talk.specs.Numbers.{connection_at, free_index, index_of, with_at, with_new};

use crate::dial::Connection;
use std::alloc::{AllocError, Global};

/// The connections of a script. The first number is 1, and each connection gets the least that is free.
#[derive(Debug, Drop)]
pub struct Connections<R, W> {
    pub numbered: Vec<Option<Connection<R, W>>>,
}

/// The index of a number.
pub fn index_of(number: u64) -> Option<usize>
    ensures { result ≡ index_of number }
{
    if number == 0 {
        None
    } else {
        Some((number - 1) as usize)
    }
}

impl<R: Drop, W: Drop> Connections<R, W> {
    /// No connection.
    pub fn new(alloc: Global) -> Connections<R, W>
        ensures { result.numbered.items ≡ [] }
    {
        Connections {
            numbered: Vec::new(alloc),
        }
    }

    /// The least free index, counted from 0.
    pub fn free_index(&self) -> usize
        ensures { result ≡ free_index self.now.numbered.items }
    {
        let mut free = 0;
        let mut rest = self.numbered.as_slice();
        while let Some((index, others)) = rest.split_first() {
            if index.is_none() {
                return free;
            }
            free += 1;
            rest = others;
        }
        free
    }

    /// A connection more, at the least free index.
    pub fn add(&mut self, connection: Connection<R, W>) -> Result<(), AllocError>
        ensures { OnOk result (self.new.numbered.items ≡ with_new connection self.old.numbered.items) }
    {
        let index = self.free_index();
        if index < self.numbered.len() {
            self.numbered[index] = Some(connection);
        } else {
            self.numbered.push(Some(connection))?;
        }
        Ok(())
    }

    /// The connection of a number, if there is one, which has it no more.
    pub fn take(&mut self, number: u64) -> Option<Connection<R, W>>
        ensures gone { self.new.numbered.items ≡ with_at (index_of number) None self.old.numbered.items }
        ensures taken { result ≡ connection_at number self.old.numbered.items }
    {
        match index_of(number) {
            Some(index) if index < self.numbered.len() => self.numbered[index].take(),
            _ => None,
        }
    }
}
