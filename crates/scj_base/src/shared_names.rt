//! Names that several owners share.

ghost use Rattle.std.specs.Prelude.{◌≡◌, ◌≤◌, ◌<◌, [], IfOk, IfSome, length};

use crate::errors::Memory;
use crate::words::Name;
use std::alloc::Global;
use std::marker::Model;
use std::rc::Rc;

/// How many names a table remembers at once.
const SLOTS: usize = 4096;

/// A name of at most 64 bytes that several owners share. It takes the room of a pointer in each of them, and a contract
/// sees its bytes.
#[derive(Debug, Drop)]
pub struct SharedName {
    inner: Rc<Name>,
}

impl Model for SharedName {
    ghost use Rattle.std.specs.Prelude.{List, ℕ};

    ghost Value = { List ℕ };

    ghost view = { λ a. a.inner.value };
}

impl SharedName {
    /// A name that nobody shares yet.
    pub fn new(alloc: Global, name: &Name) -> Result<SharedName, Memory>
        ensures { IfOk result (λ shared. shared ≡ name.now) }
    {
        let inner = Rc::new(alloc, *name)?;
        Ok(SharedName { inner })
    }

    /// The name for one owner more.
    pub fn share(&self) -> Result<SharedName, Memory>
        ensures { IfOk result (λ shared. shared ≡ self.now) }
    {
        let inner = self.inner.clone()?;
        Ok(SharedName { inner })
    }

    /// The name itself.
    pub fn get(&self) -> &Name
        ensures { result.now ≡ self.now }
    {
        &*self.inner
    }

    /// The bytes of the name.
    pub fn bytes(&self) -> &[u8]
        ensures value { result.now ≡ self.now }
        ensures short { length self.now ≤ 64 }
    {
        self.get().bytes()
    }
}

/// Names that were asked lately, so that those who ask again share them.
///
/// A name is remembered in a slot that its bytes choose, until another name takes the slot. So most names of a file are
/// kept once; nothing rests on that, since names are compared by their bytes.
#[derive(Drop)]
pub struct NameTable {
    alloc: Global,
    slots: Vec<SharedName>,
}

/// The slot of a name.
fn slot_of(bytes: &[u8]) -> usize
    ensures { result < 4096 }
{
    let mut slot: usize = 0;
    for byte in bytes {
        slot = (slot * 31 + *byte as usize) % SLOTS;
    }
    slot
}

impl NameTable {
    /// No names.
    pub fn new(alloc: Global) -> NameTable {
        NameTable {
            alloc,
            slots: Vec::new(alloc),
        }
    }

    /// Gives each slot the name without a byte.
    fn open(&mut self) -> Result<(), Memory> {
        let empty = SharedName::new(self.alloc, &Name::new(b""))?;
        for _slot in 0..SLOTS {
            self.slots.push(empty.share()?)?;
        }
        Ok(())
    }

    /// The name of these bytes in its slot, if it is there.
    fn remembered(&self, slot: usize, bytes: &[u8]) -> Result<Option<SharedName>, Memory>
        ensures { IfOk result (λ found. IfSome found (λ shared. shared ≡ bytes.now)) }
    {
        match self.slots.get(slot) {
            Some(name) => {
                if name.bytes() == bytes {
                    Ok(Some(name.share()?))
                } else {
                    Ok(None)
                }
            }
            None => Ok(None),
        }
    }

    /// The name of these bytes.
    pub fn share(&mut self, bytes: &[u8]) -> Result<SharedName, Memory>
        requires { length bytes.now ≤ 64 }
        ensures { IfOk result (λ shared. shared ≡ bytes.now) }
    {
        let slot = slot_of(bytes);
        if let Some(name) = self.remembered(slot, bytes)? {
            return Ok(name);
        }
        if self.slots.is_empty() {
            self.open()?;
        }
        let name = SharedName::new(self.alloc, &Name::new(bytes))?;
        if slot < self.slots.len() {
            self.slots[slot] = name.share()?;
        }
        Ok(name)
    }
}
