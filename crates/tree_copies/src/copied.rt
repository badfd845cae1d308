// Trees that are copied, and lists of them.

ghost use Rattle.std.specs.Prelude.{◌≡◌, IfOk};

use station_ports::outside::NoMemory;
use station_ports::texts::Name;
use std::alloc::Global;
use tree_items::{Boxed, Items};

/// A tree that is copied.
pub trait Copied: Drop {
    /// The same tree. NoMemory where there is none for the copy.
    fn copy(&self, alloc: Global) -> Result<Self, NoMemory>
        ensures { IfOk result (λ t. t ≡ self.now) };
}

impl Copied for Name {
    fn copy(&self, alloc: Global) -> Result<Self, NoMemory> {
        Name::of(alloc, self.bytes())
    }
}

impl Copied for usize {
    fn copy(&self, alloc: Global) -> Result<Self, NoMemory> {
        Ok(*self)
    }
}

impl<T: Copied> Copied for Option<T> {
    fn copy(&self, alloc: Global) -> Result<Self, NoMemory> {
        match self {
            None => Ok(None),
            Some(tree) => Ok(Some(tree.copy(alloc)?)),
        }
    }
}

impl<T: Copied> Copied for Boxed<T> {
    fn copy(&self, alloc: Global) -> Result<Self, NoMemory> {
        Ok(Boxed::new(alloc, self.get().copy(alloc)?)?)
    }
}

fn copy_slice<T: Copied>(alloc: Global, trees: &[T]) -> Result<Items<T>, NoMemory>
    ensures { IfOk result (λ t. t ≡ trees.now) }
{
    let mut made = Items::new(alloc);
    for tree in trees {
        made.push(tree.copy(alloc)?)?;
    }
    Ok(made)
}

impl<T: Copied> Copied for Items<T> {
    fn copy(&self, alloc: Global) -> Result<Self, NoMemory> {
        copy_slice(alloc, self.as_slice())
    }
}
