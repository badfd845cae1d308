// Copies of declarations.

ghost use Rattle.std.specs.Prelude.{◌≡◌, IfOk};

use crate::copied::Copied;
use crate::results::{both, boxed, four};
use st_tree::{Decl, FieldInit, Init, Item, Range, Section, Spec, TypeName};
use station_ports::outside::NoMemory;
use std::alloc::Global;
use tree_items::Items;

impl Copied for TypeName {
    fn copy(&self, alloc: Global) -> Result<Self, NoMemory> {
        match self {
            TypeName::Elementary(node, elem) => Ok(TypeName::Elementary(*node, *elem)),
            TypeName::Named(name) => Ok(TypeName::Named(name.copy(alloc)?)),
        }
    }
}

impl Copied for Range {
    fn copy(&self, alloc: Global) -> Result<Self, NoMemory> {
        let (lower, upper) = both(self.lower.copy(alloc), self.upper.copy(alloc))?;
        Ok(Range {
            node: self.node,
            lower,
            upper,
        })
    }
}

#[cycle(spec)]
fn copy_spec(alloc: Global, tree: &Spec) -> Result<Spec, NoMemory>
    ensures { IfOk result (λ t. t ≡ tree.now) }
{
    match tree {
        Spec::Type(node, name, limits) => {
            let (name, limits) = both(name.copy(alloc), limits.copy(alloc))?;
            Ok(Spec::Type(*node, name, limits))
        }
        Spec::Enumeration(node, values) => Ok(Spec::Enumeration(*node, values.copy(alloc)?)),
        Spec::Array(node, ranges, element) => {
            let (ranges, element) = both(
                ranges.copy(alloc),
                boxed(alloc, copy_spec(alloc, element.get())),
            )?;
            Ok(Spec::Array(*node, ranges, element))
        }
    }
}

impl Copied for Spec {
    fn copy(&self, alloc: Global) -> Result<Self, NoMemory> {
        copy_spec(alloc, self)
    }
}

#[cycle(init)]
fn copy_init(alloc: Global, tree: &Init) -> Result<Init, NoMemory>
    ensures { IfOk result (λ t. t ≡ tree.now) }
{
    match tree {
        Init::Value(value) => Ok(Init::Value(value.copy(alloc)?)),
        Init::Array(node, elements) => {
            let elements = copy_items(alloc, elements.as_slice())?;
            Ok(Init::Array(*node, elements))
        }
        Init::Structure(node, fields) => {
            let fields = copy_fields(alloc, fields.as_slice())?;
            Ok(Init::Structure(*node, fields))
        }
    }
}

#[cycle(init)]
fn copy_item(alloc: Global, tree: &Item) -> Result<Item, NoMemory>
    ensures { IfOk result (λ t. t ≡ tree.now) }
{
    match tree {
        Item::One(value) => Ok(Item::One(copy_init(alloc, value)?)),
        Item::Repeated(node, count, value) => {
            let (count, value) = both(count.copy(alloc), copy_init(alloc, value))?;
            Ok(Item::Repeated(*node, count, value))
        }
    }
}

#[cycle(init)]
fn copy_field(alloc: Global, tree: &FieldInit) -> Result<FieldInit, NoMemory>
    ensures { IfOk result (λ t. t ≡ tree.now) }
{
    let (name, value) = both(tree.name.copy(alloc), copy_init(alloc, &tree.value))?;
    Ok(FieldInit {
        node: tree.node,
        name,
        value,
    })
}

#[cycle(init)]
fn copy_items(alloc: Global, trees: &[Item]) -> Result<Items<Item>, NoMemory>
    ensures { IfOk result (λ t. t ≡ trees.now) }
{
    let mut made = Items::new(alloc);
    for tree in trees {
        made.push(copy_item(alloc, tree)?)?;
    }
    Ok(made)
}

#[cycle(init)]
fn copy_fields(alloc: Global, trees: &[FieldInit]) -> Result<Items<FieldInit>, NoMemory>
    ensures { IfOk result (λ t. t ≡ trees.now) }
{
    let mut made = Items::new(alloc);
    for tree in trees {
        made.push(copy_field(alloc, tree)?)?;
    }
    Ok(made)
}

impl Copied for Init {
    fn copy(&self, alloc: Global) -> Result<Self, NoMemory> {
        copy_init(alloc, self)
    }
}

impl Copied for Item {
    fn copy(&self, alloc: Global) -> Result<Self, NoMemory> {
        copy_item(alloc, self)
    }
}

impl Copied for FieldInit {
    fn copy(&self, alloc: Global) -> Result<Self, NoMemory> {
        copy_field(alloc, self)
    }
}

impl Copied for Decl {
    fn copy(&self, alloc: Global) -> Result<Self, NoMemory> {
        let (names, address, spec, init) = four(
            self.names.copy(alloc),
            self.address.copy(alloc),
            self.spec.copy(alloc),
            self.init.copy(alloc),
        )?;
        Ok(Decl {
            node: self.node,
            names,
            address,
            spec,
            init,
        })
    }
}

impl Copied for Section {
    fn copy(&self, alloc: Global) -> Result<Self, NoMemory> {
        let decls = self.decls.copy(alloc)?;
        Ok(Section {
            node: self.node,
            kind: self.kind,
            keep: self.keep,
            decls,
        })
    }
}
