ghost use Rattle.std.specs.Prelude.{◌≡◌, ◌<◌, ℕ, Some, List, map, length, IfSome, IfOk, OnOk, if◌then◌else◌};
ghost use Rattle.alf_program.specs.Tree.{item_of};
ghost use Rattle.alf_program.specs.declared.program.Item.{Item};
ghost use Rattle.alf_program.specs.contracts.program.Expr as e;
ghost use Rattle.std.specs.Coded.{codes};
ghost use Rattle.alf_faults.specs.Places.{is_label_named, label_place};
ghost use Rattle.alf_faults.specs.Table.{found, IsTableOf};

use alf_program::Item;
use indexmap::IndexMap;
use std::alloc::{AllocError, Global};
use std::marker::Model;

/// The items of a function with a table of their labels, seen as the items.
#[derive(Drop)]
pub struct Labels<'a> {
    items: &'a [Item],
    table: IndexMap<&'a [u8], usize>,
}

impl<'a> Model for Labels<'a> {
    ghost Value = { List Item };

    ghost coded = { Prim.hlevel (codes, e.the_row.coded) };

    ghost view = { λ labels. labels.items.now };

    ghost invariant = { λ labels. IsTableOf (map item_of labels.items.now) labels.table };
}

impl<'a> Labels<'a> {
    /// The table of these items.
    pub fn new(alloc: Global, items: &'a [Item]) -> Result<Self, AllocError>
        ensures { IfOk result (λ labels. labels ≡ items.now) }
    {
        let table = table_of(alloc, items)?;
        Ok(Labels { items, table })
    }

    /// The items.
    pub fn items(&self) -> &'a [Item]
        ensures { result.now ≡ self.now }
    {
        self.items
    }

    /// The place of the first item that is the label of this name. Takes no memory.
    pub fn find(&self, name: &[u8]) -> Option<usize>
        ensures first { result ≡ label_place (map item_of self.now) name.now }
        ensures within { IfSome result (λ place. place < length self.now) }
    {
        self.table.get(name).copied()
    }
}

// The table of the places of the labels.
fn table_of(alloc: Global, items: &[Item]) -> Result<IndexMap<&[u8], usize>, AllocError>
    ensures { IfOk result (λ table. IsTableOf (map item_of items.now) table) }
{
    let mut table = IndexMap::new(alloc);
    // From the last item on, so that of equal labels the first one stays.
    for place in (0..items.len()).rev() {
        note(&mut table, &items[place], place)?;
    }
    Ok(table)
}

// Notes the place under the item's name, if it is a label.
fn note<'a>(
    table: &mut IndexMap<&'a [u8], usize>,
    item: &'a Item,
    place: usize,
) -> Result<(), AllocError>
    ensures { OnOk result
        ((name : List ℕ)
        → found table.new name
        ≡ (if is_label_named name (item_of item.now) then Some place else found table.old name)) }
{
    match item {
        Item::Label(label) => {
            table.insert(label.bytes(), place)?;
        }
        Item::Stmt(_) => {}
    }
    Ok(())
}
