ghost use Rattle.std.specs.Prelude.{◌≡◌, ℕ, Bool};
ghost use Rattle.std.specs.List.{list_any};
ghost use Rattle.abc_link_names.specs.ItemTypes.{any_type as any_of, own_type_fails as own_fails, slot_type_fails as slot_fails};

use crate::items::{Item, ItemKind};
use crate::parts::{handlers, instance_table, own_table, parameters, return_type};
use abc_file_types::{Abc, TraitBody, TraitInfo};

/// A test of the name of a type.
pub trait TypeTest {
    ghost use Rattle.std.specs.Prelude.{ℕ, Bool};

    ghost fails: { Self → ℕ → Bool };

    fn fails(&self, name: u32) -> bool
        ensures { result ≡ fails self.now name };
}

/// Whether the type of a slot fails a test.
fn slot_type_fails<T: TypeTest>(test: &T, body: TraitBody) -> bool
    ensures { result ≡ slot_fails (T.fails test.now) body }
{
    match body {
        TraitBody::Slot { ty, .. } => test.fails(ty),
        _ => false,
    }
}

/// Whether the type of a slot of a table fails a test.
fn any_slot_type<T: TypeTest>(test: &T, table: &[TraitInfo]) -> bool
    ensures { result ≡ list_any (λ t. slot_fails (T.fails test.now) t.body) table.now }
{
    for info in table {
        if slot_type_fails(test, info.body) {
            return true;
        }
    }
    false
}

/// Whether one of several types fails a test.
fn any_name<T: TypeTest>(test: &T, names: &[u32]) -> bool
    ensures { result ≡ list_any (T.fails test.now) names.now }
{
    for name in names {
        if test.fails(*name) {
            return true;
        }
    }
    false
}

/// Whether the type of an exception of a body fails a test.
fn any_handler_type<T: TypeTest>(test: &T, abc: &Abc, body: u32) -> bool
    ensures { result ≡ own_fails (T.fails test.now) abc.now ItemKind.Body body }
{
    for handler in handlers(abc, body) {
        if test.fails(handler.exc_type) {
            return true;
        }
    }
    false
}

/// Whether a type of a method, or of an exception of a body, fails a test.
fn own_type_fails<T: TypeTest>(test: &T, abc: &Abc, item: Item) -> bool
    ensures { result ≡ own_fails (T.fails test.now) abc.now item.kind item.index }
{
    match item.kind {
        ItemKind::Method => {
            test.fails(return_type(abc, item.index)) || any_name(test, parameters(abc, item.index))
        }
        ItemKind::Body => any_handler_type(test, abc, item.index),
        _ => false,
    }
}

/// Whether a type of an item fails a test.
pub fn any_type<T: TypeTest>(test: &T, abc: &Abc, item: Item) -> bool
    ensures { result ≡ any_of (T.fails test.now) abc.now item.kind item.index }
{
    own_type_fails(test, abc, item)
        || any_slot_type(test, instance_table(abc, item))
        || any_slot_type(test, own_table(abc, item))
}
