//! Stores that are made of variables, of each name the first.

ghost use Rattle.std.specs.Prelude.{◌≡◌, [], IfOk};
ghost use Rattle.st_exec.specs.Cells.{forms_of};
ghost use Rattle.fb_device_values.specs.Drafts.{Holds, IsLaidOut, IsSetFrom, cells_in, forms_in};

use crate::draft::Draft;
use st_exec::{Layout, Store};
use std::alloc::{AllocError, Global};
use std::rc::Rc;

// The layout of variables, of each name the first.
fn layout_of(alloc: Global, drafts: &[Draft]) -> Result<Layout, AllocError>
    ensures { IfOk result (λ l. IsLaidOut l (forms_in drafts.now)) }
{
    let mut layout = Layout::new(alloc);
    for draft in drafts {
        let _ = layout.declare(alloc, draft.name.as_str(), draft.bounds)?;
    }
    Ok(layout)
}

// Gives each variable its number. The first of a name is the last that is set.
fn set_numbers(drafts: &[Draft], store: &mut Store)
    requires laid { IsLaidOut (forms_of store.old) (forms_in drafts.now) }
    requires zeros { IsSetFrom store.old [] }
    ensures { Holds store.new (cells_in drafts.now) }
{
    for index in (0..drafts.len()).rev() {
        let draft = &drafts[index];
        store.set_all(draft.name.as_str(), draft.number);
    }
}

// A layout that others may have as well: where one of these is like it, that one.
fn shared(
    alloc: Global,
    known: &mut Vec<Rc<Layout>>,
    layout: Layout,
) -> Result<Rc<Layout>, AllocError>
    ensures { IfOk result (λ l. l.value ≡ layout) }
{
    for one in known.iter() {
        if one.is_like(&layout) {
            return one.clone();
        }
    }
    let layout = Rc::new(alloc, layout)?;
    known.push(layout.clone()?)?;
    Ok(layout)
}

/// A store of variables with their numbers, of each name the first. Stores whose variables are the same share their layout.
pub(crate) fn store_of(
    alloc: Global,
    known: &mut Vec<Rc<Layout>>,
    drafts: &[Draft],
) -> Result<Store, AllocError>
    ensures { IfOk result (λ s. Holds s (cells_in drafts.now)) }
{
    let own = layout_of(alloc, drafts)?;
    let layout = shared(alloc, known, own)?;
    let mut store = Store::zeros(alloc, layout)?;
    set_numbers(drafts, &mut store);
    Ok(store)
}
