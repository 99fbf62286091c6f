ghost use Rattle.std.specs.Prelude.{IfOk};
ghost use Rattle.std.specs.List.{AllByRecursion};
ghost use Rattle.name_form.specs.FormOf.{form_of};
ghost use Rattle.lower_model.specs.LowerTree.{IsLowerTree};
ghost use Rattle.tree_model.specs.Listing.{ListsTree};
ghost use Rattle.names_model.specs.ShownBy.{shown_of};
ghost use Rattle.mount_run.specs.ShowLines.{IsNumber};

use lower_mem::MemNames;
use lower_model::LowerTree;
use name_form::NameForm;
use namespace::Names;
use std::alloc::{AllocError, Global};
use tree_listing::listing;
use tree_model::Listed;

/// The listing of the tree that a lower tree shows under a form of names. It is opened over names in memory, so that no lower part is used.
pub fn image_listing<U: NameForm + Drop>(
    alloc: Global,
    image: &LowerTree,
    form: U,
) -> Result<Vec<Listed>, AllocError>
    requires lawful { IsLowerTree image.now }
    ensures lists { IfOk result (λ items. ListsTree (shown_of (form_of (U.upper form) (U.written form) (U.longest form)) image.now).places items.items) }
    ensures numbers { IfOk result (λ items. AllByRecursion (IsNumber image.now) items.items) }
{
    let names = MemNames::of(alloc, image)?;
    match Names::new(alloc, names, form) {
        Ok(names) => listing(alloc, names.places()),
        // No call on these names is made to fail.
        Err(_) => Err(AllocError),
    }
}
