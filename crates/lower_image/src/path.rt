ghost use Rattle.std.specs.Prelude.{◌≡◌, IfOk, OnOk};
ghost use Rattle.lower_model.specs.LowerTree.{root_path, path_behind};

use lower_tree::{Items, Kind, LowerNode, OpenDir};
use std::alloc::{AllocError, Global};

/// The open directories before the first entry: the root alone.
pub fn path_of_root(alloc: Global) -> Result<Vec<OpenDir>, AllocError>
    ensures { IfOk result (λ path. path.items ≡ root_path) }
{
    let mut path = Vec::new(alloc);
    path.push(OpenDir {
        node: 0,
        last: Items::new(alloc),
    })?;
    Ok(path)
}

/// The open directories behind an entry.
pub fn go_behind(
    alloc: Global,
    path: &mut Vec<OpenDir>,
    level: usize,
    number: u32,
    node: &LowerNode,
) -> Result<(), AllocError>
    ensures { OnOk result (path.new.items ≡ path_behind path.old.items level number node.now) }
{
    path.truncate(level);
    path.push(OpenDir {
        node: node.parent,
        last: Items::from_slice(alloc, node.name.as_slice())?,
    })?;
    if let Kind::Dir = node.kind {
        path.push(OpenDir {
            node: number,
            last: Items::new(alloc),
        })?;
    }
    Ok(())
}
