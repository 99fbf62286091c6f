ghost use Rattle.std.specs.Prelude.{None, false};

use crate::Names;
use lower_model::{Items, Kind};
use lower_tree::{LowerError, LowerName, LowerNames};
use name_tag70::PlainNames;
use plain_tree::{Name, Path, Renaming, TreeCall, TreeRefusal, TreeReply};
use std::alloc::Global;
use std::process::Abort;
use std::test::*;
use turn_lock::Link;

// A store that holds nothing, doesn't tell so, and never fails.
#[derive(Drop)]
struct Silent;

impl LowerNames for Silent {
    ghost held = { λ silent. record { told = false; entries = λ k. None; faults = 0 } };

    fn faults(&self) -> u64 {
        0
    }

    fn list(&mut self, alloc: Global, _dir: u32) -> Result<Items<LowerName>, LowerError> {
        Ok(Items::new(alloc))
    }

    fn create(
        &mut self,
        _alloc: Global,
        _dir: u32,
        _name: &[u8],
        _kind: Kind,
        _node: u32,
    ) -> Result<(), LowerError> {
        Ok(())
    }

    fn remove(&mut self, _alloc: Global, _dir: u32, _name: &[u8]) -> Result<(), LowerError> {
        Ok(())
    }

    fn rename(
        &mut self,
        _alloc: Global,
        _dir: u32,
        _name: &[u8],
        _to_dir: u32,
        _to_name: &[u8],
    ) -> Result<(), LowerError> {
        Ok(())
    }
}

/// The path that is written so, each name behind a slash.
fn path(alloc: Global, text: &[u8]) -> Result<Path, Fail> {
    let mut path = Path::with_room(alloc, text.len())?;
    for part in text.split(|c| *c == b'/') {
        if !part.is_empty() {
            let name = Name::new(Vec::from_slice(alloc, part)?)
                .ok()
                .ok_or("no name")?;
            path.push(&name)?;
        }
    }
    Ok(path)
}

#[test]
fn makes_moves_and_removes(rt: HostRuntime) -> Result<(), Fail> {
    let alloc = rt.alloc();
    let mut names = match Names::new(alloc, Silent, PlainNames) {
        Ok(names) => names,
        Err(_) => return Err("no names".into()),
    };
    let made = names.step(
        alloc,
        Link::new(alloc)?,
        0,
        0,
        TreeCall::Mkdir(path(alloc, b"/a")?),
    );
    assert!(rt; matches!(made, TreeReply::Done));
    let again = names.step(
        alloc,
        Link::new(alloc)?,
        1,
        0,
        TreeCall::Mkdir(path(alloc, b"/a")?),
    );
    assert!(rt; matches!(again, TreeReply::Refused(TreeRefusal::Exists)));
    let file = names.step(
        alloc,
        Link::new(alloc)?,
        0,
        1,
        TreeCall::Create(path(alloc, b"/a/f")?),
    );
    assert!(rt; matches!(file, TreeReply::Node(2)));
    let moved = names.step(
        alloc,
        Link::new(alloc)?,
        0,
        2,
        TreeCall::Rename(Renaming::between(path(alloc, b"/a/f")?, &path(alloc, b"/g")?)?),
    );
    assert!(rt; matches!(moved, TreeReply::Done));
    let gone = names.step(
        alloc,
        Link::new(alloc)?,
        0,
        3,
        TreeCall::Rmdir(path(alloc, b"/a")?),
    );
    assert!(rt; matches!(gone, TreeReply::Done));
    let (_, _, log) = names.end();
    assert_eq!(rt; log.len(), 5);
    Ok(())
}
