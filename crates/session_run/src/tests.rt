ghost use Rattle.std.specs.Prelude.{◌≡◌, ℕ};
ghost use Rattle.session_model.specs.Session.{IsFresh};
ghost use Rattle.file_model.specs.FileLog.{entries_in};

use crate::{FilePart, RunningSession, TreePart};
use lower_inode::ReadRoom;
use lower_tree::Items;
use session::{FileCall, FileReply, Op, Reply, Script, Session, TreeCall, TreeReply};
use session_model::{FileEntry, TreeEntry};
use std::alloc::{AllocError, Global};
use std::test::Fail;
use tree_model::{Path, Renaming};
use turn_lock::{Chain, Link};

// A tree whose every call is done, but for want of memory before one of them. A path leads to the
// node with the number of the call.
#[derive(Drop)]
struct DoneTree {
    log: Vec<TreeEntry>,
    calls: u32,
    lacks_at: u32,
}

// The reply to a call, for the log and for the session.
fn answers(call: &TreeCall, node: u32) -> (TreeReply, TreeReply)
    ensures { result.0 ≡ result.1 }
{
    match call {
        TreeCall::Create(_) | TreeCall::Resolve(_) => {
            (TreeReply::Node(node), TreeReply::Node(node))
        }
        _ => (TreeReply::Done, TreeReply::Done),
    }
}

impl TreePart for DoneTree {
    ghost log = { λ t. t.log.items };

    ghost lawful = { λ opening t. t.lacks_at ≡ opening.lacks_at };

    fn call(
        &mut self,
        alloc: Global,
        session: u32,
        op: u32,
        call: TreeCall,
    ) -> Result<TreeReply, AllocError> {
        let _ = alloc;
        self.calls = self.calls.saturating_add(1);
        if self.calls == self.lacks_at {
            return Err(AllocError);
        }
        let (logged, reply) = answers(&call, self.calls);
        self.log.push(TreeEntry {
            session,
            op,
            call,
            reply: logged,
            before: 0,
            after: 0,
        })?;
        Ok(reply)
    }
}

// Files whose every call is done, but for a write-out, which fails. Their shards' logs stand in one.
#[derive(Drop)]
struct DoneFiles {
    log: Chain<FileEntry>,
}

// The same of a call on a file.
fn file_answers(call: &FileCall) -> (FileReply, FileReply)
    ensures { result.0 ≡ result.1 }
{
    match call {
        FileCall::Sync(_) => (FileReply::LowerFault, FileReply::LowerFault),
        _ => (FileReply::Done, FileReply::Done),
    }
}

impl FilePart for DoneFiles {
    ghost logs = { λ f shard. entries_in shard f.log };

    ghost lawful = { λ opening f. Unit {0} };

    fn call(
        &mut self,
        alloc: Global,
        link: Link<FileEntry>,
        room: ReadRoom,
        session: u32,
        op: u32,
        node: u32,
        call: FileCall,
    ) -> FileReply {
        let _ = (alloc, room);
        let (logged, reply) = file_answers(&call);
        self.log.push(
            link,
            FileEntry {
                session,
                op,
                node,
                call,
                reply: logged,
                before: 0,
                after: 0,
            },
        );
        reply
    }
}

// Makes all moves of a session.
fn run(alloc: Global, tree: &mut DoneTree, files: &mut DoneFiles, session: Session) -> Session
    requires { IsFresh session }
{
    let mut running = RunningSession::new(session);
    'moves: while running.make_move(alloc, tree, files) {}
    running.into_session()
}

#[test]
fn logs_each_call_but_one_without_memory(rt: HostRuntime) -> Result<(), Fail> {
    let alloc = rt.alloc();
    let ops = vec![in alloc;
        Op::Mkdir(Path::root(alloc)),
        Op::Stat(Path::root(alloc)),
        Op::Rename(Renaming::between(Path::root(alloc), &Path::root(alloc))?),
    ]?;
    let mut tree = DoneTree {
        log: Vec::new(alloc),
        calls: 0,
        lacks_at: 2,
    };
    let mut files = DoneFiles { log: Chain::new() };
    let session = Session::new(alloc, 3, Script::new(ops))?;
    let session = run(alloc, &mut tree, &mut files, session);
    assert!(rt;
        matches!(
            session.replies(),
            [
                Reply::Tree(TreeReply::Done),
                Reply::Memory,
                Reply::Tree(TreeReply::Done)
            ]
        )
    );
    assert_eq!(rt; tree.log.len(), 2);
    assert_eq!(rt; (tree.log[0].session, tree.log[0].op), (3, 0));
    assert_eq!(rt; (tree.log[1].session, tree.log[1].op), (3, 2));
    Ok(())
}

// Slot 4 is opened twice, and called once it is closed; slots 9 and 0 are open at the end.
fn file_script(alloc: Global) -> Result<Script, AllocError> {
    let octets = Items::from_vec(vec![in alloc; 7]?);
    let ops = vec![in alloc;
        Op::Create(4, Path::root(alloc)),
        Op::Open(4, Path::root(alloc)),
        Op::Open(9, Path::root(alloc)),
        Op::Write(4, 5, octets),
        Op::Read(9, 5, 1),
        Op::Sync(4),
        Op::Close(4),
        Op::Size(4),
        Op::Open(0, Path::root(alloc)),
    ]?;
    Ok(Script::new(ops))
}

fn replies_text(alloc: Global, replies: &[Reply]) -> Result<String, Fail> {
    let mut text = String::new(alloc);
    for reply in replies {
        write!(text, "{reply:?}\n")?;
    }
    Ok(text)
}

fn calls_text(alloc: Global, log: &Chain<FileEntry>) -> Result<String, Fail> {
    let mut text = String::new(alloc);
    for entry in log.entries(alloc)? {
        write!(
            text,
            "{}.{} {:?} {}\n",
            entry.session, entry.op, entry.call, entry.node
        )?;
    }
    Ok(text)
}

#[test]
fn opens_calls_and_closes_files(rt: HostRuntime) -> Result<(), Fail> {
    let alloc = rt.alloc();
    let mut tree = DoneTree {
        log: Vec::new(alloc),
        calls: 0,
        lacks_at: 0,
    };
    let mut files = DoneFiles { log: Chain::new() };
    let session = Session::new(alloc, 2, file_script(alloc)?)?;
    let session = run(alloc, &mut tree, &mut files, session);
    let replies = replies_text(alloc, session.replies())?;
    assert_eq!(rt;
        replies.as_str(),
        "Opened(1)\nSlot\nOpened(2)\nFile(Done)\nFile(Done)\nFile(LowerFault)\nFile(Done)\nHandle\nOpened(3)\nFile(Done)\nFile(Done)\n"
    );
    let calls = calls_text(alloc, &files.log)?;
    assert_eq!(rt;
        calls.as_str(),
        "2.0 Attach(4) 1\n2.2 Attach(9) 2\n2.3 Write(4, 5, Items { vec: [7] }) 1\n2.4 Read(9, 5, 1) 2\n2.5 Sync(4) 1\n2.6 Detach(4) 1\n2.8 Attach(0) 3\n2.9 Detach(0) 3\n2.10 Detach(9) 2\n"
    );
    Ok(())
}
