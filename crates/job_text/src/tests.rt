use crate::{Job, JobError, MetaPlace, NameCoding, read_job};
use lower_model::Kind;
use script_model::Op;
use std::alloc::{AllocError, Global};
use std::test::Fail;

const HEAD: &[u8] =
    b"ecryptfs-job 1\npassphrase 74657374\nsalt 0011223344556677\nnamesalt 8899aabbccddeeff\nnames plain\nmeta attribute\nrandom 00000000000000000000000000000000000000000000000000000000000000ff\n";

const IMAGE: &[u8] = b"image 25\nECRYIMG1\0\0\0\x01\0\x01\x01\x01f\0\0\0\0\x03abc\n";

const WORK: &[u8] = b"sessions 1\nscript 3\nmkdir /a\nlist /\nsync 15\nschedule 0 0\nend\n";

fn job_of(alloc: Global, parts: [&[u8]; 3]) -> Result<Result<Job, JobError>, AllocError> {
    let mut text = Vec::new(alloc);
    for part in parts {
        text.extend_from_slice(part)?;
    }
    Ok(read_job(alloc, &text))
}

#[test]
fn reads_a_job(rt: HostRuntime) -> Result<(), Fail> {
    let job = job_of(rt.alloc(), [HEAD, IMAGE, WORK])??;
    assert_eq!(rt; job.passphrase.as_slice(), b"test".as_slice());
    assert_eq!(rt; job.salt, [0, 17, 34, 51, 68, 85, 102, 119]);
    assert_eq!(rt; job.namesalt[0], 0x88);
    assert_eq!(rt; job.names, NameCoding::Plain);
    assert_eq!(rt; job.meta_place, MetaPlace::Attribute);
    assert_eq!(rt; job.random[31], 255);
    assert_eq!(rt; job.image.nodes().len(), 2);
    assert_eq!(rt; job.image.nodes()[1].kind, Kind::File);
    assert_eq!(rt; job.schedule.as_slice(), [0, 0].as_slice());
    assert_eq!(rt; job.scripts.len(), 1);
    let script = job.scripts.as_slice()[0].as_slice();
    assert_eq!(rt; script.len(), 3);
    assert!(rt; matches!(&script[0], Op::Mkdir(_)));
    assert!(rt; matches!(&script[1], Op::List(_)));
    assert!(rt; matches!(&script[2], Op::Sync(15)));
    Ok(())
}

#[test]
fn tells_where_a_job_is_bad(rt: HostRuntime) -> Result<(), Fail> {
    let long = b"image 99999999999999999999\nECRYIMG1\0\0\0\0\n".as_slice();
    let bad_operation = b"sessions 1\nscript 1\nsync 16\nschedule\nend\n".as_slice();
    let two = b"sessions 2\nscript 0\nscript 1\nsync 15\nschedule 1 0 1\nend\n".as_slice();
    for (parts, place) in [
        ([b"ecryptfs-job 2\n".as_slice(), IMAGE, WORK], Some(0)),
        ([b"ecryptfs-job 1\n".as_slice(), b"", b""], Some(15)),
        ([HEAD, long, WORK], Some(HEAD.len() + 27)),
        (
            [HEAD, IMAGE, bad_operation],
            Some(HEAD.len() + IMAGE.len() + 20),
        ),
        ([HEAD, IMAGE, two], None),
    ] {
        let answer = job_of(rt.alloc(), parts)?;
        assert_eq!(rt; answer.err(), place.map(|place| JobError::Bad { place }));
    }
    Ok(())
}
