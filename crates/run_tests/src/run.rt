use lower_mem::{MemFails, MemMaker};
use mount_run::{MemSink, MemSource, WRITE_FAULT, run_alone};
use std::alloc::{AllocError, Global};
use std::process::Abort;
use std::test::Fail;

pub const EMPTY_IMAGE: &[u8] = b"ECRYIMG1\x00\x00\x00\x00";

/// Adds a script of these lines to a job.
fn put_script(alloc: Global, octets: &mut Vec<u8>, lines: &[&str]) -> Result<(), AllocError> {
    octets.extend_from_slice(format!(in alloc; "script {}\n", lines.len())?.as_bytes())?;
    for line in lines {
        octets.extend_from_slice(line.as_bytes())?;
        octets.push(b'\n')?;
    }
    Ok(())
}

// The lines of a job up to its image, and the image.
fn settings_and_image(alloc: Global, meta: &str, image: &[u8]) -> Result<Vec<u8>, AllocError> {
    let mut octets = Vec::new(alloc);
    octets.extend_from_slice(b"ecryptfs-job 1\npassphrase 74657374\nsalt 0011223344556677\n")?;
    octets.extend_from_slice(b"namesalt 0011223344556677\nnames plain\nmeta ")?;
    octets.extend_from_slice(meta.as_bytes())?;
    octets.extend_from_slice(b"\nrandom ")?;
    octets.extend_from_slice(&[b'0'; 64])?;
    octets.extend_from_slice(format!(in alloc; "\nimage {}\n", image.len())?.as_bytes())?;
    octets.extend_from_slice(image)?;
    Ok(octets)
}

/// A job on this image, whose sessions have these scripts, whose schedule has these items, and whose new files have their metadata in
/// this place.
pub fn job_of_sessions(
    alloc: Global,
    meta: &str,
    image: &[u8],
    scripts: &[&[&str]],
    schedule: &[u32],
) -> Result<Vec<u8>, AllocError> {
    let mut octets = settings_and_image(alloc, meta, image)?;
    octets.extend_from_slice(format!(in alloc; "\nsessions {}\n", scripts.len())?.as_bytes())?;
    for lines in scripts {
        put_script(alloc, &mut octets, lines)?;
    }
    octets.extend_from_slice(b"schedule")?;
    for session in schedule {
        octets.extend_from_slice(format!(in alloc; " {session}")?.as_bytes())?;
    }
    octets.extend_from_slice(b"\nend\n")?;
    Ok(octets)
}

/// A job of one session with these script lines.
pub fn job_with(
    alloc: Global,
    meta: &str,
    image: &[u8],
    lines: &[&str],
) -> Result<Vec<u8>, AllocError> {
    let mut octets = settings_and_image(alloc, meta, image)?;
    octets.extend_from_slice(b"\nsessions 1\n")?;
    put_script(alloc, &mut octets, lines)?;
    octets.extend_from_slice(b"schedule\nend\n")?;
    Ok(octets)
}

/// The same with metadata at the heads of bodies.
pub fn job(alloc: Global, image: &[u8], lines: &[&str]) -> Result<Vec<u8>, AllocError> {
    job_with(alloc, "header", image, lines)
}

/// Which calls fail, by their numbers from 1.
#[derive(Clone, Copy)]
pub struct Failing<'a> {
    pub reads: &'a [u64],
    pub writes: &'a [u64],
    /// Of the maker: the splits and the unites.
    pub maker: &'a [u64],
    /// On the names that the first split makes.
    pub names: &'a [u64],
    /// On the stores of bodies that it makes, those that change and those that read, each with the number of its store, from 0.
    pub changes: &'a [(u32, u64)],
    pub reads_of_bodies: &'a [(u32, u64)],
}

/// No call fails.
pub const FAULTLESS: Failing = Failing {
    reads: &[],
    writes: &[],
    maker: &[],
    names: &[],
    changes: &[],
    reads_of_bodies: &[],
};

/// A maker whose calls fail so.
pub fn maker(alloc: Global, failing: Failing) -> Result<MemMaker, AllocError> {
    Ok(MemMaker::new(MemFails {
        maker: failing.maker.to_vec(alloc)?,
        names: failing.names.to_vec(alloc)?,
        changes: failing.changes.to_vec(alloc)?,
        reads: failing.reads_of_bodies.to_vec(alloc)?,
    }))
}

/// What a run with these words over a maker answers and writes, where reads and writes fail so.
pub fn run_over(
    alloc: Global,
    maker: &mut MemMaker,
    words: &[&str],
    octets: Vec<u8>,
    failing: Failing,
) -> Result<(u8, Vec<u8>), AllocError> {
    let mut texts = Vec::new(alloc);
    for word in words {
        texts.push(String::from_str(alloc, word)?)?;
    }
    let mut input = MemSource::new(octets, failing.reads.to_vec(alloc)?);
    let mut output = MemSink::new(failing.writes.to_vec(alloc)?);
    let status = run_alone(alloc, &texts, &mut input, &mut output, maker);
    let written = output.written().to_vec(alloc)?;
    Ok((status, written))
}

/// What a run with this one word answers and writes, and its maker behind it.
pub fn failing_run(
    alloc: Global,
    word: &str,
    octets: Vec<u8>,
    failing: Failing,
) -> Result<(u8, Vec<u8>, MemMaker), AllocError> {
    let mut maker = maker(alloc, failing)?;
    let (status, written) = run_over(alloc, &mut maker, &[word], octets, failing)?;
    Ok((status, written, maker))
}

/// What a run with this one word answers and writes where no call fails.
pub fn run(alloc: Global, word: &str, octets: Vec<u8>) -> Result<(u8, Vec<u8>), AllocError> {
    let (status, written, _) = failing_run(alloc, word, octets, FAULTLESS)?;
    Ok((status, written))
}

/// A run with this one word is to answer and to write this.
pub fn assert_run(
    rt: &impl Abort,
    alloc: Global,
    word: &str,
    octets: Vec<u8>,
    failing: Failing,
    status: u8,
    written: &[u8],
) -> Result<(), Fail> {
    let (answered, text, _) = failing_run(alloc, word, octets, failing)?;
    assert_eq!(rt; answered, status);
    assert_eq!(rt; text.as_slice(), written);
    Ok(())
}

/// Where this write fails, a replay is to leave so many octets of the front of its whole report.
pub fn assert_front(
    rt: &impl Abort,
    alloc: Global,
    octets: Vec<u8>,
    write: u64,
    whole: &[u8],
    len: usize,
) -> Result<(), Fail> {
    let failing = Failing {
        writes: &[write],
        ..FAULTLESS
    };
    let (status, written, _) = failing_run(alloc, "replay", octets, failing)?;
    assert_eq!(rt; status, WRITE_FAULT);
    assert_eq!(rt; written.len(), len);
    assert!(rt; whole.starts_with(&written));
    Ok(())
}
