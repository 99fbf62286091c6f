use crate::run::{job, job_with, run};
use mount_run::OK;
use std::alloc::{AllocError, Global};
use std::process::Abort;
use std::test::Fail;

/// A script line, and its reply.
pub type Line<'a> = (&'a str, &'a str);

/// The job on this image whose script has these lines.
pub fn job_of(alloc: Global, image: &[u8], lines: &[Line]) -> Result<Vec<u8>, AllocError> {
    let mut texts = Vec::new(alloc);
    for (text, _) in lines {
        texts.push(*text)?;
    }
    job(alloc, image, &texts)
}

/// The report up to its last part: the replies, and the log, in which the count of faults rises at each `err lower`.
pub fn histories(alloc: Global, lines: &[Line]) -> Result<Vec<u8>, AllocError> {
    let count = lines.len();
    let mut text = format!(in alloc; "ecryptfs-report 1\nsession 0 {count}\n")?;
    for (_, reply) in lines {
        text.push_str(reply)?;
        text.push('\n')?;
    }
    text.push_str(&format!(in alloc; "tree {count}\n")?)?;
    let mut after = 0u64;
    for (op, (call, reply)) in lines.iter().enumerate() {
        let before = after;
        if *reply == "err lower" {
            after = before.saturating_add(1);
        }
        text.push_str(&format!(in alloc; "0 {op} {before} {after} {call} = {reply}\n")?)?;
    }
    Ok(text.into_bytes())
}

/// The report that ends with this image.
pub fn report(alloc: Global, lines: &[Line], image: &[u8]) -> Result<Vec<u8>, AllocError> {
    let mut octets = histories(alloc, lines)?;
    octets.extend_from_slice(format!(in alloc; "image {}\n", image.len())?.as_bytes())?;
    octets.extend_from_slice(image)?;
    octets.extend_from_slice(b"\nend\n")?;
    Ok(octets)
}

/// Runs the lines on the first image, where no call fails: each is to be answered so, and the second image is to come out.
pub fn assert_replies(
    rt: &impl Abort,
    alloc: Global,
    image: &[u8],
    lines: &[Line],
    behind: &[u8],
) -> Result<(), Fail> {
    let (status, written) = run(alloc, "replay", job_of(alloc, image, lines)?)?;
    assert_eq!(rt; status, OK);
    assert_eq!(rt; written, report(alloc, lines, behind)?);
    Ok(())
}

/// The image in a report; nothing where it has none.
pub fn image_in(report: &[u8]) -> &[u8] {
    let word = b"\nimage ".as_slice();
    let Some(place) = report.windows(word.len()).position(|window| window == word) else {
        return &[];
    };
    let behind = &report[place + word.len()..];
    let Some(end) = behind.iter().position(|c| *c == b'\n') else {
        return &[];
    };
    // Behind the image stand a line end and the line `end`.
    &behind[end + 1..behind.len().saturating_sub(5).max(end + 1)]
}

/// The image in a report is to be shown so.
pub fn assert_shown(
    rt: &impl Abort,
    alloc: Global,
    meta: &str,
    report: &[u8],
    wanted: &[u8],
) -> Result<(), Fail> {
    let octets = job_with(alloc, meta, image_in(report), &[])?;
    let (status, shown) = run(alloc, "show", octets)?;
    assert_eq!(rt; status, OK);
    assert_eq!(rt; shown.as_slice(), wanted);
    Ok(())
}
