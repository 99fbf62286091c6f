ghost use Rattle.std.specs.Prelude.{◌≡◌, IfOk};
ghost use Rattle.mount_run.specs.Refusals.{bad_job_text as text_of_bad_job, too_long_text as text_of_too_long};

use line_writer::{put_line_end, put_number, put_space, put_word};
use std::alloc::{AllocError, Global};

/// The line of an input that is no job, with the place where it is bad.
pub fn bad_job_text(alloc: Global, place: usize) -> Result<Vec<u8>, AllocError>
    ensures { IfOk result (λ text. text.items ≡ text_of_bad_job place) }
{
    let mut text = Vec::new(alloc);
    put_word(&mut text, "badjob")?;
    put_space(&mut text)?;
    put_number(&mut text, place as u64)?;
    put_line_end(&mut text)?;
    Ok(text)
}

/// The line of an input that has more octets than a job may have.
pub fn too_long_text(alloc: Global) -> Result<Vec<u8>, AllocError>
    ensures { IfOk result (λ text. text.items ≡ text_of_too_long) }
{
    let mut text = Vec::new(alloc);
    put_word(&mut text, "toolong")?;
    put_line_end(&mut text)?;
    Ok(text)
}
