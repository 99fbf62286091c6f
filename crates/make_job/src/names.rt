ghost use Rattle.std.specs.Prelude.{◌≡◌, ◌∷◌, ◌++◌, [], ◌<◌, IsTrue, IfOk};
ghost use Rattle.lower_model.specs.Name.{is_name as name_test};
ghost use Rattle.text_model.specs.Line.{number};
ghost use Rattle.make_model.specs.MakeJobs.{directory_name as name_of_directory, file_name as name_of_file, file_path as path_of_file};

use line_writer::put_number;
use std::alloc::{AllocError, Global};
use tree_model::{Name, Path};

// The octets of a letter and a number.
fn numbered(alloc: Global, letter: u8, n: u32) -> Result<Vec<u8>, AllocError>
    ensures { IfOk result (λ octets. octets.items ≡ letter ∷ number n) }
{
    let mut octets = Vec::new(alloc);
    octets.push(letter)?;
    put_number(&mut octets, u64::from(n))?;
    Ok(octets)
}

/// The name of a directory.
#[tactic(auto, using(make_model::proofs::MakeNames::is_directory_name))]
fn directory_name(alloc: Global, d: u32) -> Result<Name, AllocError>
    requires { d < 8 }
    ensures { IfOk result (λ name. name ≡ name_of_directory d) }
{
    let octets = numbered(alloc, b'd', d)?;
    Name::from_slice(alloc, &octets)
}

#[tactic(auto, using(make_model::proofs::MakeNames::is_file_name))]
fn file_name(alloc: Global, i: u32) -> Result<Name, AllocError>
    requires { i < 64 }
    ensures { IfOk result (λ name. name ≡ name_of_file i) }
{
    let octets = numbered(alloc, b'f', i)?;
    Name::from_slice(alloc, &octets)
}

/// The path of a directory.
pub(crate) fn directory_path(alloc: Global, d: u32) -> Result<Path, AllocError>
    requires { d < 8 }
    ensures { IfOk result (λ path. path ≡ name_of_directory d ∷ []) }
{
    let mut path = Path::root(alloc);
    path.push(&directory_name(alloc, d)?)?;
    Ok(path)
}

/// The path of a file.
pub(crate) fn file_path(alloc: Global, i: u32) -> Result<Path, AllocError>
    requires { i < 64 }
    ensures { IfOk result (λ path. path ≡ path_of_file i) }
{
    let mut path = directory_path(alloc, i % 8)?;
    path.push(&file_name(alloc, i)?)?;
    Ok(path)
}
