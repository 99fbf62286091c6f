ghost use Rattle.std.specs.Prelude.{◌≡◌, ◌≤◌, length};
ghost use Rattle.job_model.specs.declared.limits.TheConstants.{LONGEST_PASSPHRASE};
ghost use Rattle.mount_model.specs.MountForm.{is_coded, key_of, mount_of_job};

use extent_file::Ecryptfs;
use job_model::NameCoding;
use job_text::Job;
use packet_set::OneKeyRing;
use passphrase_key::derive;
use secret_key::{Fnek, Kek, KeySource};

// The key of this passphrase under this salt, and its signature.
fn key_of(salt: &[u8; 8], passphrase: &[u8]) -> (Kek, [u8; 8])
    requires some { 1 ≤ length passphrase.now }
    requires few { length passphrase.now ≤ LONGEST_PASSPHRASE }
    ensures { record { signature = result.1; key = result.0 } ≡ key_of salt.now passphrase.now }
{
    match derive(salt, passphrase) {
        Ok(derived) => derived,
        Err(_) => unreachable!(),
    }
}

/// The ring of this passphrase, of 1 to 64 octets, under this salt. It has to be ended.
pub fn passphrase_ring(salt: &[u8; 8], passphrase: &[u8]) -> OneKeyRing
    requires some { 1 ≤ length passphrase.now }
    requires few { length passphrase.now ≤ LONGEST_PASSPHRASE }
    ensures { result ≡ key_of salt.now passphrase.now }
{
    let (kek, signature) = key_of(salt, passphrase);
    OneKeyRing::new(kek, signature)
}

/// The key of names of this passphrase, of 1 to 64 octets, under this salt. It has to be spent.
pub fn name_key(salt: &[u8; 8], passphrase: &[u8]) -> Fnek
    requires some { 1 ≤ length passphrase.now }
    requires few { length passphrase.now ≤ LONGEST_PASSPHRASE }
    ensures { result ≡ key_of salt.now passphrase.now }
{
    let (kek, signature) = key_of(salt, passphrase);
    Fnek::new(kek, signature)
}

// Whether a mount encrypts names.
fn is_coded(names: NameCoding) -> bool
    ensures { result ≡ is_coded names }
{
    match names {
        NameCoding::Plain => false,
        NameCoding::Tag70 => true,
    }
}

/// The format of bodies of a job's mount. It has to be ended.
pub fn file_format(job: &Job) -> Ecryptfs
    requires some { 1 ≤ length job.now.passphrase }
    requires few { length job.now.passphrase ≤ LONGEST_PASSPHRASE }
    ensures { result.mount ≡ mount_of_job job.now }
{
    let (kek, signature) = key_of(&job.salt, job.passphrase.as_slice());
    Ecryptfs::new(
        kek,
        signature,
        job.salt,
        KeySource::new(job.random),
        is_coded(job.names),
        job.meta_place,
    )
}
